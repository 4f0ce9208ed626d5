// What a book is opened with, and what it keeps of it.
ghost use Rattle.std.specs.Prelude.{◌≡◌, ◌<◌, ◌≤◌, length, replicate, slice_index, slice_index_or, slice_set};
ghost use Rattle.table.specs.Tables.{filled};
ghost use Rattle.book.specs.Opening.{resource_of, no_registration, with_resources, blank_register};

use settlement::terms::Kind;

// A resource as an opening names it: kind 1 to 4, aggregator 1 to 99, customers 1 to 16.
#[derive(Clone, Copy, PartialEq, Eq)]
pub struct Registration {
    // Stays: a number handed to a call may be anything, and one that no kind has is refused.
    pub kind: u32,
    pub aggregator: u32,
    pub customers: u32,
}

// A resource as the book keeps it.
#[derive(Clone, Copy, PartialEq, Eq)]
pub struct Resource {
    pub kind: Kind,
    pub aggregator: u32,
    pub customers: u32,
}

// The plain part of a book: its number, its month and days, its resources and buyers.
// Stays: the classes are the opening's own bytes, as the definitions have them, and one place turns a byte into a `DayClass`.
#[derive(Clone, Copy, PartialEq, Eq)]
pub struct Register {
    pub number: u32,
    pub month: u32,
    pub days: u32,
    pub classes: [u8; 31],
    pub first_day: u32,
    pub resources: [Resource; 16],
    pub enrolled: u32,
    pub buyers: u32,
}

impl Resource {
    // Enters a resource as it was named.
    fn enter(&mut self, registration: Registration)
        ensures value { self.new ≡ resource_of registration }
    {
        self.kind = Kind::try_from(registration.kind).unwrap_or(Kind::Standard);
        self.aggregator = registration.aggregator;
        self.customers = registration.customers;
    }
}

impl Register {
    // The register of a book not yet opened.
    pub(crate) fn blank() -> Register
        ensures value { result ≡ blank_register }
    {
        let none = Resource {
            kind: Kind::Standard,
            aggregator: 0,
            customers: 0,
        };
        Register {
            number: 0,
            month: 0,
            days: 0,
            classes: [0; 31],
            first_day: 0,
            resources: [none; 16],
            enrolled: 0,
            buyers: 0,
        }
    }

    // Lends the record at a place to be entered.
    fn enter(&mut self, place: usize, registration: Registration)
        requires { place < 16 }
        ensures value { self.new ≡ with_resources self.old (slice_set self.old.resources place (resource_of registration)) }
    {
        self.resources[place].enter(registration);
    }

    // Enters all resources, from the first place on.
    pub(crate) fn enter_all(&mut self, registrations: &[Registration])
        requires { length registrations.now ≤ 16 }
        ensures value { self.new ≡ with_resources self.old (filled self.old.resources 0 (length registrations.now) (λ i. resource_of (slice_index_or registrations.now i no_registration))) }
    {
        for (place, registration) in registrations.iter().enumerate() {
            self.enter(place, *registration);
        }
    }
}

// The classes of the days, from the first place on.
pub(crate) fn entered_classes(classes: &[u8]) -> [u8; 31]
    requires { length classes.now ≤ 31 }
    ensures value { result ≡ filled (replicate 31 0) 0 (length classes.now) (λ d. slice_index classes.now d) }
{
    let mut entered = [0; 31];
    entered[..classes.len()].copy_from_slice(classes);
    entered
}
