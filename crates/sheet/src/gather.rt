// The entries of a book's sheet, gathered in their order.
ghost use Rattle.std.specs.Prelude.{◌≡◌, ℕ, ◌+◌, ◌*◌, ◌<◌, ◌≤◌, List, [], ◌++◌, length};
ghost use Rattle.arrayvec.specs.ArrayVec.{array_vec_len};
ghost use Rattle.book.specs.Seen.{seen};
ghost use Rattle.sheet.specs.declared.entry.Entry.{Entry};
ghost use Rattle.sheet.specs.Evening.{head_entries, resource_entries, buyer_entries, joined_to, sheet_entries};

use crate::entry::{Entry, Key};
use crate::sums::{column_sums, hours_that};
use arrayvec::ArrayVec;
use book::book::Book;
use std::convert::AsSlice;
use table::lines::{BuyerLine, ResourceLine};
use table::table::Rows;

// The entries of a sheet: four, four for each of 16 resources, and three for each of eight buyers.
pub(crate) type Entries = ArrayVec<Entry, 92>;

// The book, the month, and how many hours are allotted and in correction.
fn head_block(book: &Book) -> [Entry; 4]
    ensures value { result ≡ head_entries book.now.register book.now.hours }
{
    let register = book.register();
    let allotted = hours_that(book, |hour| book.holds_allotted(hour));
    let correcting = hours_that(book, |hour| book.holds_correcting(hour));
    [
        Entry::new(Key::Book, register.number.into()),
        Entry::new(Key::Month, register.month.into()),
        Entry::new(Key::Allotted, allotted.into()),
        Entry::new(Key::Correcting, correcting.into()),
    ]
}

// A resource, its aggregator, and what it is paid and fined.
fn resource_block(book: &Book, lines: &[ResourceLine], resource: u32) -> [Entry; 4]
    ensures value { result ≡ resource_entries (seen book.now lines.now []) resource }
{
    let register = book.register();
    let aggregator = register
        .resources
        .get(resource as usize)
        .map_or(0, |registered| registered.aggregator);
    let rows = Rows {
        lines,
        width: register.enrolled,
    };
    let sums = column_sums(book, &rows, resource);
    [
        Entry::new(Key::Resource, resource.into()),
        Entry::new(Key::Aggregator, aggregator.into()),
        Entry::new(Key::Paid, sums.due),
        Entry::new(Key::Fined, sums.back),
    ]
}

// A buyer, and what it is charged and refunded.
fn buyer_block(book: &Book, charges: &[BuyerLine], buyer: u32) -> [Entry; 3]
    ensures value { result ≡ buyer_entries (seen book.now [] charges.now) buyer }
{
    let register = book.register();
    let rows = Rows {
        lines: charges,
        width: register.buyers,
    };
    let sums = column_sums(book, &rows, buyer);
    [
        Entry::new(Key::Payer, buyer.into()),
        Entry::new(Key::Charged, sums.due),
        Entry::new(Key::Refunded, sums.back),
    ]
}

// Adds a block's entries.
fn add(entries: &mut Entries, block: &[Entry])
    requires { array_vec_len entries.old + length block.now ≤ 92 }
    ensures value { entries.new.items ≡ entries.old.items ++ block.now }
{
    let _fits = entries.try_extend_from_slice(block);
}

// Adds the blocks of the numbers below `count`, of `N` entries each.
fn add_blocks<const N: usize, T: AsSlice<Entry> + Drop, B: Fn(u32) -> T>(
    entries: &mut Entries,
    count: u32,
    block: B,
)
    requires callable { (k : ℕ) → k < count → B.pre block k }
    requires long { (k : ℕ) (r : T) → k < count → B.post block k r → length (T.items r) ≡ N }
    requires room { array_vec_len entries.old + count * N ≤ 92 }
    ensures value { (blocks : ℕ → List Entry) → ((k : ℕ) (r : T) → k < count → B.post block k r → T.items r ≡ blocks k) → entries.new.items ≡ entries.old.items ++ joined_to count blocks }
    ensures len { array_vec_len entries.new ≡ array_vec_len entries.old + count * N }
{
    for k in 0..count {
        add(entries, block(k).as_slice());
    }
}

// Gathers all entries.
pub(crate) fn gather(book: &Book, lines: &[ResourceLine], charges: &[BuyerLine]) -> Entries
    ensures value { result.items ≡ sheet_entries (seen book.now lines.now charges.now) }
{
    let register = book.register();
    let mut entries = ArrayVec::new();
    add(&mut entries, &head_block(book));
    let resources = |resource: u32| -> [Entry; 4]
        ensures { result ≡ resource_entries (seen book.entry.now lines.entry.now []) resource }
    { resource_block(book, lines, resource) };
    add_blocks::<4, _, _>(&mut entries, register.enrolled, resources);
    let buyers = |buyer: u32| -> [Entry; 3]
        ensures { result ≡ buyer_entries (seen book.entry.now [] charges.entry.now) buyer }
    { buyer_block(book, charges, buyer) };
    add_blocks::<3, _, _>(&mut entries, register.buyers, buyers);
    entries
}
