// The month of the trial and its resources.
use book::register::Registration;
use settlement::terms::Kind;

// The month, April, and its first day in the sources.
pub const MONTH: u32 = 4;

pub const FIRST_DAY: u32 = 20;

// A resource of the month.
#[derive(Clone, Copy)]
pub struct Resource {
    pub kind: Kind,
    pub aggregator: u32,
    pub customers: u32,
}

pub const RESOURCES: [Resource; 3] = [
    Resource {
        kind: Kind::Standard,
        aggregator: 12,
        customers: 2,
    },
    Resource {
        kind: Kind::StandardHoliday,
        aggregator: 99,
        customers: 4,
    },
    Resource {
        kind: Kind::SmallMedium,
        aggregator: 1,
        customers: 3,
    },
];

impl From<Resource> for Registration {
    fn from(resource: Resource) -> Registration {
        let kind = match resource.kind {
            Kind::Standard => 1,
            Kind::SmallMedium => 2,
            Kind::StandardHoliday => 3,
            Kind::SmallMediumHoliday => 4,
        };
        Registration {
            kind,
            aggregator: resource.aggregator,
            customers: resource.customers,
        }
    }
}
