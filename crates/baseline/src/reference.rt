// Reference days.
use arrayvec::ArrayVec;

// A reference day, with its load in Wh in the hour that it was chosen for.
// Days rank by load, and of equal loads the older day ranks lower, as the fields stand.
#[derive(Clone, Copy, Default, PartialEq, Eq, PartialOrd, Ord)]
pub struct Reference {
    pub load: u32,
    pub day: u32,
}

// At most ten reference days, newest first.
pub type References = ArrayVec<Reference, 10>;
