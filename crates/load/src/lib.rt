// Load records: what each customer's meter measured, hour by hour, and which days may be reference days.
#![tactic(auto)]

pub mod interval;
pub mod left_out;
pub mod loads;
pub mod places;
pub mod register;
