// The book itself: its register and its hours.
ghost use Rattle.std.specs.Prelude.{◌≤◌};

use crate::energies::Energies;
use crate::hour::Hour;
use crate::register::Register;

#[derive(Drop, PartialEq, Eq)]
pub struct Book {
    pub(crate) register: Register,
    pub(crate) hours: [Hour<Energies>; 744],
    ghost days_few: { register.days ≤ 31 },
    ghost enrolled_few: { register.enrolled ≤ 16 },
    ghost buyers_few: { register.buyers ≤ 8 },
    ghost first_day_low: { register.first_day ≤ 64 },
}
