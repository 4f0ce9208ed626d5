// An hour of the month, with the energies `E` that were told for it.
ghost use Rattle.std.specs.Prelude.{◌≡◌};
ghost use Rattle.book.specs.Hours.{is_allotted, told_anew, step_refusal, step_answer, hour_after};

use refusal::Refusal;

// Blank and told hours are open.
#[derive(Clone, Copy, PartialEq, Eq)]
pub enum Hour<E> {
    Blank,
    Told(E),
    Allotted(E),
    Correcting(E),
}

// The calls that step an hour.
#[derive(Clone, Copy)]
pub enum Step {
    Allot,
    Reopen,
    Finish,
}

impl<E: Copy> Hour<E> {
    // Whether the hour is allotted.
    pub(crate) fn is_allotted(&self) -> bool
        ensures value { result ≡ is_allotted self.now }
    {
        matches!(self, Hour::Allotted(_))
    }

    // The hour with other energies, otherwise as it was.
    pub(crate) fn told(self, energies: E) -> Hour<E>
        ensures value { result ≡ told_anew self energies }
    {
        match self {
            Hour::Blank | Hour::Told(_) => Hour::Told(energies),
            Hour::Allotted(_) => Hour::Allotted(energies),
            Hour::Correcting(_) => Hour::Correcting(energies),
        }
    }

    // Steps the hour in place and answers its energies, or refuses and leaves it.
    pub(crate) fn step(&mut self, call: Step) -> Result<E, Refusal>
        ensures answer { result ≡ step_answer (step_refusal call self.old) self.old }
        ensures hour { self.new ≡ hour_after call self.old }
    {
        // Stays: the state of an hour and the call are matched together, and the hour is stepped in place.
        match (*self, call) {
            (Hour::Told(energies), Step::Allot) | (Hour::Correcting(energies), Step::Finish) => {
                *self = Hour::Allotted(energies);
                Ok(energies)
            }
            (Hour::Allotted(energies), Step::Reopen) => {
                *self = Hour::Correcting(energies);
                Ok(energies)
            }
            (Hour::Blank, Step::Allot) => Err(Refusal::NoEnergies),
            (Hour::Allotted(_), Step::Allot) => Err(Refusal::HourAllotted),
            (Hour::Correcting(_), Step::Allot) => Err(Refusal::HourInCorrection),
            (_, Step::Reopen) => Err(Refusal::HourNotAllotted),
            (_, Step::Finish) => Err(Refusal::WrongSlip),
        }
    }
}
