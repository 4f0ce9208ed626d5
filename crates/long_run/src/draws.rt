// What the calls are drawn from.
ghost use Rattle.std.specs.Prelude.{◌≤◌};

use crate::plain::{Choice, SORTS, WAYS};
use crate::random::Random;
use book::month_hour::MonthHour;
use settlement::terms::Terms;

impl Random {
    // Terms, now and then at a limit or past it.
    pub fn terms(&mut self) -> Terms {
        let mut terms = Terms {
            plan: 0,
            order: 0,
            emergency: self.one_in(6),
            test: self.one_in(6),
            smp: self.below(200_001),
            mgp: self.below(200_001),
        };
        if !self.one_in(4) {
            terms.plan = self.below(60) * 50_000 + 1;
        }
        if self.one_in(2) {
            terms.order = self.below(60) * 30_000 + 3;
        }
        match self.below(150) {
            0 => terms.plan = 640_000_001,
            1 => terms.plan = 640_000_000,
            2 => terms.order = 500_000_001,
            3 => terms.order = 500_000_000,
            4 => terms.smp = 200_001,
            5 => terms.mgp = 200_001,
            _ => {}
        }
        terms
    }

    // A taking-part mark; most customers take part.
    fn mark(&mut self) -> u8 {
        if self.one_in(3) {
            self.below(3) as u8
        } else {
            1
        }
    }

    // Taking-part marks.
    pub fn marks(&mut self) -> [u8; 4] {
        [self.mark(), self.mark(), self.mark(), self.mark()]
    }

    // A source.
    pub fn choice(&mut self) -> Choice {
        Choice {
            sort: SORTS[self.below(7) as usize],
            way: WAYS[self.below(7) as usize],
        }
    }

    // An hour: mostly one of the month, now and then none of it.
    pub fn hour(&mut self) -> MonthHour {
        if self.one_in(40) {
            return MonthHour {
                day: self.below(33),
                hour: self.below(27),
            };
        }
        let day = 1 + self.below(30);
        if self.one_in(8) {
            return MonthHour {
                day,
                hour: 1 + self.below(24),
            };
        }
        MonthHour {
            day,
            hour: 9 + self.below(9),
        }
    }

    // An hour, often the one in focus.
    pub fn hour_by(&mut self, focus: Option<MonthHour>) -> MonthHour {
        match focus {
            Some(at) if self.one_in(2) => at,
            _ => self.hour(),
        }
    }

    // A resource or a buyer, now and then an unknown one.
    pub fn number(&mut self) -> u32 {
        if self.one_in(40) {
            return 3;
        }
        self.below(3)
    }

    // A total, now and then at a limit or past it.
    pub fn total(&mut self) -> u32 {
        match self.below(60) {
            0 => 0,
            1 => 150_000_001,
            2 => 150_000_000,
            _ => 1 + self.below(1_000),
        }
    }

    // How many purchases are told: two, now and then another count.
    pub(crate) fn told(&mut self) -> usize
        ensures bounded { result ≤ 3 }
    {
        if self.one_in(25) {
            return self.below(4) as usize;
        }
        2
    }
}
