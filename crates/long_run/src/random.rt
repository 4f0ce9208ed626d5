// A small generator of pseudo-random numbers.
ghost use Rattle.std.specs.Prelude.{◌<◌};

// A linear congruential generator.
#[derive(Drop)]
pub struct Random {
    pub state: u64,
}

impl Random {
    // The next number, below 2 to the 32nd.
    fn next(&mut self) -> u32 {
        self.state = self
            .state
            .wrapping_mul(6_364_136_223_846_793_005)
            .wrapping_add(1_442_695_040_888_963_407);
        (self.state >> 32) as u32
    }

    // A number below a limit.
    pub(crate) fn below(&mut self, limit: u32) -> u32
        requires some { 0 < limit }
        ensures bounded { result < limit }
    {
        self.next() % limit
    }

    // Whether one chance in so many comes up.
    pub(crate) fn one_in(&mut self, limit: u32) -> bool
        requires some { 0 < limit }
    {
        self.next() % limit == 0
    }
}
