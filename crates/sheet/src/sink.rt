// Where a text goes, one byte after another.
ghost use Rattle.std.specs.Prelude.{◌≡◌, [], ◌∷◌};
ghost use Rattle.sheet.specs.Tape.{Tape, HasRoom, after};

pub(crate) trait Sink {
    ghost tape: { Self → Tape };

    // Puts one byte at the next place.
    fn put(&mut self, byte: u8)
        requires { HasRoom (tape self.old) (byte ∷ []) }
        ensures value { tape self.new ≡ after (tape self.old) (byte ∷ []) };
}
