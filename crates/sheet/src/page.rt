// A buffer that is written from its start, one byte after another.
ghost use Rattle.sheet.specs.Tape.{page_tape};

use crate::sink::Sink;

// Stays: a write into the library's cursor answers a Result, and a byte that is put always has its place.
#[derive(Drop)]
pub(crate) struct Page<'a> {
    pub(crate) buffer: &'a mut [u8],
    pub(crate) next: usize,
}

impl Sink for Page<'_> {
    ghost tape = { λ p. page_tape p.buffer.now p.next p.buffer.ghost_name };

    fn put(&mut self, byte: u8) {
        self.buffer[self.next] = byte;
        self.next += 1;
    }
}
