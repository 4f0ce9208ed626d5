// Writing entries into a sink, and measuring them.
ghost use Rattle.std.specs.Prelude.{◌≡◌, ◌≤◌, length};
ghost use Rattle.sheet.specs.Tape.{HasRoom, after};
ghost use Rattle.sheet.specs.Text.{line_text, text_of};

use crate::entry::Entry;
use crate::sink::Sink;
use itoa::Buffer;

// The byte that ends a line.
const LINE_END: u8 = 10;

// Puts a text.
fn write_bytes<S: Sink>(sink: &mut S, text: &[u8])
    requires { HasRoom (S.tape sink.old) text.now }
    ensures value { S.tape sink.new ≡ after (S.tape sink.old) text.now }
{
    for byte in text {
        sink.put(*byte);
    }
}

// Puts an entry's line.
fn write_line<S: Sink>(sink: &mut S, entry: &Entry)
    requires { HasRoom (S.tape sink.old) (line_text entry.now) }
    ensures value { S.tape sink.new ≡ after (S.tape sink.old) (line_text entry.now) }
{
    write_bytes(sink, entry.key.text());
    sink.put(b'=');
    write_bytes(sink, entry.decimals(&mut Buffer::new()).as_bytes());
    sink.put(LINE_END);
}

// Puts the lines of entries, one after another.
pub(crate) fn write_lines<S: Sink>(sink: &mut S, entries: &[Entry])
    requires { HasRoom (S.tape sink.old) (text_of entries.now) }
    ensures value { S.tape sink.new ≡ after (S.tape sink.old) (text_of entries.now) }
{
    for entry in entries {
        write_line(sink, entry);
    }
}

// How many bytes an entry's line has.
fn line_len(entry: &Entry) -> usize
    ensures value { result ≡ length (line_text entry.now) }
    ensures bounded { result ≤ 52 }
{
    entry.key.text().len() + entry.decimals(&mut Buffer::new()).len() + 2
}

// How many bytes the lines of entries have.
pub(crate) fn text_len(entries: &[Entry]) -> usize
    requires { length entries.now ≤ 92 }
    ensures value { result ≡ length (text_of entries.now) }
{
    entries.iter().map(line_len).sum()
}
