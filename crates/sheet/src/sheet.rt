// Writing the evening sheet.
ghost use Rattle.std.specs.Prelude.{◌≡◌, ◌≤◌, length, IfOk};
ghost use Rattle.book.specs.Seen.{seen, granted_or};
ghost use Rattle.sheet.specs.Text.{text_of};
ghost use Rattle.sheet.specs.Written.{short_buffer, written_by, sheet_answer, sheet_written};
ghost use Rattle.sheet.specs.Columns.{BalancedSheet};

use crate::gather::{Entries, gather};
use crate::page::Page;
use crate::write::{text_len, write_lines};
use book::book::Book;
use refusal::Refusal;
use table::lines::{BuyerLine, ResourceLine};

// Writes entries at the buffer's start and answers the text's length; a buffer that is too short stays as it is.
fn write_entries(entries: &Entries, buffer: &mut [u8]) -> Result<usize, Refusal>
    ensures answer { result ≡ granted_or (short_buffer (text_of entries.now.items) buffer.old) (length (text_of entries.now.items)) }
    ensures buffer { buffer.new ≡ written_by (short_buffer (text_of entries.now.items) buffer.old) (text_of entries.now.items) buffer.old }
{
    let length = text_len(entries);
    if buffer.len() < length {
        return Err(Refusal::ShortBuffer);
    }
    let mut page = Page { buffer, next: 0 };
    write_lines(&mut page, entries);
    Ok(length)
}

// Writes the evening sheet of a book and its lists at the buffer's start, and answers its length in bytes.
pub fn write_sheet(
    book: &Book,
    lines: &[ResourceLine],
    charges: &[BuyerLine],
    buffer: &mut [u8],
) -> Result<usize, Refusal>
    ensures answer { result ≡ sheet_answer (seen book.now lines.now charges.now) buffer.old }
    ensures buffer { buffer.new ≡ sheet_written (seen book.now lines.now charges.now) buffer.old }
    ensures bounded { IfOk result (λ n. n ≤ length buffer.old) }
    ensures balanced { BalancedSheet (seen book.now lines.now charges.now) }
{
    if book.lacks_places(lines, charges) {
        return Err(Refusal::ShortLists);
    }
    write_entries(&gather(book, lines, charges), buffer)
}
