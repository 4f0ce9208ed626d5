// The evening sheet at its edges.
use crate::may::{Desk, allotted};
use crate::outcome::Tally;
use book::book::Book;
use refusal::Refusal;
use sheet::sheet::write_sheet;

// Writes the sheet of a desk into a buffer, and says how long it is.
fn write(desk: &Desk, buffer: &mut [u8]) -> Result<usize, Refusal> {
    write_sheet(&desk.book, &desk.lines, &desk.charges, buffer)
}

// The sheet of a book with 100 won charged 33, 33 and 34 has 171 bytes.
pub fn sheets(tally: &mut Tally) -> anyhow::Result<()> {
    let desk = allotted()?;
    let mut exact = [255; 171];
    let length = write(&desk, &mut exact);
    tally.note("a sheet over a buffer as long as its text", Ok(171), length)?;
    tally.note(
        "its last byte is 10, after the last digit (1 is yes)",
        true,
        exact[170] == 10 && exact[169] == b'0',
    )?;
    let mut short = [255; 170];
    let length = write(&desk, &mut short);
    tally.note(
        "a sheet over a buffer one byte short",
        Err(Refusal::ShortBuffer),
        length,
    )?;
    tally.note(
        "that buffer is not touched (1 is yes)",
        true,
        short[0] == 255 && short[85] == 255 && short[169] == 255,
    )?;
    let mut long = [255; 180];
    let length = write(&desk, &mut long);
    tally.note("a sheet over a longer buffer", Ok(171), length)?;
    tally.note(
        "bytes beyond the text stay (1 is yes)",
        true,
        long[170] == 10 && long[171] == 255 && long[179] == 255,
    )
}

// A sheet over short lists, and of a book not yet opened.
pub fn head_lines(tally: &mut Tally) -> anyhow::Result<()> {
    let Desk { book, charges, .. } = &allotted()?;
    tally.note(
        "a sheet over no lines and no buffer: 7 comes before 30",
        Err(Refusal::ShortLists),
        write_sheet(book, &[], charges, &mut []),
    )?;
    let blank = Book::new();
    let mut buffer = [255; 39];
    let length = write_sheet(&blank, &[], &[], &mut buffer);
    tally.note("the four head lines of an unopened book", Ok(39), length)?;
    tally.note(
        "its numbers are 0 (1 is yes)",
        true,
        buffer[5] == b'0' && buffer[6] == 10 && buffer[37] == b'0' && buffer[38] == 10,
    )?;
    let length = write_sheet(&blank, &[], &[], &mut [255; 38]);
    tally.note(
        "the head lines over a buffer one byte short",
        Err(Refusal::ShortBuffer),
        length,
    )
}
