// Sheets worked by hand, and buffers at their edges.
use book::book::Book;
use book::month_hour::MonthHour;
use book::open::Opening;
use book::register::Registration;
use refusal::Refusal;
use settlement::terms::Line;
use sheet::sheet::write_sheet;
use std::test::Fail;
use table::lines::{BuyerLine, ResourceLine};
use table::table::Table;

// What a buyer is charged and refunded.
const fn charge(charge: i64, refund: i64) -> BuyerLine {
    BuyerLine { charge, refund }
}

// A settled line of which only the money matters.
const fn line(plan_pay: i32, order_pay: i32, fined: u32) -> ResourceLine {
    Some(Line {
        plan: 0,
        order: 0,
        sr: 0,
        dr: 0,
        dlr: 0,
        slr: 0,
        plan_pay,
        order_pay,
        fined,
    })
}

// Tells an hour's energies, all the retailer's, and allots the hour.
fn allot(
    book: &mut Book,
    lines: &[ResourceLine],
    charges: &mut [BuyerLine],
    at: MonthHour,
    others: &[u32],
) -> Result<(), Refusal> {
    book.tell(lines, charges, at, 1, others)?;
    book.allot(lines, charges, at)
}

// Allots every hour of a month of 31 days.
fn allot_all(
    book: &mut Book,
    lines: &[ResourceLine],
    charges: &mut [BuyerLine],
    others: &[u32],
) -> Result<(), Refusal> {
    for day in 1..32 {
        for hour in 1..25 {
            allot(book, lines, charges, MonthHour { day, hour }, others)?;
        }
    }
    Ok(())
}

#[test]
fn an_unopened_book_writes_its_head(rt: HostRuntime) {
    let text = b"book=0\nmonth=0\nallotted=0\ncorrecting=0\n";
    let book = Book::new();
    let mut longer = [7; 45];
    assert_eq!(rt; write_sheet(&book, &[], &[], &mut longer), Ok(39));
    assert!(rt; longer.starts_with(text));
    assert!(rt; longer.ends_with(&[7; 6]));
    let mut exact = [7; 39];
    assert_eq!(rt; write_sheet(&book, &[], &[], &mut exact), Ok(39));
    assert!(rt; exact == *text);
    let mut shorter = [7; 38];
    assert_eq!(rt;
        write_sheet(&book, &[], &[], &mut shorter),
        Err(Refusal::ShortBuffer)
    );
    assert!(rt; shorter == [7; 38]);
}

// Writes money into the rows of the hours 0 to 2 and of the last hour of a month of 29 days, with one resource and two buyers.
fn fill(lines: &mut [ResourceLine], charges: &mut [BuyerLine]) {
    let mut resources = Table::new(lines, 1);
    let mut buyers = Table::new(charges, 2);
    let row = [charge(-1, 10), charge(50, 0)];
    for hour in 0..3 {
        resources.put(hour, 0, line(-7, 2, 9));
        buyers.put_row(hour, &row);
    }
    resources.put(695, 0, line(4, 1, 0));
    buyers.put(695, 1, charge(51, -100));
}

// Writes the sheet while an hour is in correction.
fn write_in_correction(
    book: &mut Book,
    lines: &[ResourceLine],
    charges: &mut [BuyerLine],
    buffer: &mut [u8],
) -> Result<usize, Refusal> {
    let slip = book.reopen(lines, charges, MonthHour { day: 1, hour: 2 })?;
    let answer = write_sheet(book, lines, charges, buffer);
    book.finish(lines, charges, slip).unwrap();
    answer
}

#[test]
fn only_allotted_hours_are_summed(rt: HostRuntime) -> Result<(), Fail> {
    let mut lines = [None; 696];
    let mut charges = [BuyerLine::default(); 1_392];
    let mut book = Book::new();
    let opening = Opening {
        number: 10,
        month: 2,
        classes: &[0; 29],
        first_day: 64,
        buyers: 2,
        resources: &[Registration {
            kind: 1,
            aggregator: 5,
            customers: 1,
        }],
    };
    book.open(opening, &mut lines, &mut charges)?;
    let allotted = [
        MonthHour { day: 1, hour: 1 },
        MonthHour { day: 1, hour: 2 },
        MonthHour { day: 29, hour: 24 },
    ];
    for at in allotted {
        allot(&mut book, &lines, &mut charges, at, &[0])?;
    }
    fill(&mut lines, &mut charges);
    let text =
        b"book=10\nmonth=2\nallotted=2\ncorrecting=1\nresource=0\naggregator=5\npaid=0\nfined=9\npayer=0\ncharged=-1\nrefunded=10\npayer=1\ncharged=101\nrefunded=-100\n";
    let mut buffer = [7; 144];
    assert_eq!(rt;
        write_in_correction(&mut book, &lines, &mut charges, &mut buffer),
        Ok(144)
    );
    assert!(rt; buffer == *text);
    assert_eq!(rt;
        write_sheet(&book, &[None; 695], &charges, &mut []),
        Err(Refusal::ShortLists)
    );
    Ok(())
}

#[test]
fn the_largest_month_does_not_wrap(rt: HostRuntime) -> Result<(), Fail> {
    let mut lines = [None; 11_904];
    let mut charges = [BuyerLine::default(); 5_952];
    let mut book = Book::new();
    let opening = Opening {
        number: 4_294_967_295,
        month: 12,
        classes: &[1; 31],
        first_day: 0,
        buyers: 8,
        resources: &[Registration {
            kind: 4,
            aggregator: 99,
            customers: 16,
        }; 16],
    };
    book.open(opening, &mut lines, &mut charges)?;
    allot_all(&mut book, &lines, &mut charges, &[0; 7])?;
    let lines = [line(i32::MAX, i32::MAX, u32::MAX); 11_904];
    let charges = [charge(i64::MAX, i64::MIN); 5_952];
    let mut buffer = [7; 1_657];
    assert_eq!(rt;
        write_sheet(&book, &lines, &charges, &mut buffer),
        Ok(1_657)
    );
    assert!(rt;
        buffer.starts_with(b"book=4294967295\nmonth=12\nallotted=744\ncorrecting=0\nresource=0\n",)
    );
    assert!(rt;
        buffer[1_016..].starts_with(
            b"resource=15\naggregator=99\npaid=3195455666736\nfined=3195455667480\n",
        )
    );
    assert!(rt;
        buffer.ends_with(
            b"payer=7\ncharged=6862188795419953200408\nrefunded=-6862188795419953201152\n",
        )
    );
    Ok(())
}
