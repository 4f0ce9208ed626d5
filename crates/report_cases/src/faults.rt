// Texts with a bad line: its number, and what is wrong with it.
use report::request::Request;
use std::alloc::Global;
use std::process::Abort;
use std::test::*;

// Checks what is told of a text that is refused.
fn check_told(rt: &impl Abort, alloc: Global, text: &str, told: &str) -> Result<(), Fail> {
    match Request::new(alloc)?.read(text) {
        Ok(_) => Err(Fail::new("it was read")),
        Err(bad) => {
            assert_eq!(rt; bad.to_string(alloc)?.as_str(), told);
            Ok(())
        },
    }
}

// Checks that each text is refused for one reason.
fn check_all(rt: &impl Abort, alloc: Global, texts: &[&str], told: &str) -> Result<(), Fail> {
    for text in texts {
        check_told(rt, alloc, text, told)?;
    }
    Ok(())
}

#[test]
fn unknown_word(rt: HostRuntime) -> Result<(), Fail> {
    let texts = ["days 1", "Day 1", "loads 0 0 1 5", " 1", "da", "\u{e9} 1"];
    check_all(&rt, rt.alloc(), &texts, "line 1: unknown word")
}

#[test]
fn too_few_numbers(rt: HostRuntime) -> Result<(), Fail> {
    let texts = [
        "day",
        "customers",
        "workday",
        "holiday",
        "leftout",
        "start 1",
        "load 0 0 1",
        "reading 0 0 0",
        "settle 11 1 5 0 0 0 0 0",
        "energy",
    ];
    check_all(&rt, rt.alloc(), &texts, "line 1: too few numbers")
}

#[test]
fn too_many_numbers(rt: HostRuntime) -> Result<(), Fail> {
    let texts = [
        "day 1 2",
        "customers 1 2",
        "start 1 2 3",
        "load 0 0 24 1 2",
        "load 0 0 1 1 2 3 4 5 6 7 8 9 10 11 12 13 14 15 16 17 18 19 20 21 22 23 24 25",
        "reading 0 0 24 1 2",
        "settle 11 1 5 0 0 0 0 0 0 1 1 1 1 1 1 1 1 1 1 1 1 1 1 1 1 1",
        "energy 9 1 1 1 1 1 1 1 1",
    ];
    check_all(&rt, rt.alloc(), &texts, "line 1: too many numbers")
}

#[test]
fn a_hundred_numbers(rt: HostRuntime) -> Result<(), Fail> {
    let ten = " 1 1 1 1 1 1 1 1 1 1";
    let mut text = String::from_str(rt.alloc(), "workday")?;
    for _ in 0..10 {
        text.push_str(ten)?;
    }
    check_told(&rt, rt.alloc(), text.as_str(), "line 1: no day named")?;
    text.push_str(" 1")?;
    check_told(&rt, rt.alloc(), text.as_str(), "line 1: too many numbers")
}

#[test]
fn not_a_number(rt: HostRuntime) -> Result<(), Fail> {
    let texts = [
        "day x",
        "day ",
        "day 1 ",
        "day  1",
        "day -1",
        "day +1",
        "day 1/",
        "day 1:",
        "day 5\r\n",
        "word x",
    ];
    check_all(&rt, rt.alloc(), &texts, "line 1: not a number")
}

#[test]
fn out_of_range(rt: HostRuntime) -> Result<(), Fail> {
    let texts = [
        "day 96",
        "customers 0",
        "customers 17",
        "workday 95 96",
        "start 96 1",
        "start 1 0",
        "start 1 25",
        "load 16 0 1 5",
        "load 0 96 1 5",
        "load 0 0 0 5",
        "load 0 0 25 5",
        "load 0 0 1 4294967296",
        "reading 0 0 25 5",
        "settle 11 0 5 0 0 0 0 0 0",
        "settle 11 5 5 0 0 0 0 0 0",
        "settle 11 1 5 0 0 2 0 0 0",
        "settle 11 1 5 0 0 0 2 0 0",
        "settle 11 1 5 0 0 0 0 0 0 1 2",
        "energy 0",
        "energy 150000001",
        "energy 5 3 3",
    ];
    check_all(&rt, rt.alloc(), &texts, "line 1: out of range")
}

// The edges on the good side: only the day is lacking.
#[test]
fn no_day(rt: HostRuntime) -> Result<(), Fail> {
    let texts = [
        "customers 1",
        "customers 16\n",
        "workday 0 95",
        "start 95 24",
        "load 15 95 24 4294967295",
        "load 0 0 1 1 2 3 4 5 6 7 8 9 10 11 12 13 14 15 16 17 18 19 20 21 22 23 24",
        "reading 15 95 0 1 2 3 4 5 6 7 8 9 10 11 12 13 14 15 16 17 18 19 20 21 22 23 24 25",
        "settle 11 4 5 0 0 1 1 0 0 1 1 1 1 1 1 1 1 1 1 1 1 1 1 1 1",
        "energy 150000000 1 1 1 1 1 1 1",
        "energy 5 2 3",
        "# day 5",
        "\n",
    ];
    check_all(&rt, rt.alloc(), &texts, "line 1: no day named")?;
    check_told(&rt, rt.alloc(), "", "line 0: no day named")?;
    check_told(&rt, rt.alloc(), "customers 2\n\n", "line 2: no day named")?;
    check_told(&rt, rt.alloc(), "customers 2\n\n#", "line 3: no day named")
}

#[test]
fn the_first_bad_line(rt: HostRuntime) -> Result<(), Fail> {
    check_told(
        &rt,
        rt.alloc(),
        "# day\n\nday 96\nday x",
        "line 3: out of range",
    )?;
    check_told(
        &rt,
        rt.alloc(),
        "day 1\nload 0 0 1 5\nreading 0 0 1 5",
        "line 3: loads and readings in one text",
    )?;
    check_told(
        &rt,
        rt.alloc(),
        "reading 0 0 1 5\nload 0 0 1",
        "line 2: loads and readings in one text",
    )?;
    check_told(
        &rt,
        rt.alloc(),
        "load 0 0 1 5\nload 0 0 1",
        "line 2: too few numbers",
    )
}
