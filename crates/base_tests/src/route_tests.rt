//! The reader of routes over tables of texts.

ghost use Rattle.std.specs.Prelude.{◌≡◌, ◌<◌};

use rail_base::put_number;
use route_file::{RouteFault, read_parts};
use rule_parts::Parts;
use std::alloc::{AllocError, Global};
use std::marker::Brand;
use std::sync::ledger::{Blank, Ledger};
use std::test::Fail;
use step_energy::Steps;

/// The example route, line by line, without the ends of the lines.
const LINES: [&[u8]; 9] = [
    b"route 1",
    b"train 1000 1000 1000 0 0",
    b"top 1000",
    b"traction 51000",
    b"brake 100000",
    b"latest 50",
    b"step 100 0 1000",
    b"step 100 0 1000",
    b"end",
];

/// Reads a route with a counter of its own.
fn read_with<L: Ledger>(alloc: Global, text: &[u8], blank: Blank) -> Result<Parts, RouteFault>
    requires name { blank.name ≡ L.name }
    requires parts { blank.parts ≡ L.parts }
    requires some { 0 < L.parts }
{
    let mut steps = Steps::<L>::new(blank);
    read_parts(alloc, text, &mut steps)
}

fn read(alloc: Global, text: &[u8]) -> Result<Parts, RouteFault> {
    read_with::<Brand>(alloc, text, Blank::new(1))
}

/// The refusal of a text, if it has one.
fn refusal(alloc: Global, text: &[u8]) -> Option<RouteFault> {
    match read(alloc, text) {
        Ok(_) => None,
        Err(fault) => Some(fault),
    }
}

/// The example with another text in the place of line n, counted from 1, and its end.
fn changed(alloc: Global, n: usize, new: &[u8]) -> Result<Vec<u8>, AllocError> {
    let mut text = Vec::new(alloc);
    for (i, line) in LINES.iter().enumerate() {
        if i.wrapping_add(1) == n {
            text.extend_from_slice(new)?;
        } else {
            text.extend_from_slice(line)?;
            text.push(b'\n')?;
        }
    }
    Ok(text)
}

/// The refusal of the example with a text before line n, and another in the place of the line's end.
fn refusal_within(
    alloc: Global,
    n: usize,
    line: &[u8],
    before: &[u8],
    behind: &[u8],
) -> Result<Option<RouteFault>, AllocError> {
    let mut new = Vec::new(alloc);
    new.extend_from_slice(before)?;
    new.extend_from_slice(line)?;
    new.extend_from_slice(behind)?;
    let text = changed(alloc, n, &new)?;
    Ok(refusal(alloc, &text))
}

/// The refusal of the example with a number between two texts in the place of line n.
fn refusal_of_number(
    alloc: Global,
    n: usize,
    before: &[u8],
    number: i32,
    behind: &[u8],
) -> Result<Option<RouteFault>, AllocError> {
    let mut new = Vec::new(alloc);
    new.extend_from_slice(before)?;
    put_number(alloc, &mut new, i128::from(number))?;
    new.extend_from_slice(behind)?;
    new.push(b'\n')?;
    let text = changed(alloc, n, &new)?;
    Ok(refusal(alloc, &text))
}

/// The example with this many steps, and what ends it.
fn lengthened(alloc: Global, count: usize, end: &[u8]) -> Result<Vec<u8>, AllocError> {
    let mut text = Vec::new(alloc);
    for i in 0..6 {
        text.extend_from_slice(LINES[i])?;
        text.push(b'\n')?;
    }
    for _ in 0..count {
        text.extend_from_slice(LINES[6])?;
        text.push(b'\n')?;
    }
    text.extend_from_slice(end)?;
    Ok(text)
}

#[test]
fn each_line_has_one_form(rt: HostRuntime) -> Result<(), Fail> {
    let alloc = rt.alloc();
    const AROUND: &[(&[u8], &[u8])] = &[
        (b"", b" \n"),
        (b" ", b"\n"),
        (b"", b"\t\n"),
        (b"\n", b"\n"),
        (b"", b"\r\r\n"),
        (b"\xEF\xBB\xBF", b"\n"),
    ];
    let mut n = 0u32;
    for line in LINES {
        n = n.wrapping_add(1);
        let place = n as usize;
        for &(before, behind) in AROUND {
            assert!(rt;
                refusal_within(alloc, place, line, before, behind)? == Some(RouteFault::Form(n)),
                "{n}"
            );
        }
        assert!(rt;
            refusal_within(alloc, place, line, b"", b"\r\n")? == None,
            "{n}"
        );
    }
    Ok(())
}

#[test]
fn lines_are_missed_and_doubled(rt: HostRuntime) -> Result<(), Fail> {
    let alloc = rt.alloc();
    const MISSED: &[RouteFault] = &[
        RouteFault::Form(1),
        RouteFault::Form(2),
        RouteFault::Form(3),
        RouteFault::Form(4),
        RouteFault::Form(5),
        RouteFault::Form(6),
        RouteFault::Range(8),
        RouteFault::Range(8),
        RouteFault::Form(9),
    ];
    for (i, fault) in MISSED.iter().enumerate() {
        let text = changed(alloc, i.wrapping_add(1), b"")?;
        assert!(rt; refusal(alloc, &text) == Some(*fault), "{i}");
    }
    const DOUBLED: &[Option<RouteFault>] = &[
        Some(RouteFault::Form(2)),
        Some(RouteFault::Form(3)),
        Some(RouteFault::Form(4)),
        Some(RouteFault::Form(5)),
        Some(RouteFault::Form(6)),
        Some(RouteFault::Form(7)),
        None,
        None,
        Some(RouteFault::Form(10)),
    ];
    for (i, fault) in DOUBLED.iter().enumerate() {
        let mut new = Vec::new(alloc);
        new.extend_from_slice(LINES[i])?;
        new.push(b'\n')?;
        new.extend_from_slice(LINES[i])?;
        new.push(b'\n')?;
        let text = changed(alloc, i.wrapping_add(1), &new)?;
        assert!(rt; refusal(alloc, &text) == *fault, "{i}");
    }
    Ok(())
}

#[test]
fn numbers_have_one_form(rt: HostRuntime) -> Result<(), Fail> {
    let alloc = rt.alloc();
    const OTHERS: &[&[u8]] = &[
        b"",
        b"-",
        b"+1000",
        b"--1",
        b"1e3",
        b"1.0",
        b"0x10",
        b"1_0",
        b" 1",
        b"1 0",
        b"\xFF\x00",
        b"0000000000000001000",
    ];
    for field in OTHERS {
        assert!(rt; refusal_within(alloc, 3, field, b"top ", b"\n")? == Some(RouteFault::Form(3)));
    }
    const NUMBERS: &[(&[u8], Option<RouteFault>)] = &[
        (b"0000001000", None),
        (b"000000000000001000", None),
        (b"-0", Some(RouteFault::Range(3))),
        (b"999999999999999999", Some(RouteFault::Range(3))),
        (b"-999999999999999999", Some(RouteFault::Range(3))),
    ];
    for &(field, fault) in NUMBERS {
        assert!(rt; refusal_within(alloc, 3, field, b"top ", b"\n")? == fault);
    }
    assert!(rt; refusal_within(alloc, 6, b"-0", b"latest ", b"\n")? == None);
    Ok(())
}

#[test]
fn numbers_have_ranges(rt: HostRuntime) -> Result<(), Fail> {
    let alloc = rt.alloc();
    const RANGES: &[(u32, &[u8], i32, i32, &[u8])] = &[
        (2, b"train ", 1, 100_000, b" 1000 1000 0 0"),
        (2, b"train 1000 ", 1, 120_000, b" 1000 0 0"),
        (2, b"train 1000 1000 ", 0, 10_000_000, b" 0 0"),
        (2, b"train 1000 1000 0 ", 0, 10_000_000, b" 0"),
        (2, b"train 1000 120000 0 0 ", 0, 10_000_000, b""),
        (3, b"top ", 1, 12_000, b""),
        (4, b"traction ", 0, 2_000_000, b""),
        (5, b"brake ", 0, 2_000_000, b""),
        (6, b"latest ", 0, 172_800, b""),
        (7, b"step ", 1, 1000, b" 0 1000"),
        (7, b"step 100 ", -1000, 1000, b" 1000"),
        (8, b"step 100 0 ", 1, 12_000, b""),
    ];
    for &(n, before, low, high, behind) in RANGES {
        let place = n as usize;
        let out = Some(RouteFault::Range(n));
        assert!(rt;
            refusal_of_number(alloc, place, before, low.wrapping_sub(1), behind)? == out,
            "{n}"
        );
        assert!(rt;
            refusal_of_number(alloc, place, before, low, behind)? == None,
            "{n}"
        );
        assert!(rt;
            refusal_of_number(alloc, place, before, high, behind)? == None,
            "{n}"
        );
        assert!(rt;
            refusal_of_number(alloc, place, before, high.wrapping_add(1), behind)? == out,
            "{n}"
        );
    }
    Ok(())
}

#[test]
fn other_lines_are_refused(rt: HostRuntime) -> Result<(), Fail> {
    let alloc = rt.alloc();
    const TABLE: &[(usize, &[u8], Option<RouteFault>)] = &[
        (1, b"route 2\n", Some(RouteFault::Form(1))),
        (1, b"route 01\n", Some(RouteFault::Form(1))),
        (2, b"train 1000 1000 1000 0\n", Some(RouteFault::Form(2))),
        (
            2,
            b"train 1000 1000 1000 0 0 0\n",
            Some(RouteFault::Form(2)),
        ),
        (2, b"train 0 x 0 0 0\n", Some(RouteFault::Form(2))),
        (2, b"train  1000 1000 1000 0 0\n", Some(RouteFault::Form(2))),
        (2, b"train 1000 1 0 0 100\n", Some(RouteFault::Range(7))),
        (2, b"train 1000 1 0 0 99\n", None),
        (7, b"step 100 0 0\n", Some(RouteFault::Range(7))),
        (7, b"step 100 0\n", Some(RouteFault::Form(7))),
        (8, b"step 0 0 0 0\n", Some(RouteFault::Form(8))),
        (8, b"step\t100 0 1000\n", Some(RouteFault::Form(8))),
        (7, b"end\n", Some(RouteFault::Range(7))),
        (8, b"end\n", Some(RouteFault::Range(8))),
        (7, b"stop\n", Some(RouteFault::Form(7))),
        (9, b"END\n", Some(RouteFault::Form(9))),
        (9, b"end\r", Some(RouteFault::Form(9))),
        (9, b"end", None),
        (9, b"end\n\n", Some(RouteFault::Form(10))),
        (9, b"end\nx", Some(RouteFault::Form(10))),
    ];
    for &(n, new, fault) in TABLE {
        let text = changed(alloc, n, new)?;
        assert!(rt; refusal(alloc, &text) == fault, "{n}");
    }
    Ok(())
}

#[test]
fn counts_of_lines_matter(rt: HostRuntime) -> Result<(), Fail> {
    let alloc = rt.alloc();
    const TABLE: &[(usize, &[u8], Option<RouteFault>)] = &[
        (0, b"end\n", Some(RouteFault::Range(7))),
        (1, b"end\n", Some(RouteFault::Range(8))),
        (3, b"end", None),
        (4000, b"end\n", None),
        (4000, b"", Some(RouteFault::Form(4007))),
        (4000, b"step", Some(RouteFault::Form(4007))),
        (4000, b"step x", Some(RouteFault::TooManySteps)),
        (4001, b"end\n", Some(RouteFault::TooManySteps)),
        (4001, b"", Some(RouteFault::TooManySteps)),
    ];
    for &(count, end, fault) in TABLE {
        let text = lengthened(alloc, count, end)?;
        assert!(rt; refusal(alloc, &text) == fault, "{count}");
    }
    const SHORT: &[(&[u8], u32)] = &[
        (b"", 1),
        (b"\n", 1),
        (b"route 1", 2),
        (b"route 1\r", 1),
        (b"route 1\r\n", 2),
    ];
    for &(text, n) in SHORT {
        assert!(rt; refusal(alloc, text) == Some(RouteFault::Form(n)), "{n}");
    }
    Ok(())
}

#[test]
fn parts_are_those_of_the_text(rt: HostRuntime) -> Result<(), Fail> {
    let text = lengthened(rt.alloc(), 2, b"step 300 -20 900\nend")?;
    let parts = read(rt.alloc(), &text)?;
    assert!(rt; (parts.start, parts.top) == (0, 1000));
    assert!(rt; parts.places.as_slice() == [0, 100, 200, 500].as_slice());
    assert!(rt; parts.limits.as_slice() == [1000, 1000, 900].as_slice());
    assert!(rt; parts.stops.as_slice() == [false, false, false, true].as_slice());
    assert!(rt; parts.dwells.as_slice() == [0, 0, 0, 0].as_slice());
    assert!(rt; parts.rows.len() == 3);
    assert!(rt; parts.rows[0].work(0, 800) == 6_600_000_000_000);
    assert!(rt; parts.timings.len() == 1);
    assert!(rt; parts.timings[0].point == 3);
    assert!(rt; parts.timings[0].latest == 50_000);
    Ok(())
}
