//! The reader of line files over tables of texts.
use line_file::{LineFault, Section, read_line};
use std::alloc::{AllocError, Global};
use std::test::Fail;

const HEADER: &[u8] = b"kind,from,to,value\n";

fn fault_of(alloc: Global, text: &[u8]) -> Option<LineFault> {
    read_line(alloc, text).err()
}

/// The fault of these rows below the header.
fn fault_of_rows(alloc: Global, rows: &[u8]) -> Result<Option<LineFault>, AllocError> {
    let mut text = HEADER.to_vec(alloc)?;
    text.extend_from_slice(rows)?;
    Ok(fault_of(alloc, text.as_slice()))
}

#[test]
fn lines_are_read(rt: HostRuntime) -> Result<(), Fail> {
    let alloc = rt.alloc();
    const TEXTS: &[&[u8]] = &[
        b"kind,from,to,value\nlimit,0,200,36\ngradient,0,200,0\n",
        b"\xEF\xBB\xBFkind,from,to,value\n\n \nlimit,0,200,36\n\"\"\ngradient,0,200,0",
        b"\"kind\",\"from\",\"to\",\"value\"\r\nlimit,0,200,36\r\n\r\ngradient,0,200,0\r\n",
        b"kind , from,to, value \n gradient ,-0,+0200, 0\n\"limit\", 000 ,200,036\n",
    ];
    for text in TEXTS {
        match read_line(alloc, text) {
            Ok(line) => {
                let limit = Section {
                    from: 0,
                    to: 200,
                    value: 1_000,
                };
                let gradient = Section {
                    from: 0,
                    to: 200,
                    value: 0,
                };
                assert!(rt; line.limits.items() == [limit].as_slice());
                assert!(rt; line.gradients.items() == [gradient].as_slice());
                let again = line.copy(alloc)?;
                assert!(rt; again.limits.items() == line.limits.items());
                assert!(rt; again.gradients.items() == line.gradients.items());
            }
            Err(fault) => assert!(rt; Some(fault) == None),
        }
    }
    Ok(())
}

#[test]
fn headers_are_refused(rt: HostRuntime) {
    const TEXTS: &[&[u8]] = &[
        b"",
        b"\n \n",
        b"limit,0,200,36\n",
        b"kind,from,to\n",
        b"kind,from,to,value,\n",
        b"Kind,from,to,value\n",
        b"kind;from;to;value\n",
    ];
    for text in TEXTS {
        assert!(rt; fault_of(rt.alloc(), text) == Some(LineFault::BadHeader));
    }
}

#[test]
fn rows_are_refused(rt: HostRuntime) -> Result<(), Fail> {
    const CASES: &[(&[u8], LineFault)] = &[
        (b"", LineFault::NoSections),
        (b"\nlimit,0,200\n", LineFault::BadRow(1)),
        (b"limit,0,200,36,\n", LineFault::BadRow(1)),
        (b"limit,0,200,36\n\n,\n", LineFault::BadRow(2)),
        (b"speed,0,200,36\n", LineFault::BadKind(1)),
        (b"speed,a,b,c\n", LineFault::BadKind(1)),
        (b"limit,0,200,36.5\n", LineFault::BadNumber(1)),
        (b"limit,0,,36\n", LineFault::BadNumber(1)),
        (
            b"limit,0,200,1000000000000000000\n",
            LineFault::BadNumber(1),
        ),
        (b"limit,200,0,x\n", LineFault::BadNumber(1)),
        (b"limit,0,200,433\n", LineFault::OutOfRange(1)),
        (b"limit,0,200,0\n", LineFault::OutOfRange(1)),
        (b"limit,0,1000001,36\n", LineFault::OutOfRange(1)),
        (b"limit,-1,200,36\n", LineFault::OutOfRange(1)),
        (b"limit,200,200,36\n", LineFault::OutOfRange(1)),
        (b"gradient,0,200,1001\n", LineFault::OutOfRange(1)),
        (b"gradient,0,200,-1001\n", LineFault::OutOfRange(1)),
        (b"limit,0,100,36\nlimit,101,200,36\n", LineFault::Gap(2)),
        (
            b"limit,0,100,36\ngradient,0,200,0\nlimit,99,200,36\n",
            LineFault::Gap(3),
        ),
        (b"limit,0,200,36\n", LineFault::NoSections),
        (b"limit,0,200,36\ngradient,0,201,0\n", LineFault::EndsDiffer),
        (b"limit,1,200,36\ngradient,0,200,0\n", LineFault::EndsDiffer),
    ];
    for &(rows, fault) in CASES {
        assert!(rt; fault_of_rows(rt.alloc(), rows)? == Some(fault));
    }
    Ok(())
}

#[test]
fn cut_lines_are_refused(rt: HostRuntime) {
    let text = b"kind,from,to,value\nlimit,0,200,36\ngradient,0,200,0\n";
    let cases = [
        (0, Some(LineFault::BadHeader)),
        (18, Some(LineFault::NoSections)),
        (19, Some(LineFault::NoSections)),
        (30, Some(LineFault::BadRow(1))),
        (31, Some(LineFault::BadNumber(1))),
        (32, Some(LineFault::NoSections)),
        (49, Some(LineFault::BadNumber(2))),
        (50, None),
    ];
    for (most, fault) in cases {
        assert!(rt;
            fault_of(rt.alloc(), &text[..most]) == fault,
            "cut at {most}"
        );
    }
}

#[test]
fn limits_are_rounded_down(rt: HostRuntime) -> Result<(), Fail> {
    let text =
        b"kind,from,to,value\ngradient,0,5,-1000\nlimit,0,1,36\nlimit,1,2,60\nlimit,2,3,100\nlimit,3,4,432\nlimit,4,5,1\n";
    let line = read_line(rt.alloc(), text).ok().ok_or("refused")?;
    let values: [i32; 5] = [1_000, 1_666, 2_777, 12_000, 27];
    for (section, value) in line.limits.items().iter().zip(values.as_slice()) {
        assert!(rt; section.value == *value);
    }
    assert!(rt; line.gradients.items().len() == 1);
    Ok(())
}

#[test]
fn quoted_headers_and_crlf_are_read(rt: HostRuntime) -> Result<(), Fail> {
    let text =
        b"\"kind\",\"from\",\"to\",\"value\"\r\nlimit,0,2000,60\r\nlimit,2000,38000,100\r\nlimit,38000,40000,60\r\ngradient,0,15000,30\r\ngradient,15000,25000,-40\r\ngradient,25000,40000,0\r\n";
    let line = read_line(rt.alloc(), text).ok().ok_or("refused")?;
    let limits = [
        (0, 2_000, 1_666),
        (2_000, 38_000, 2_777),
        (38_000, 40_000, 1_666),
    ];
    let gradients = [(0, 15_000, 30), (15_000, 25_000, -40), (25_000, 40_000, 0)];
    let kinds = [
        (line.limits.items(), limits),
        (line.gradients.items(), gradients),
    ];
    for (sections, numbers) in kinds {
        assert!(rt; sections.len() == 3);
        for (section, (from, to, value)) in sections.iter().zip(numbers) {
            assert!(rt; *section == Section { from, to, value });
        }
    }
    Ok(())
}

#[test]
fn one_row_too_many_is_refused(rt: HostRuntime) -> Result<(), Fail> {
    let alloc = rt.alloc();
    let mut text = HEADER.to_vec(alloc)?;
    text.extend_from_slice(b"gradient,0,19999,0\n")?;
    for from in 0..19_999u32 {
        let row = format!(in alloc; "limit,{from},{},60\n", from + 1)?;
        text.extend_from_slice(row.as_bytes())?;
    }
    assert!(rt; fault_of(alloc, text.as_slice()) == None);
    text.extend_from_slice(b"speed,,,\n")?;
    assert!(rt; fault_of(alloc, text.as_slice()) == Some(LineFault::TooManyRows));
    text.truncate(text.len() - 1);
    text.extend_from_slice(b",\n")?;
    assert!(rt; fault_of(alloc, text.as_slice()) == Some(LineFault::BadRow(20_001)));
    Ok(())
}
