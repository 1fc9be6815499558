//! The reader of service files over tables of texts.
use line_file::{Call, ServiceFault, read_service};
use std::alloc::{AllocError, Global};
use std::test::Fail;

const HEADER: &[u8] = b"place,name,dwell,latest\n";

fn fault_of(alloc: Global, text: &[u8]) -> Option<ServiceFault> {
    read_service(alloc, text).err()
}

/// The fault of these rows below the header.
fn fault_of_rows(alloc: Global, rows: &[u8]) -> Result<Option<ServiceFault>, AllocError> {
    let mut text = HEADER.to_vec(alloc)?;
    text.extend_from_slice(rows)?;
    Ok(fault_of(alloc, text.as_slice()))
}

#[test]
fn services_are_read(rt: HostRuntime) -> Result<(), Fail> {
    let alloc = rt.alloc();
    let text =
        b"place,name,dwell,latest\r\n0,\"Alder\",,\r\n12000,\"Birch, north\", 60 ,\r\n\r\n27000,\"Cedar \"\"Halt\"\"\",,1800\r\n40000,\xFF\xFE,0,2400";
    let service = read_service(alloc, text).ok().ok_or("refused")?;
    let calls = [
        Call {
            place: 0,
            dwell: None,
            latest: None,
        },
        Call {
            place: 12_000,
            dwell: Some(60),
            latest: None,
        },
        Call {
            place: 27_000,
            dwell: None,
            latest: Some(1_800),
        },
        Call {
            place: 40_000,
            dwell: Some(0),
            latest: Some(2_400),
        },
    ];
    assert!(rt; service.calls.items() == calls.as_slice());
    let again = service.copy(alloc)?;
    assert!(rt; again.calls.items() == calls.as_slice());
    Ok(())
}

#[test]
fn texts_are_refused(rt: HostRuntime) -> Result<(), Fail> {
    let headers: [&[u8]; 3] = [b"", b"place,name,dwell\n", b"place,Name,dwell,latest\n"];
    for text in headers {
        assert!(rt; fault_of(rt.alloc(), text) == Some(ServiceFault::BadHeader));
    }
    const CASES: &[(&[u8], ServiceFault)] = &[
        (b"0,A,,,\n", ServiceFault::BadRow(1)),
        (b"0,A,,\n\n200,B\n", ServiceFault::BadRow(2)),
        (b",A,,\n", ServiceFault::BadNumber(1)),
        (b"0,A,x,\n", ServiceFault::BadNumber(1)),
        (b"0,A,,1e3\n", ServiceFault::BadNumber(1)),
        (b"1000001,A,,\n", ServiceFault::OutOfRange(1)),
        (b"-1,A,,\n", ServiceFault::OutOfRange(1)),
        (b"0,A,7201,\n", ServiceFault::OutOfRange(1)),
        (b"0,A,-1,\n", ServiceFault::OutOfRange(1)),
        (b"0,A,,172801\n", ServiceFault::OutOfRange(1)),
        (b"0,A,,\n0,B,,50\n", ServiceFault::NotRising(2)),
        (b"9,A,,\n8,B,,\n", ServiceFault::NotRising(2)),
        (b"", ServiceFault::TooFew),
        (b"0,A,7200,172800\n", ServiceFault::TooFew),
        (b"0,A,,\n200,B,,\n", ServiceFault::NoFinalLatest),
        (
            b"0,A,,\n200,B,,50\n300,C,10, \n",
            ServiceFault::NoFinalLatest,
        ),
    ];
    for &(rows, fault) in CASES {
        assert!(rt; fault_of_rows(rt.alloc(), rows)? == Some(fault));
    }
    Ok(())
}

/// A service of so many rows with a latest time each.
fn rows_of(alloc: Global, count: u32) -> Result<Vec<u8>, AllocError> {
    let mut text = HEADER.to_vec(alloc)?;
    for place in 0..count {
        let row = format!(in alloc; "{place},S,,{place}\n")?;
        text.extend_from_slice(row.as_bytes())?;
    }
    Ok(text)
}

#[test]
fn too_many_are_refused(rt: HostRuntime) -> Result<(), Fail> {
    let alloc = rt.alloc();
    const CASES: &[(u32, Option<ServiceFault>)] = &[
        (2, None),
        (65, None),
        (66, Some(ServiceFault::TooManyLatest)),
        (1_000, Some(ServiceFault::TooManyLatest)),
        (1_001, Some(ServiceFault::TooManyRows)),
    ];
    for &(count, fault) in CASES {
        let text = rows_of(alloc, count)?;
        assert!(rt;
            fault_of(alloc, text.as_slice()) == fault,
            "of {count} rows"
        );
    }
    Ok(())
}
