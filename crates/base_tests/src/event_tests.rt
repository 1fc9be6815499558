//! The reader of events over texts.

use event_file::{Event, EventFault, read_events};
use std::alloc::{AllocError, Global};

/// Whether an event is the one that stands at this place of the example.
fn is_example(i: usize, event: &Event) -> bool {
    match (i, event) {
        (
            0,
            Event::At {
                place,
                speed,
                clock,
            },
        ) => *place == 50 && *speed == 900 && *clock == 10,
        (
            1,
            Event::Restrict {
                name,
                from,
                to,
                limit,
            },
        ) => name.text() == "work-site-1" && *from == 0 && *to == 200 && *limit == 800,
        (2, Event::Lift { name }) => name.text() == "work-site-1",
        (3, Event::Latest { place, seconds }) => *place == 200 && *seconds == 60,
        (4, Event::Advise) => true,
        _ => false,
    }
}

#[test]
fn one_event_of_each_kind(rt: HostRuntime) {
    let text: &[u8] =
        b"at 50 900 010\nrestrict work-site-1 0 200 800\r\nlift work-site-1\nlatest 200 60\nadvise\nend";
    let events = read_events(rt.alloc(), text).expect(&rt, "events");
    assert!(rt; events.len() == 5);
    for (i, event) in events.iter().enumerate() {
        assert!(rt; is_example(i, event));
    }
}

/// The refusal of a text, if it has one.
fn refusal(alloc: Global, text: &[u8]) -> Option<EventFault> {
    match read_events(alloc, text) {
        Ok(_) => None,
        Err(fault) => Some(fault),
    }
}

#[test]
fn refused_lines(rt: HostRuntime) {
    const TEXTS: &[(&[u8], u32)] = &[
        (b"stop now\nend\n", 1),
        (b"", 1),
        (b"advise\n", 2),
        (b"end\n\n", 2),
        (b"advise \nend\n", 1),
        (b"at 1 2\nend\n", 1),
        (b"latest 1 1000000000\nend\n", 1),
        (b"lift Works\nend\n", 1),
    ];
    for &(text, line) in TEXTS {
        assert!(rt; refusal(rt.alloc(), text) == Some(EventFault::Form(line)));
    }
}

/// So many lines of this text, and the end.
fn repeated(alloc: Global, count: usize, line: &[u8]) -> Result<Vec<u8>, AllocError> {
    let mut text = Vec::new(alloc);
    for _ in 0..count {
        text.extend_from_slice(line)?;
    }
    text.extend_from_slice(b"end\n")?;
    Ok(text)
}

#[test]
fn too_many(rt: HostRuntime) -> Result<(), AllocError> {
    const CASES: &[(usize, &[u8], Option<EventFault>)] = &[
        (1000, b"lift a\n", None),
        (1001, b"lift a\n", Some(EventFault::TooManyEvents(1001))),
        (64, b"advise\n", None),
        (65, b"advise\n", Some(EventFault::TooManyAdvises(65))),
    ];
    for &(count, line, fault) in CASES {
        let text = repeated(rt.alloc(), count, line)?;
        assert!(rt; refusal(rt.alloc(), text.as_slice()) == fault);
    }
    Ok(())
}
