//! A real stream, one that takes nothing, and one that signals interrupt.
use edge_io::{Failed, OutSink, Sink, put_all};
use std::fs::OpenOptions;
use std::io;
use std::io::{BufWriter, ErrorKind, Write};
use std::test::Fail;

#[test]
fn streams_take_bytes(rt: HostRuntime) -> Result<(), Fail> {
    let mut out = OutSink::new(io::writer(&rt));
    assert!(rt; out.put(b"") == Ok(0));
    assert!(rt; put_all(&mut out, b"a line of a test\n") == Ok(()));
    let full = OpenOptions::new().write(true).open(&rt, "/dev/full")?;
    let mut full = OutSink::new(full);
    assert!(rt; full.put(b"") == Ok(0));
    assert!(rt; full.put(b"no room") == Err(Failed));
    assert!(rt; put_all(&mut full, b"no room") == Err(Failed));
    Ok(())
}

/// A stream that keeps bytes back takes the piece, and the flush finds that there is no room.
#[test]
fn pieces_are_flushed(rt: HostRuntime) -> Result<(), Fail> {
    let full = OpenOptions::new().write(true).open(&rt, "/dev/full")?;
    let mut full = OutSink::new(BufWriter::new(rt.alloc(), full)?);
    assert!(rt; full.put(b"no room") == Err(Failed));
    Ok(())
}

/// A stream whose first writes are interrupted, and which then counts what it takes.
#[derive(Drop)]
struct Stutters {
    interrupted: u8,
}

impl Write for Stutters {
    fn write(&mut self, buf: &[u8]) -> io::Result<usize> {
        if self.interrupted > 0 {
            self.interrupted -= 1;
            return Err(io::Error::from(ErrorKind::Interrupted));
        }
        Ok(buf.len())
    }

    fn flush(&mut self) -> io::Result<()> {
        Ok(())
    }
}

#[test]
fn interrupted_writes_are_tried_again(rt: HostRuntime) -> Result<(), Fail> {
    let mut out = OutSink::new(Stutters { interrupted: 3 });
    assert!(rt; out.put(b"whole") == Ok(5));
    Ok(())
}
