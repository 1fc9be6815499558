//! Texts put in pieces, and calls that fail.
use edge_io::{Failed, MemorySink, Sink, put_all};
use std::test::Fail;

#[test]
fn pieces_are_put(rt: HostRuntime) -> Result<(), Fail> {
    let alloc = rt.alloc();
    let mut sink = MemorySink::new(alloc, 4, 10, [3].to_vec(alloc)?)?;
    assert!(rt; sink.put(b"") == Ok(0));
    assert!(rt; sink.put(b"abcdef") == Ok(4));
    assert!(rt; sink.put(b"ef") == Ok(2));
    assert!(rt; sink.put(b"g") == Err(Failed));
    assert!(rt; put_all(&mut sink, b"ghijklm") == Err(Failed));
    assert!(rt; sink.bytes() == b"abcdefghij".as_slice());
    assert!(rt; sink.put(b"") == Ok(0));
    Ok(())
}

#[test]
fn whole_texts_are_put(rt: HostRuntime) -> Result<(), Fail> {
    let alloc = rt.alloc();
    let mut sink = MemorySink::new(alloc, 10, 100, [2].to_vec(alloc)?)?;
    assert!(rt; put_all(&mut sink, b"advice 1\ngap open\n") == Err(Failed));
    assert!(rt; sink.bytes() == b"advice 1\ng".as_slice());
    assert!(rt; put_all(&mut sink, b"ap open\n") == Ok(()));
    assert!(rt; sink.bytes() == b"advice 1\ngap open\n".as_slice());
    Ok(())
}
