//! Files that are there or not, and calls that fail.
use edge_io::{FetchFault, MemoryShelf, Shelf};
use std::alloc::{AllocError, Global};
use std::test::Fail;

/// A file with this name and these bytes.
fn file(alloc: Global, name: &str, bytes: &[u8]) -> Result<(String, Vec<u8>), AllocError> {
    Ok((String::from_str(alloc, name)?, bytes.to_vec(alloc)?))
}

/// A shelf with two files of one name and another file.
fn shelf_of(alloc: Global, fails: &[u32]) -> Result<MemoryShelf, AllocError> {
    let mut files = Vec::new(alloc);
    files.push(file(alloc, "a", b"first")?)?;
    files.push(file(alloc, "a", b"second")?)?;
    files.push(file(alloc, "b", b"other")?)?;
    Ok(MemoryShelf::new(alloc, files, fails.to_vec(alloc)?))
}

/// Fetches through the trait.
fn fetch<S: Shelf>(alloc: Global, shelf: &mut S, name: &str) -> Result<Vec<u8>, FetchFault> {
    shelf.fetch(alloc, name, 4)
}

#[test]
fn files_are_fetched(rt: HostRuntime) -> Result<(), Fail> {
    let alloc = rt.alloc();
    let mut shelf = shelf_of(alloc, &[2, 4])?;
    let calls = [
        ("a", Ok("firs")),
        ("a", Err(FetchFault::Failed)),
        ("b", Ok("othe")),
        ("b", Err(FetchFault::Failed)),
        ("c", Err(FetchFault::Failed)),
        ("b", Ok("othe")),
    ];
    for (name, answer) in calls {
        match (fetch(alloc, &mut shelf, name), answer) {
            (Ok(bytes), Ok(text)) => assert!(rt; bytes.as_slice() == text.as_bytes()),
            (bytes, text) => assert!(rt; bytes.err() == text.err()),
        }
    }
    assert!(rt; shelf.fetch(alloc, "a", 100) == Ok(b"first".to_vec(alloc)?));
    assert!(rt; shelf.fetch(alloc, "a", 0) == Ok(Vec::new(alloc)));
    Ok(())
}
