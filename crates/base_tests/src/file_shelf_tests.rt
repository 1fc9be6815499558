//! Files of a folder of the system, and a reader that signals interrupt.
use edge_io::{FetchFault, FileShelf, Shelf, read_front};
use std::io::{ErrorKind, Read};
use std::test::Fail;
use std::{env, fs, io};

/// A name in the folder for files that don't stay.
fn name_of(rt: &HostRuntime, end: &str) -> Result<String, Fail> {
    let folder = env::temp_dir(rt)?;
    Ok(format!(in rt.alloc(); "{}/{end}", folder.display())?)
}

#[test]
fn files_are_fetched(rt: HostRuntime) -> Result<(), Fail> {
    let alloc = rt.alloc();
    let name = name_of(&rt, "edge_io_files_are_fetched")?;
    fs::write(&rt, name.as_str(), "six by")?;
    let mut shelf = FileShelf::new(alloc, &rt);
    for (most, front) in [(100, "six by"), (6, "six by"), (3, "six")] {
        assert!(rt; shelf.fetch(alloc, name.as_str(), most) == Ok(front.as_bytes().to_vec(alloc)?));
    }
    fs::remove_file(&rt, name.as_str())?;
    for name in [name.as_str(), "/", ""] {
        assert!(rt;
            shelf.fetch(alloc, name, 100) == Err(FetchFault::Failed),
            "{name}: no file"
        );
    }
    Ok(())
}

/// A file of many blocks comes whole, and just its front where it has more than the most.
#[test]
fn long_files_are_fetched_whole(rt: HostRuntime) -> Result<(), Fail> {
    let alloc = rt.alloc();
    let name = name_of(&rt, "edge_io_long_files")?;
    let mut text = vec![in alloc; b'a'; 100_000]?;
    text.push(b'z')?;
    fs::write(&rt, name.as_str(), text.as_slice())?;
    let mut shelf = FileShelf::new(alloc, &rt);
    let whole = shelf.fetch(alloc, name.as_str(), 100_002);
    let front = shelf.fetch(alloc, name.as_str(), 100_000);
    fs::remove_file(&rt, name.as_str())?;
    assert!(rt; whole == Ok(text.as_slice().to_vec(alloc)?));
    text.truncate(100_000);
    assert!(rt; front == Ok(text));
    Ok(())
}

/// A reader of two bytes, whose first reads are interrupted.
#[derive(Drop)]
struct Stutters {
    interrupted: u8,
    left: u8,
}

impl Read for Stutters {
    fn read(&mut self, buf: &mut [u8]) -> io::Result<usize> {
        if self.interrupted > 0 {
            self.interrupted -= 1;
            return Err(io::Error::from(ErrorKind::Interrupted));
        }
        if self.left == 0 || buf.is_empty() {
            return Ok(0);
        }
        self.left -= 1;
        buf[0] = b'x';
        Ok(1)
    }
}

#[test]
fn interrupted_reads_are_tried_again(rt: HostRuntime) -> Result<(), Fail> {
    let mut bytes = Vec::new(rt.alloc());
    let mut file = Stutters {
        interrupted: 3,
        left: 2,
    };
    assert!(rt; read_front(&mut file, 100, &mut bytes).is_ok());
    assert!(rt; bytes.as_slice() == b"xx".as_slice());
    Ok(())
}
