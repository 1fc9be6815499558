//! Files of the system.

ghost use Rattle.std.specs.Prelude.{◌≡◌, ◌≢◌, ◌≤◌, ◌<◌, ◌++◌, ℕ, List, None, IfOk, IfSome, OnOk, length, take, vec_len};
ghost use Rattle.std.specs.Io.{ReadsAtMost};
ghost use Rattle.std.specs.Io.KnownBytes.{Consumes, IsAtEnd};
ghost use Rattle.edge_io.specs.Faults.{Fetches, Rose};
ghost use Rattle.edge_io.specs.Counts.{count_in, raised};

use crate::counts::Counts;
use crate::shelf::{FetchFault, Shelf};
use std::alloc::Global;
use std::io::{ErrorKind, Read};
use std::marker::Model;
use std::rt::Files;
use std::{fs, io};

/// How many bytes are read at once.
const BLOCK: usize = 16_384;

/// The files of the system, of which nothing is told. Contracts see it as its counts of faults by name.
#[derive(Drop)]
pub struct FileShelf<'a, R: Files> {
    files: &'a R,
    counts: Counts,
}

impl<'a, R: Files> Model for FileShelf<'a, R> {
    ghost use Rattle.std.specs.Prelude.{ℕ, List};

    ghost Value = { List (List ℕ × ℕ) };

    ghost view = { λ s. s.counts };
}

impl<'a, R: Files> FileShelf<'a, R> {
    /// The files that the runtime reaches. No name has had a fault.
    pub fn new(alloc: Global, files: &'a R) -> FileShelf<'a, R>
        ensures { (n : List ℕ) → count_in result n ≡ 0 }
    {
        FileShelf {
            files,
            counts: Counts::new(alloc),
        }
    }
}

/// One read, tried again where a signal interrupts it.
fn read_again<F: Read>(file: &mut F, block: &mut [u8]) -> io::Result<usize>
    ensures bound { ReadsAtMost result block.new }
    ensures room { length block.new ≡ length block.old }
    ensures taken { IfOk result (λ n. Consumes (F.remaining file.old) (F.remaining file.new) (take n block.new)) }
    ensures end { IfOk result (λ n. n ≡ 0 → 0 < length block.old → IsAtEnd (F.remaining file.new)) }
{
    for _ in 0..u64::MAX {
        match file.read(block) {
            Ok(count) => return Ok(count),
            Err(error) if error.kind() == ErrorKind::Interrupted => {}
            Err(error) => return Err(error),
        }
    }
    Err(io::Error::from(ErrorKind::Interrupted))
}

/// Appends what a reader gives, up to `most` bytes in all, and all of it where there is less. Each turn takes at least one byte or is
/// the end. Reads that are interrupted are tried again.
pub fn read_front<F: Read>(file: &mut F, most: usize, bytes: &mut Vec<u8>) -> io::Result<()>
    requires { vec_len bytes.old ≤ most }
    ensures short { vec_len bytes.new ≤ most }
    ensures front { OnOk result (IfSome (F.remaining file.old) (λ left. bytes.new.items ≡ take most (bytes.old.items ++ left))) }
{
    let mut block = [0u8; BLOCK];
    while bytes.len() < most {
        let wanted = BLOCK.min(most - bytes.len());
        let count = read_again(file, &mut block[..wanted])?;
        if count == 0 {
            break;
        }
        bytes.extend_from_slice(&block[..count])?;
    }
    Ok(())
}

/// The first `most` bytes of a file, all of them where there are fewer.
fn read_file<R: Files>(alloc: Global, files: &R, name: &str, most: usize) -> io::Result<Vec<u8>>
    ensures { IfOk result (λ v. vec_len v ≤ most) }
{
    let mut file = fs::open(files, name)?;
    let mut bytes = Vec::new(alloc);
    read_front(&mut file, most, &mut bytes)?;
    Ok(bytes)
}

impl<'a, R: Files> Shelf for FileShelf<'a, R> {
    ghost contents = { λ _ _. None };

    ghost faults = { λ s name. count_in s name };

    /// A missing file, a folder in the place of a file, and each error of the system but want of memory are `Failed`.
    /// The room for the name's count is made before all else, and where there is none nothing changes.
    fn fetch(&mut self, alloc: Global, name: &str, most: usize) -> Result<Vec<u8>, FetchFault>
        ensures bytes { IfOk result (λ v. Fetches None most v.items) }
        ensures short { IfOk result (λ v. vec_len v ≤ most) }
        ensures raised { result ≡ Err FetchFault.Failed → count_in self.new name.now ≡ raised (count_in self.old name.now) }
        ensures not_raised { result ≢ Err FetchFault.Failed → (n : List ℕ) → count_in self.new n ≡ count_in self.old n }
        ensures later { (n : List ℕ) → count_in self.old n ≤ count_in self.new n }
        ensures others { (n : List ℕ) → n ≢ name.now → count_in self.new n ≡ count_in self.old n }
        ensures cause { result ≡ Err FetchFault.Failed → Rose (count_in self.old name.now) (count_in self.new name.now) }
    {
        if self.counts.make_room(alloc, name).is_err() {
            return Err(FetchFault::NoMemory);
        }
        match read_file(alloc, self.files, name, most) {
            Ok(bytes) => Ok(bytes),
            Err(error) if error.kind() == ErrorKind::OutOfMemory => Err(FetchFault::NoMemory),
            Err(_) => {
                self.counts.raise(name);
                Err(FetchFault::Failed)
            }
        }
    }
}
