//! Files in memory.

ghost use Rattle.std.specs.Prelude.{◌≡◌, ◌≢◌, ◌≤◌, ◌⊎◌, ℕ, List, IfOk, IsTrue, Some, None, option_map, take};
ghost use Rattle.edge_io.specs.Faults.{Fetches, Rose};
ghost use Rattle.edge_io.specs.Counts.{count_in, has_name, raised};
ghost use Rattle.edge_io.specs.Memory.{counted, file_of, next_file};
ghost use Rattle.edge_io.specs.Named.{named};

use crate::counts::Counts;
use crate::failing_calls::fails_next;
use crate::shelf::{FetchFault, Shelf};
use std::alloc::Global;
use std::marker::Model;

/// Files in memory, which tell all, and fail at the calls of chosen numbers.
#[derive(Drop)]
pub struct MemoryShelf {
    files: Vec<(String, Vec<u8>)>,
    fails: Vec<u32>,
    calls: u64,
    counts: Counts,
}

impl Model for MemoryShelf {
    ghost use Rattle.edge_io.specs.Memory.{MemoryFiles};
    ghost use Rattle.edge_io.specs.Named.{named};

    ghost Value = { MemoryFiles };

    ghost view = { λ s. record { files = named s.files.items; fails = s.fails.items; calls = s.calls; faults = s.counts } };
}

impl MemoryShelf {
    /// These files, of which the first of a name counts, where the calls of these numbers fail. The first call has the
    /// number 1.
    pub fn new(alloc: Global, files: Vec<(String, Vec<u8>)>, fails: Vec<u32>) -> MemoryShelf
        ensures files { result.files ≡ named files.items }
        ensures fails { result.fails ≡ fails.items }
        ensures calls { result.calls ≡ 0 }
        ensures faults { (n : List ℕ) → count_in result.faults n ≡ 0 }
    {
        MemoryShelf {
            files,
            fails,
            calls: 0,
            counts: Counts::new(alloc),
        }
    }
}

/// The first file of a name.
fn find_file<'a>(files: &'a [(String, Vec<u8>)], name: &str) -> Option<&'a [u8]>
    ensures { option_map (λ b. b.now) result ≡ file_of (named files.now) name.now }
{
    for file in files {
        if file.0.as_str() == name {
            return Some(file.1.as_slice());
        }
    }
    None
}

/// The first bytes of a file, at most so many.
fn front_of(alloc: Global, file: &[u8], most: usize) -> Result<Vec<u8>, FetchFault>
    ensures front { IfOk result (λ v. v.items ≡ take most file.now) }
    ensures memory { result ≢ Err FetchFault.Failed }
{
    let front = if file.len() <= most {
        file
    } else {
        &file[..most]
    };
    match Vec::from_slice(alloc, front) {
        Ok(bytes) => Ok(bytes),
        Err(_) => Err(FetchFault::NoMemory),
    }
}

impl Shelf for MemoryShelf {
    ghost contents = { λ s name. Some (file_of s.files name) };

    ghost faults = { λ s name. count_in s.faults name };

    /// `Failed` comes exactly where the call's number is listed or no file has the name, want of memory aside. The
    /// room for the name's count is made before all else, and where there is none nothing changes.
    fn fetch(&mut self, alloc: Global, name: &str, most: usize) -> Result<Vec<u8>, FetchFault>
        ensures bytes { IfOk result (λ v. Fetches (Some (file_of self.old.files name.now)) most v.items) }
        ensures given { IfOk result (λ v. option_map (λ file. take most file) (next_file self.old name.now) ≡ Some v.items) }
        ensures failed { result ≡ Err FetchFault.Failed → next_file self.old name.now ≡ None }
        ensures calls { result ≢ Err FetchFault.NoMemory → self.new.calls ≡ counted self.old.calls }
        ensures no_memory { result ≡ Err FetchFault.NoMemory
            → (self.new ≡ self.old) ⊎ (IsTrue (has_name self.new.faults name.now) × (self.new.calls ≡ counted self.old.calls)) }
        ensures files { self.new.files ≡ self.old.files }
        ensures fails { self.new.fails ≡ self.old.fails }
        ensures raised { result ≡ Err FetchFault.Failed → count_in self.new.faults name.now ≡ raised (count_in self.old.faults name.now) }
        ensures not_raised { result ≢ Err FetchFault.Failed → (n : List ℕ) → count_in self.new.faults n ≡ count_in self.old.faults n }
        ensures kept { (n : List ℕ) → Some (file_of self.new.files n) ≡ Some (file_of self.old.files n) }
        ensures later { (n : List ℕ) → count_in self.old.faults n ≤ count_in self.new.faults n }
        ensures others { (n : List ℕ) → n ≢ name.now → count_in self.new.faults n ≡ count_in self.old.faults n }
        ensures cause { result ≡ Err FetchFault.Failed → Rose (count_in self.old.faults name.now) (count_in self.new.faults name.now) }
    {
        if self.counts.make_room(alloc, name).is_err() {
            return Err(FetchFault::NoMemory);
        }
        let is_failing = fails_next(self.fails.as_slice(), self.calls);
        self.calls = self.calls.saturating_add(1);
        match find_file(self.files.as_slice(), name) {
            Some(file) if !is_failing => front_of(alloc, file, most),
            _ => {
                self.counts.raise(name);
                Err(FetchFault::Failed)
            }
        }
    }
}
