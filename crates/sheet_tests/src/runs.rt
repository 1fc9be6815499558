//! Runs of the program over files and a stream in memory.

ghost use Rattle.std.specs.Prelude.{◌≡◌, ◌<◌};

use edge_io::{MemoryShelf, MemorySink};
use run_parts::Words;
use sheet_run::run;
use std::alloc::{AllocError, Global};
use std::marker::Brand;
use std::sync::ledger::{Blank, Ledger};
use step_energy::Steps;

/// What a run left: the status that it ended with, and what it wrote.
#[derive(Drop)]
pub struct Ended {
    pub status: u8,
    pub text: String,
}

/// The words of a run.
fn words_of(alloc: Global, words: &[&str]) -> Result<Words, AllocError> {
    let mut list = Words::new(alloc);
    for word in words {
        list.push(*word)?;
    }
    Ok(list)
}

/// A file of this name and text.
fn file(alloc: Global, name: &str, text: &str) -> Result<(String, Vec<u8>), AllocError> {
    let name = String::from_str(alloc, name)?;
    let bytes = Vec::from_slice(alloc, text.as_bytes())?;
    Ok((name, bytes))
}

/// Files of these names and texts, whose fetches don't fail.
fn shelf_of(alloc: Global, files: &[(&str, &str)]) -> Result<MemoryShelf, AllocError> {
    let mut held = Vec::new(alloc);
    for (name, text) in files {
        held.push(file(alloc, *name, *text)?)?;
    }
    Ok(MemoryShelf::new(alloc, held, Vec::new(alloc)))
}

/// What a run with these words leaves over files of these names and texts, with a counter of its own.
fn run_counted<L: Ledger>(
    alloc: Global,
    words: &[&str],
    files: &[(&str, &str)],
    blank: Blank,
) -> Result<Ended, AllocError>
    requires name { blank.name ≡ L.name }
    requires parts { blank.parts ≡ L.parts }
    requires some { 0 < L.parts }
{
    let list = words_of(alloc, words)?;
    let mut shelf = shelf_of(alloc, files)?;
    let mut sink = MemorySink::new(alloc, 1_000_000, 1_000_000, Vec::new(alloc))?;
    let mut steps: Steps<L> = Steps::new(blank);
    let status = run(alloc, &list, &mut shelf, &mut sink, &mut steps);
    let text = String::from_utf8_lossy(alloc, sink.bytes())?;
    Ok(Ended { status, text })
}

/// What a run with these words leaves over files of these names and texts.
pub fn run_words(
    alloc: Global,
    words: &[&str],
    files: &[(&str, &str)],
) -> Result<Ended, AllocError> {
    run_counted::<Brand>(alloc, words, files, Blank::new(1))
}
