//! Runs of the program over files and a stream in memory.

ghost use Rattle.std.specs.Prelude.{◌≡◌, ◌<◌, ◌≤◌};

use crate::offering::Offering;
use advice_run::{Words, run};
use edge_io::{MemoryShelf, MemorySink};
use proposers::{Dips, EarlyBraking, LateCoasting, Proposer};
use std::alloc::{AllocError, Global};
use std::marker::Brand;
use std::sync::ledger::{Blank, Ledger};
use step_energy::Steps;

/// What runs left: the status that the last ended with, and what they wrote.
#[derive(Drop)]
pub struct Ended {
    pub status: u8,
    pub text: String,
}

/// A run over these files, whose fetches of these numbers fail, and a stream that takes pieces of this size, has so much
/// room, and fails at the puts of these numbers.
#[derive(Drop)]
pub struct Setting {
    pub files: Vec<(String, Vec<u8>)>,
    pub failing_fetches: Vec<u32>,
    pub piece: usize,
    pub room: usize,
    pub failing_puts: Vec<u32>,
}

/// Files without faults, and a stream without end.
pub fn plain(alloc: Global) -> Setting
    ensures { 1 ≤ result.piece }
{
    Setting {
        files: Vec::new(alloc),
        failing_fetches: Vec::new(alloc),
        piece: 1_000_000,
        room: 1_000_000,
        failing_puts: Vec::new(alloc),
    }
}

/// Appends a file.
pub fn put_file(
    alloc: Global,
    files: &mut Vec<(String, Vec<u8>)>,
    name: &str,
    bytes: &[u8],
) -> Result<(), AllocError> {
    let name = String::from_str(alloc, name)?;
    let bytes = Vec::from_slice(alloc, bytes)?;
    files.push((name, bytes))?;
    Ok(())
}

/// The boxes of a run: one that offers these speeds, where there are some, and else those of the program.
fn boxes_of(alloc: Global, offer: &[u16]) -> Result<Vec<Box<dyn Proposer>>, AllocError> {
    let mut boxes: Vec<Box<dyn Proposer>> = Vec::new(alloc);
    if offer.is_empty() {
        boxes.push(Box::new(alloc, Dips::new(alloc))?)?;
        boxes.push(Box::new(alloc, LateCoasting::new(alloc))?)?;
        boxes.push(Box::new(alloc, EarlyBraking::new(alloc))?)?;
    } else {
        boxes.push(Box::new(alloc, Offering::make(alloc, offer)?)?)?;
    }
    Ok(boxes)
}

/// What so many runs with these words and these boxes leave, one after the other over the same files and the same stream, with a counter of their own.
fn run_counted<L: Ledger>(
    alloc: Global,
    words: &[&str],
    setting: Setting,
    offer: &[u16],
    runs: u32,
    blank: Blank,
) -> Result<Ended, AllocError>
    requires piece { 1 ≤ setting.piece }
    requires name { blank.name ≡ L.name }
    requires parts { blank.parts ≡ L.parts }
    requires some { 0 < L.parts }
{
    let mut list = Words::new(alloc);
    for word in words {
        list.push(*word)?;
    }
    let mut shelf = MemoryShelf::new(alloc, setting.files, setting.failing_fetches);
    let mut sink = MemorySink::new(alloc, setting.piece, setting.room, setting.failing_puts)?;
    let mut steps: Steps<L> = Steps::new(blank);
    let mut status = 0;
    for _ in 0..runs {
        let boxes = boxes_of(alloc, offer)?;
        status = run(alloc, &list, &mut shelf, &mut sink, boxes, &mut steps);
    }
    let text = String::from_utf8_lossy(alloc, sink.bytes())?;
    Ok(Ended { status, text })
}

/// What a run with these words leaves.
pub fn run_words(alloc: Global, words: &[&str], setting: Setting) -> Result<Ended, AllocError>
    requires { 1 ≤ setting.piece }
{
    run_counted::<Brand>(alloc, words, setting, &[], 1, Blank::new(1))
}

/// What two runs with these words leave, one after the other over the same files and the same stream.
pub fn run_words_twice(alloc: Global, words: &[&str], setting: Setting) -> Result<Ended, AllocError>
    requires { 1 ≤ setting.piece }
{
    run_counted::<Brand>(alloc, words, setting, &[], 2, Blank::new(1))
}

/// What a run with these words leaves, with one box that offers these speeds.
pub fn run_words_offered(
    alloc: Global,
    words: &[&str],
    setting: Setting,
    offer: &[u16],
) -> Result<Ended, AllocError>
    requires { 1 ≤ setting.piece }
{
    run_counted::<Brand>(alloc, words, setting, offer, 1, Blank::new(1))
}

/// The advice part of a report, which stands before its certificate, and the whole of any other text.
pub fn advice_part(text: &str) -> &str {
    match text.split_once("certificate 1\n") {
        Some((advice, _)) => advice,
        None => text,
    }
}
