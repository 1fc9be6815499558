//! A stage of a run: one file is fetched, measured and read.

ghost use Rattle.std.specs.Prelude.{◌≡◌, ◌≢◌, ◌≤◌, ◌+◌, ◌<◌, ◌^◌, ℕ, List, Err, IfOk, OnOk};
ghost use Rattle.command_files.specs.Files.{IsFileEnd, Says};
ghost use Rattle.command_files.specs.Stage.{IsFetched, IsMeasured, IsSaid, IsStage, OnRead};

use crate::answer::{Answer, read_fault, refusal};
use crate::role::{File, FileRole};
use edge_io::{FetchFault, Shelf};
use std::alloc::{AllocError, Global};
use std::sync::ledger::Ledger;
use step_energy::Steps;

/// What came of a file, or of several: what they say, or the answer that ends the run.
#[derive(Drop)]
pub enum Stage<T: Drop> {
    Read(T),
    Ends(Answer),
}

/// The bytes of a file that is short enough, or the refusal of one that is too long.
fn measured(
    alloc: Global,
    role: &[u8],
    most: usize,
    bytes: Vec<u8>,
) -> Result<Stage<Vec<u8>>, AllocError>
    ensures { IfOk result (IsMeasured role.now most bytes.items) }
{
    if bytes.len() <= most {
        return Ok(Stage::Read(bytes));
    }
    let answer = refusal(alloc, role, b"too-long")?;
    Ok(Stage::Ends(answer))
}

/// Fetches the file of this name, up to one byte more than it may have, and measures it.
fn fetch<S: Shelf>(
    alloc: Global,
    shelf: &mut S,
    role: &[u8],
    most: usize,
    name: &str,
) -> Result<Stage<Vec<u8>>, AllocError>
    requires { most < 2 ^ 32 }
    ensures fetched { IfOk result (IsFetched role.now most name.now (S.contents shelf.old) (S.faults shelf.old) (S.faults shelf.new)) }
    ensures kept { (n : List ℕ) → S.contents shelf.new n ≡ S.contents shelf.old n }
    ensures later { (n : List ℕ) → S.faults shelf.old n ≤ S.faults shelf.new n }
    ensures others { (n : List ℕ) → n ≢ name.now → S.faults shelf.new n ≡ S.faults shelf.old n }
{
    match shelf.fetch(alloc, name, most + 1) {
        Ok(bytes) => measured(alloc, role, most, bytes),
        Err(FetchFault::Failed) => {
            let answer = read_fault(alloc, role)?;
            Ok(Stage::Ends(answer))
        }
        Err(FetchFault::NoMemory) => Err(AllocError),
    }
}

/// What a reader found in a file of this kind, or the refusal of its fault. The only error is want of memory, which the fault may
/// itself be.
fn said<F: FileRole>(
    alloc: Global,
    found: Result<F::Said, F::Fault>,
) -> Result<Stage<F::Said>, AllocError>
    ensures sound { OnOk result (found ≢ Err F.no_memory) }
    ensures said { IfOk result (IsSaid F.kind found) }
{
    match found {
        Ok(said) => Ok(Stage::Read(said)),
        Err(fault) => {
            let words = F::words(alloc, fault)?;
            let answer = refusal(alloc, F::role(), words.as_slice())?;
            Ok(Stage::Ends(answer))
        }
    }
}

/// What a file says, or the answer that ends the run there. Want of memory may come at any place.
pub fn read_file<F: FileRole, S: Shelf, L: Ledger>(
    alloc: Global,
    file: &File<'_, F>,
    shelf: &mut S,
    steps: &mut Steps<L>,
) -> Result<Stage<F::Said>, AllocError>
    ensures stage { IfOk result
        (IsStage (IsFileEnd F.kind file.now.name.now (S.contents shelf.old) (S.faults shelf.old) (S.faults shelf.new))
        (Says F.kind file.now.name.now (S.contents shelf.old))) }
    ensures shape { IfOk result (OnRead F.shape) }
    ensures kept { (n : List ℕ) → S.contents shelf.new n ≡ S.contents shelf.old n }
    ensures later { (n : List ℕ) → S.faults shelf.old n ≤ S.faults shelf.new n }
    ensures others { (n : List ℕ) → n ≢ file.now.name.now → S.faults shelf.new n ≡ S.faults shelf.old n }
    ensures least { steps.old ≤ steps.new }
    ensures counted { IfOk result (OnRead (λ said. steps.new ≡ steps.old + F.steps_of said)) }
{
    match fetch(alloc, shelf, F::role(), F::most(), file.name)? {
        Stage::Read(bytes) => said::<F>(alloc, F::read(alloc, bytes.as_slice(), steps)),
        Stage::Ends(answer) => Ok(Stage::Ends(answer)),
    }
}
