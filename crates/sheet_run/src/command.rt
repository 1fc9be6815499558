//! The answer to the words of a command line.

ghost use Rattle.std.specs.Prelude.{◌≡◌, ◌≤◌, ◌-◌, ℕ, List, IfOk};
ghost use Rattle.sheet_run.specs.Words.{command_of};
ghost use Rattle.sheet_run.specs.Outcome.{MayWrite, Names};

use crate::command_line::{read_sheet_words, with_program};
use crate::sheet::answer_sheet;
use crate::usage::usage;
use command_files::Answer;
use edge_io::Shelf;
use run_parts::Words;
use std::alloc::{AllocError, Global};
use std::sync::ledger::Ledger;
use step_energy::Steps;

/// The answer to the words, over what the shelf holds.
pub fn answer<S: Shelf, L: Ledger>(
    alloc: Global,
    words: &Words,
    shelf: &mut S,
    steps: &mut Steps<L>,
) -> Result<Answer, AllocError>
    ensures may { IfOk result (λ a. MayWrite (command_of words.now) (S.contents shelf.old) (S.faults shelf.old) (S.faults shelf.new)
        (steps.new - steps.old) a.status a.text.items) }
    ensures kept { (n : List ℕ) → S.contents shelf.new n ≡ S.contents shelf.old n }
    ensures later { (n : List ℕ) → S.faults shelf.old n ≤ S.faults shelf.new n }
    ensures others { (n : List ℕ) → (Names (command_of words.now) n → ⊥) → S.faults shelf.new n ≡ S.faults shelf.old n }
{
    let all = with_program(alloc, words)?;
    match read_sheet_words(alloc, &all)? {
        Some(asked) => answer_sheet(alloc, &asked, shelf, steps),
        None => usage(alloc),
    }
}
