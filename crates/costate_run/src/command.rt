//! What the words ask for, and the answer to that.

ghost use Rattle.std.specs.Prelude.{◌≡◌, ◌≤◌, ◌-◌, ℕ, List, IfOk};
ghost use Rattle.costate_run.specs.Words.{command_by, command_of};
ghost use Rattle.costate_run.specs.Outcome.{MayWrite, Names};

use crate::check::answer_check;
use crate::command_line::{read_plan_words, read_route_words};
use crate::plan::answer_plan;
use crate::route::answer_route;
use crate::usage::usage;
use command_files::Answer;
use edge_io::Shelf;
use proposers::Proposer;
use run_parts::{Words, read_check_words};
use std::alloc::{AllocError, Global};
use std::sync::ledger::Ledger;
use step_energy::Steps;

/// The first word.
#[derive(Clone, Copy)]
pub enum FirstWord {
    /// `plan`.
    Plan,
    /// `route`.
    Route,
    /// `check`.
    Check,
    /// Another word, or none.
    Other,
}

/// Which command the first word names.
fn first_word(words: &Words) -> FirstWord
    ensures { command_of words.now ≡ command_by result words.now }
{
    if words.count() == 0 {
        return FirstWord::Other;
    }
    match words.get(0) {
        "plan" => FirstWord::Plan,
        "route" => FirstWord::Route,
        "check" => FirstWord::Check,
        _ => FirstWord::Other,
    }
}

/// The answer to the words, over what the shelf holds. The boxes propose drives.
pub fn answer<S: Shelf, L: Ledger>(
    alloc: Global,
    words: &Words,
    shelf: &mut S,
    boxes: &mut Vec<Box<dyn Proposer>>,
    steps: &mut Steps<L>,
) -> Result<Answer, AllocError>
    ensures may { IfOk result (λ a. MayWrite (command_of words.now) (S.contents shelf.old) (S.faults shelf.old)
        (S.faults shelf.new) (steps.new - steps.old) a.status a.text.items) }
    ensures kept { (n : List ℕ) → S.contents shelf.new n ≡ S.contents shelf.old n }
    ensures later { (n : List ℕ) → S.faults shelf.old n ≤ S.faults shelf.new n }
    ensures others { (n : List ℕ) → (Names (command_of words.now) n → ⊥) → S.faults shelf.new n ≡ S.faults shelf.old n }
{
    match first_word(words) {
        FirstWord::Plan => answer_plan_words(alloc, words, shelf, boxes, steps),
        FirstWord::Route => answer_route_words(alloc, words, shelf, boxes, steps),
        FirstWord::Check => answer_check_words(alloc, words, shelf, steps),
        FirstWord::Other => usage(alloc),
    }
}

/// The answer to words that begin with `route`.
fn answer_route_words<S: Shelf, L: Ledger>(
    alloc: Global,
    words: &Words,
    shelf: &mut S,
    boxes: &mut Vec<Box<dyn Proposer>>,
    steps: &mut Steps<L>,
) -> Result<Answer, AllocError>
    ensures may { IfOk result (λ a. MayWrite (command_by FirstWord.Route words.now) (S.contents shelf.old) (S.faults shelf.old)
        (S.faults shelf.new) (steps.new - steps.old) a.status a.text.items) }
    ensures kept { (n : List ℕ) → S.contents shelf.new n ≡ S.contents shelf.old n }
    ensures later { (n : List ℕ) → S.faults shelf.old n ≤ S.faults shelf.new n }
    ensures others { (n : List ℕ) → (Names (command_by FirstWord.Route words.now) n → ⊥) → S.faults shelf.new n ≡ S.faults shelf.old n }
{
    match read_route_words(alloc, words)? {
        Some(asked) => answer_route(alloc, &asked, shelf, boxes, steps),
        None => usage(alloc),
    }
}

/// The answer to words that begin with `plan`.
fn answer_plan_words<S: Shelf, L: Ledger>(
    alloc: Global,
    words: &Words,
    shelf: &mut S,
    boxes: &mut Vec<Box<dyn Proposer>>,
    steps: &mut Steps<L>,
) -> Result<Answer, AllocError>
    ensures may { IfOk result (λ a. MayWrite (command_by FirstWord.Plan words.now) (S.contents shelf.old) (S.faults shelf.old)
        (S.faults shelf.new) (steps.new - steps.old) a.status a.text.items) }
    ensures kept { (n : List ℕ) → S.contents shelf.new n ≡ S.contents shelf.old n }
    ensures later { (n : List ℕ) → S.faults shelf.old n ≤ S.faults shelf.new n }
    ensures others { (n : List ℕ) → (Names (command_by FirstWord.Plan words.now) n → ⊥) → S.faults shelf.new n ≡ S.faults shelf.old n }
{
    match read_plan_words(alloc, words)? {
        Some(asked) => answer_plan(alloc, &asked, shelf, boxes, steps),
        None => usage(alloc),
    }
}

/// The answer to words that begin with `check`.
fn answer_check_words<S: Shelf, L: Ledger>(
    alloc: Global,
    words: &Words,
    shelf: &mut S,
    steps: &mut Steps<L>,
) -> Result<Answer, AllocError>
    ensures may { IfOk result (λ a. MayWrite (command_by FirstWord.Check words.now) (S.contents shelf.old) (S.faults shelf.old)
        (S.faults shelf.new) (steps.new - steps.old) a.status a.text.items) }
    ensures kept { (n : List ℕ) → S.contents shelf.new n ≡ S.contents shelf.old n }
    ensures later { (n : List ℕ) → S.faults shelf.old n ≤ S.faults shelf.new n }
    ensures others { (n : List ℕ) → (Names (command_by FirstWord.Check words.now) n → ⊥) → S.faults shelf.new n ≡ S.faults shelf.old n }
{
    match read_check_words(alloc, words)? {
        Some(asked) => answer_check(alloc, &asked, shelf, steps),
        None => usage(alloc),
    }
}
