//! The command `route`: the rules of a run from one file.

ghost use Rattle.std.specs.Prelude.{◌≡◌, ◌≢◌, ◌≤◌, ◌-◌, ℕ, List, IfOk};
ghost use Rattle.costate_run.specs.Words.{Route};
ghost use Rattle.costate_run.specs.Outcome.{MayWrite, Names};

use crate::command_line::RouteWords;
use crate::rules::rules_answer;
use command_files::{Answer, File, FileList, Stage};
use costate_bound::costs_cover_work;
use edge_io::Shelf;
use plan_files::RouteFile;
use proposers::Proposer;
use rail_base::Traction;
use std::alloc::{AllocError, Global};
use std::sync::ledger::Ledger;
use step_energy::Steps;

/// The answer to `route`, over what the shelf holds under the name of its file. The boxes propose drives.
pub fn answer_route<S: Shelf, L: Ledger>(
    alloc: Global,
    asked: &RouteWords,
    shelf: &mut S,
    boxes: &mut Vec<Box<dyn Proposer>>,
    steps: &mut Steps<L>,
) -> Result<Answer, AllocError>
    ensures may { IfOk result (λ a. MayWrite (Route asked.now.file.now asked.now.tolerance)
        (S.contents shelf.old) (S.faults shelf.old) (S.faults shelf.new) (steps.new - steps.old) a.status a.text.items) }
    ensures kept { (n : List ℕ) → S.contents shelf.new n ≡ S.contents shelf.old n }
    ensures later { (n : List ℕ) → S.faults shelf.old n ≤ S.faults shelf.new n }
    ensures others { (n : List ℕ) → (Names (Route asked.now.file.now asked.now.tolerance) n → ⊥)
        → S.faults shelf.new n ≡ S.faults shelf.old n }
{
    costs_cover_work();
    let route = File {
        kind: RouteFile,
        name: asked.file,
    };
    match (route, ()).read_all(alloc, shelf, steps)? {
        Stage::Read(said) => {
            let rules = &said.0;
            rules_answer(alloc, rules, &Traction, 0, asked.tolerance, None, boxes)
        }
        Stage::Ends(answer) => Ok(answer),
    }
}
