//! The command `plan`: a line, a train and a service, and the rules that they give together.

ghost use Rattle.std.specs.Prelude.{◌≡◌, ◌≢◌, ◌≤◌, ◌-◌, ℕ, List, IfOk};
ghost use Rattle.line_file.specs.Shape.{IsLine, IsService};
ghost use Rattle.train_file.specs.Shape.{IsTrain};
ghost use Rattle.costate_run.specs.Words.{Plan};
ghost use Rattle.costate_run.specs.Outcome.{IsJoinedAnswer, MayWrite, Names};

use crate::command_line::PlanWords;
use crate::rules::rules_answer;
use command_files::{Answer, File, FileList, Stage};
use costate_bound::costs_cover_work;
use edge_io::Shelf;
use line_file::{Line, Service};
use plan_files::{LineFile, ServiceFile, TrainFile, fresh_rules};
use proposers::Proposer;
use rail_base::Regained;
use run_parts::regeneration_of;
use std::alloc::{AllocError, Global};
use std::sync::ledger::Ledger;
use step_energy::Steps;
use train_file::Train;

/// The answer to a line, a train and a service. The boxes propose drives.
fn joined_answer<L: Ledger>(
    alloc: Global,
    asked: &PlanWords,
    line: &Line,
    train: &Train,
    service: &Service,
    boxes: &mut Vec<Box<dyn Proposer>>,
    steps: &mut Steps<L>,
) -> Result<Answer, AllocError>
    requires line { IsLine line.now }
    requires train { IsTrain train.now }
    requires service { IsService service.now }
    ensures { IfOk result (λ a. IsJoinedAnswer line.now train.now service.now asked.now.step asked.now.tolerance
        (steps.new - steps.old) a.status a.text.items) }
{
    costs_cover_work();
    match fresh_rules(alloc, line, train, service, asked.step, steps)? {
        Stage::Read(rules) => {
            let share = train.regeneration;
            let cost = Regained { share };
            let said = regeneration_of(train);
            rules_answer(alloc, &rules, &cost, share, asked.tolerance, said, boxes)
        }
        Stage::Ends(answer) => Ok(answer),
    }
}

/// The answer to `plan`, over what the shelf holds under the names of its files. The boxes propose drives.
pub fn answer_plan<S: Shelf, L: Ledger>(
    alloc: Global,
    asked: &PlanWords,
    shelf: &mut S,
    boxes: &mut Vec<Box<dyn Proposer>>,
    steps: &mut Steps<L>,
) -> Result<Answer, AllocError>
    ensures may { IfOk result (λ a.
        MayWrite (Plan asked.now.line.now asked.now.train.now asked.now.service.now asked.now.step asked.now.tolerance)
        (S.contents shelf.old) (S.faults shelf.old) (S.faults shelf.new)
        (steps.new - steps.old) a.status a.text.items) }
    ensures kept { (n : List ℕ) → S.contents shelf.new n ≡ S.contents shelf.old n }
    ensures later { (n : List ℕ) → S.faults shelf.old n ≤ S.faults shelf.new n }
    ensures others { (n : List ℕ) →
        (Names (Plan asked.now.line.now asked.now.train.now asked.now.service.now asked.now.step asked.now.tolerance) n → ⊥)
        → S.faults shelf.new n ≡ S.faults shelf.old n }
{
    let line = File {
        kind: LineFile,
        name: asked.line,
    };
    let train = File {
        kind: TrainFile,
        name: asked.train,
    };
    let service = File {
        kind: ServiceFile,
        name: asked.service,
    };
    match (line, (train, (service, ()))).read_all(alloc, shelf, steps)? {
        Stage::Read(said) => {
            let (line, train, service) = (&said.0, &said.1.0, &said.1.1.0);
            joined_answer(alloc, asked, line, train, service, boxes, steps)
        }
        Stage::Ends(answer) => Ok(answer),
    }
}
