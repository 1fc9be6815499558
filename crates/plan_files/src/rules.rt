//! The rules that a line, a train and a service give together.

ghost use Rattle.std.specs.Prelude.{◌≡◌, ◌≢◌, ◌≤◌, ◌+◌, codes, length, IfOk};
ghost use Rattle.line_file.specs.Shape.{IsLine, IsService};
ghost use Rattle.train_file.specs.Shape.{IsTrain};
ghost use Rattle.command_files.specs.Stage.{IsStage, OnRead};
ghost use Rattle.command_files.specs.Answers.{IsRefusal};
ghost use Rattle.plan_files.specs.FaultWords.{rules_fault_words};
ghost use Rattle.plan_files.specs.FreshRules.{FreshRules, IsRulesRefusal};

use crate::fault_words::rules_words;
use command_files::{Answer, Stage, refusal};
use drive_rules::{Rules, RulesFault, Setup};
use line_file::{Line, Service};
use std::alloc::{AllocError, Global};
use std::sync::ledger::Ledger;
use step_energy::Steps;
use train_file::Train;

/// The answer that the rules which a line, a train and a service give together are refused for this fault. The only error is want of memory,
/// which the fault may itself be.
pub fn rules_refusal(alloc: Global, fault: RulesFault) -> Result<Answer, AllocError>
    ensures sound { IfOk result (λ _. fault ≢ RulesFault.NoMemory) }
    ensures says { IfOk result (λ a. IsRefusal (codes "rules") (rules_fault_words fault) a.status a.text.items) }
{
    let words = rules_words(alloc, fault)?;
    refusal(alloc, b"rules", words.as_slice())
}

/// The rules of a run from a standstill at the first call of a service, by a grid of this step in metres, or the answer that they are
/// refused. Want of memory may come at any place.
pub fn fresh_rules<L: Ledger>(
    alloc: Global,
    line: &Line,
    train: &Train,
    service: &Service,
    step: u32,
    steps: &mut Steps<L>,
) -> Result<Stage<Rules>, AllocError>
    requires line { IsLine line.now }
    requires train { IsTrain train.now }
    requires service { IsService service.now }
    requires step { (10 ≤ step) × (step ≤ 1000) }
    ensures stage { IfOk result (IsStage (IsRulesRefusal line.now train.now service.now step)
        (FreshRules line.now train.now service.now step)) }
    ensures counted { IfOk result (OnRead (λ rules. steps.new ≡ steps.old + length rules.steps)) }
{
    let setup = Setup::fresh(alloc, step as u16, service);
    match Rules::make(alloc, line, train, service, &setup, steps) {
        Ok(rules) => Ok(Stage::Read(rules)),
        Err(fault) => {
            let answer = rules_refusal(alloc, fault)?;
            Ok(Stage::Ends(answer))
        }
    }
}
