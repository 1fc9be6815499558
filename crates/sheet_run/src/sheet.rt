//! A sheet: the drive of a report, judged by the rules that a line, a train and a service give together, and shown.

ghost use Rattle.std.specs.Prelude.{◌≡◌, ◌≤◌, ◌-◌, ℕ, List, None, IfOk};
ghost use Rattle.line_file.specs.Shape.{IsLine, IsService};
ghost use Rattle.train_file.specs.Shape.{IsTrain};
ghost use Rattle.sheet_run.specs.Claims.{IsKeptClaim, IsSmall, claim_refusal};
ghost use Rattle.sheet_run.specs.Shown.{IsClaimAnswer, IsReportAnswer, IsShown};
ghost use Rattle.sheet_run.specs.Words.{Show};
ghost use Rattle.sheet_run.specs.Outcome.{IsJoinedSheet, MayWrite, Names};

use crate::claims::{Claim, claim_refusal, read_claim};
use crate::command_line::{Form, SheetWords};
use crate::named_service::{NamedService, NamedServiceFile};
use crate::shown::shown_text;
use command_files::{Answer, File, FileList, Stage, status};
use drive_rules::Rules;
use edge_io::Shelf;
use line_file::Line;
use plan_files::{LineFile, TrainFile, fresh_rules};
use rail_base::{Regained, StepCost};
use run_parts::{ReportFile, fault_words, refused_in};
use std::alloc::{AllocError, Global};
use std::sync::ledger::Ledger;
use step_energy::Steps;
use train_file::Train;

/// The answer that shows a drive.
fn shown_answer<C: StepCost>(
    alloc: Global,
    form: Form,
    rules: &Rules,
    cost: &C,
    named: &NamedService,
    claim: &Claim,
) -> Result<Answer, AllocError>
    requires none { claim_refusal (C.cost cost.now) rules.now claim.now ≡ None }
    requires kept { IsKeptClaim (C.cost cost.now) rules.now claim.now }
    requires small { IsSmall claim.now }
    ensures { IfOk result (λ a. IsShown (C.cost cost.now) rules.now form named.now claim.now a.status a.text.items) }
{
    let text = shown_text(alloc, form, rules, cost, named, claim)?;
    Ok(Answer {
        status: status::SHOWN,
        text,
    })
}

/// The answer to what is claimed of a run: the drive in this form, or the words of the first condition that fails.
fn claim_answer<C: StepCost>(
    alloc: Global,
    form: Form,
    rules: &Rules,
    cost: &C,
    named: &NamedService,
    claim: &Claim,
) -> Result<Answer, AllocError>
    requires { IsSmall claim.now }
    ensures { IfOk result (λ a. IsClaimAnswer (C.cost cost.now) rules.now form named.now claim.now a.status a.text.items) }
{
    match claim_refusal(alloc, rules, cost, claim)? {
        Some(words) => refused_in(alloc, words.as_slice()),
        None => shown_answer(alloc, form, rules, cost, named, claim),
    }
}

/// The answer to a report: that to what it claims, or to the first fault of the part that has its certificate.
fn report_answer<C: StepCost>(
    alloc: Global,
    form: Form,
    rules: &Rules,
    cost: &C,
    named: &NamedService,
    report: &[u8],
) -> Result<Answer, AllocError>
    ensures { IfOk result (λ a. IsReportAnswer (C.cost cost.now) rules.now form named.now report.now a.status a.text.items) }
{
    match read_claim(alloc, report) {
        Ok(claim) => claim_answer(alloc, form, rules, cost, named, &claim),
        Err(fault) => {
            let words = fault_words(alloc, fault)?;
            refused_in(alloc, words.as_slice())
        }
    }
}

/// The answer to a line, a train, a service and a report.
fn joined_sheet<L: Ledger>(
    alloc: Global,
    asked: &SheetWords,
    line: &Line,
    train: &Train,
    named: &NamedService,
    report: &[u8],
    steps: &mut Steps<L>,
) -> Result<Answer, AllocError>
    requires line { IsLine line.now }
    requires train { IsTrain train.now }
    requires service { IsService named.now.service }
    ensures { IfOk result (λ a. IsJoinedSheet line.now train.now named.now report.now asked.now.step asked.now.form
        (steps.new - steps.old) a.status a.text.items) }
{
    match fresh_rules(alloc, line, train, &named.service, asked.step, steps)? {
        Stage::Read(rules) => {
            let cost = Regained {
                share: train.regeneration,
            };
            report_answer(alloc, asked.form, &rules, &cost, named, report)
        }
        Stage::Ends(answer) => Ok(answer),
    }
}

/// The answer to words, over what the shelf holds under the names of its files.
pub fn answer_sheet<S: Shelf, L: Ledger>(
    alloc: Global,
    asked: &SheetWords,
    shelf: &mut S,
    steps: &mut Steps<L>,
) -> Result<Answer, AllocError>
    ensures may { IfOk result (λ a.
        MayWrite (Show asked.now.line.now asked.now.train.now asked.now.service.now asked.now.report.now asked.now.step asked.now.form)
        (S.contents shelf.old) (S.faults shelf.old) (S.faults shelf.new)
        (steps.new - steps.old) a.status a.text.items) }
    ensures kept { (n : List ℕ) → S.contents shelf.new n ≡ S.contents shelf.old n }
    ensures later { (n : List ℕ) → S.faults shelf.old n ≤ S.faults shelf.new n }
    ensures others { (n : List ℕ) →
        (Names (Show asked.now.line.now asked.now.train.now asked.now.service.now asked.now.report.now asked.now.step asked.now.form) n → ⊥)
        → S.faults shelf.new n ≡ S.faults shelf.old n }
{
    let line = File {
        kind: LineFile,
        name: asked.line,
    };
    let train = File {
        kind: TrainFile,
        name: asked.train,
    };
    let service = File {
        kind: NamedServiceFile,
        name: asked.service,
    };
    let report = File {
        kind: ReportFile,
        name: asked.report,
    };
    match (line, (train, (service, (report, ())))).read_all(alloc, shelf, steps)? {
        Stage::Read(said) => {
            let (line, train, named) = (&said.0, &said.1.0, &said.1.1.0);
            joined_sheet(
                alloc,
                asked,
                line,
                train,
                named,
                said.1.1.1.0.bytes(),
                steps,
            )
        }
        Stage::Ends(answer) => Ok(answer),
    }
}
