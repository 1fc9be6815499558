//! The command `check`: a report is checked against the rules that a line, a train and a service give together.

ghost use Rattle.std.specs.Prelude.{◌≡◌, ◌≢◌, ◌≤◌, ◌-◌, ℕ, List, IfOk, OnOk};
ghost use Rattle.costate_bound.specs.Costs.{CoversWork};
ghost use Rattle.costate_text.specs.Text.{IsCostateCertificate};
ghost use Rattle.line_file.specs.Shape.{IsLine, IsService};
ghost use Rattle.train_file.specs.Shape.{IsTrain};
ghost use Rattle.costate_run.specs.Check.{IsCertificateAnswer, IsReportAnswer, refused_words};
ghost use Rattle.costate_run.specs.Words.{Check};
ghost use Rattle.costate_run.specs.Outcome.{IsJoinedCheck, MayWrite, Names};

use command_files::{Answer, File, FileList, Stage, status};
use costate_bound::costs_cover_work;
use costate_checker::{Field, Refused, check};
use costate_text::{CostateCertificate, read};
use drive_rules::Rules;
use dual_certificate::{Title, titled_part};
use edge_io::Shelf;
use line_file::{Line, Service};
use plan_files::{LineFile, ServiceFile, TrainFile, fresh_rules};
use rail_base::{Regained, StepCost};
use run_parts::{CheckWords, ReportFile, certified_text, fault_words, refused_in, rule_words};
use std::alloc::{AllocError, Global};
use std::sync::ledger::Ledger;
use step_energy::Steps;
use train_file::Train;

/// The words of the condition that a certificate fails. The only error is want of memory, which the refusal may itself be.
fn refused_words(alloc: Global, refused: Refused) -> Result<Vec<u8>, AllocError>
    ensures sound { OnOk result (refused ≢ Refused.NoMemory) }
    ensures words { IfOk result (λ text. text.items ≡ refused_words refused) }
{
    match refused {
        Refused::Number(Field::Points) => Vec::from_slice(alloc, b"number points"),
        Refused::Number(Field::Prices) => Vec::from_slice(alloc, b"number prices"),
        Refused::Number(Field::Energy) => Vec::from_slice(alloc, b"number energy"),
        Refused::Number(Field::Bound) => Vec::from_slice(alloc, b"number bound"),
        Refused::Drive(rule, place) => rule_words(alloc, rule, place),
        Refused::NoMemory => Err(AllocError),
    }
}

/// The answer to a certificate.
fn certificate_answer<C: StepCost>(
    alloc: Global,
    rules: &Rules,
    cost: &C,
    share: u16,
    certificate: &CostateCertificate,
) -> Result<Answer, AllocError>
    requires certificate { IsCostateCertificate certificate.now }
    requires covers { CoversWork share (C.cost cost.now) }
    ensures { IfOk result (λ a. IsCertificateAnswer (C.cost cost.now) share rules.now certificate.now a.status a.text.items) }
{
    match check(alloc, rules, cost, share, certificate) {
        Ok(()) => {
            let text = certified_text(alloc, certificate.energy, certificate.bound)?;
            Ok(Answer {
                status: status::CERTIFIED,
                text,
            })
        }
        Err(refused) => {
            let words = refused_words(alloc, refused)?;
            refused_in(alloc, words.as_slice())
        }
    }
}

/// The answer to a report: that to its certificate, or to the first fault of its costate part.
fn report_answer<C: StepCost>(
    alloc: Global,
    rules: &Rules,
    cost: &C,
    share: u16,
    report: &[u8],
) -> Result<Answer, AllocError>
    requires { CoversWork share (C.cost cost.now) }
    ensures { IfOk result (λ a. IsReportAnswer (C.cost cost.now) share rules.now report.now a.status a.text.items) }
{
    match read(alloc, titled_part(Title::Costate, report)) {
        Ok(certificate) => certificate_answer(alloc, rules, cost, share, &certificate),
        Err(fault) => {
            let words = fault_words(alloc, fault)?;
            refused_in(alloc, words.as_slice())
        }
    }
}

/// The answer to a line, a train, a service and a report.
fn joined_check<L: Ledger>(
    alloc: Global,
    asked: &CheckWords,
    line: &Line,
    train: &Train,
    service: &Service,
    report: &[u8],
    steps: &mut Steps<L>,
) -> Result<Answer, AllocError>
    requires line { IsLine line.now }
    requires train { IsTrain train.now }
    requires service { IsService service.now }
    ensures { IfOk result (λ a. IsJoinedCheck line.now train.now service.now report.now asked.now.step
        (steps.new - steps.old) a.status a.text.items) }
{
    costs_cover_work();
    match fresh_rules(alloc, line, train, service, asked.step, steps)? {
        Stage::Read(rules) => {
            let share = train.regeneration;
            report_answer(alloc, &rules, &Regained { share }, share, report)
        }
        Stage::Ends(answer) => Ok(answer),
    }
}

/// The answer to `check`, over what the shelf holds under the names of its files. Nothing of the search is used.
pub fn answer_check<S: Shelf, L: Ledger>(
    alloc: Global,
    asked: &CheckWords,
    shelf: &mut S,
    steps: &mut Steps<L>,
) -> Result<Answer, AllocError>
    ensures may { IfOk result (λ a.
        MayWrite (Check asked.now.line.now asked.now.train.now asked.now.service.now asked.now.report.now asked.now.step)
        (S.contents shelf.old) (S.faults shelf.old) (S.faults shelf.new)
        (steps.new - steps.old) a.status a.text.items) }
    ensures kept { (n : List ℕ) → S.contents shelf.new n ≡ S.contents shelf.old n }
    ensures later { (n : List ℕ) → S.faults shelf.old n ≤ S.faults shelf.new n }
    ensures others { (n : List ℕ) →
        (Names (Check asked.now.line.now asked.now.train.now asked.now.service.now asked.now.report.now asked.now.step) n → ⊥)
        → S.faults shelf.new n ≡ S.faults shelf.old n }
{
    let line = File {
        kind: LineFile,
        name: asked.line,
    };
    let train = File {
        kind: TrainFile,
        name: asked.train,
    };
    let service = File {
        kind: ServiceFile,
        name: asked.service,
    };
    let report = File {
        kind: ReportFile,
        name: asked.report,
    };
    match (line, (train, (service, (report, ())))).read_all(alloc, shelf, steps)? {
        Stage::Read(said) => {
            let (line, train, service) = (&said.0, &said.1.0, &said.1.1.0);
            joined_check(
                alloc,
                asked,
                line,
                train,
                service,
                said.1.1.1.0.bytes(),
                steps,
            )
        }
        Stage::Ends(answer) => Ok(answer),
    }
}
