//! The command `session`: events of a train that is under way, and the answers to them.

ghost use Rattle.std.specs.Prelude.{◌≡◌, ◌≢◌, ◌≤◌, ◌+◌, ◌-◌, ◌++◌, ℕ, List, Some, None, IfOk, OnOk, length};
ghost use Rattle.line_file.specs.Shape.{IsLine, IsService};
ghost use Rattle.train_file.specs.Shape.{IsTrain};
ghost use Rattle.advice_session.specs.Folds.{event_fault};
ghost use Rattle.rail_base.specs.Texts.{line};
ghost use Rattle.advice_run.specs.Session.{AreTaken, IsAdvice, Takes, fault_in, outcome_line, rows_of};
ghost use Rattle.advice_run.specs.Words.{Session as SessionCommand};
ghost use Rattle.advice_run.specs.Outcome.{IsJoinedSession, MayWrite, Names};

use crate::command_line::SessionWords;
use crate::events_file::EventsFile;
use crate::rules::rules_answer;
use advice_session::{Event, Session, SessionFault};
use command_files::{Answer, File, FileList, Stage, status};
use edge_io::Shelf;
use line_file::{Line, Service};
use plan_files::{LineFile, ServiceFile, TrainFile, rules_refusal};
use planner::Options;
use proposers::Proposer;
use rail_base::{Regained, StepCost, put_line};
use run_parts::regeneration_of;
use std::alloc::{AllocError, Global};
use std::sync::ledger::Ledger;
use step_energy::Steps;
use train_file::Train;

/// What is printed of an event that is refused for this fault. The only error is want of memory, which the fault may itself be.
fn refused_line(fault: SessionFault) -> Result<&'static [u8], AllocError>
    ensures line { IfOk result (λ text. line text.now ≡ outcome_line (Some fault)) }
    ensures sound { IfOk result (λ _. fault ≢ SessionFault.NoMemory) }
{
    match fault {
        SessionFault::OutOfRange => Ok(b"refused out-of-range"),
        SessionFault::Outside => Ok(b"refused outside"),
        SessionFault::Behind => Ok(b"refused behind"),
        SessionFault::ClockBack => Ok(b"refused clock-back"),
        SessionFault::StopsTooClose => Ok(b"refused stops-too-close"),
        SessionFault::NameTaken => Ok(b"refused name-taken"),
        SessionFault::NoSuchName => Ok(b"refused no-such-name"),
        SessionFault::TooMany => Ok(b"refused too-many"),
        SessionFault::NoMemory => Err(AllocError),
    }
}

/// Appends whether an event is accepted or refused.
fn put_outcome(out: &mut Vec<u8>, outcome: Result<(), SessionFault>) -> Result<(), AllocError>
    ensures sound { OnOk result (outcome ≢ Err SessionFault.NoMemory) }
    ensures text { OnOk result (out.new.items ≡ out.old.items ++ outcome_line (fault_in outcome)) }
{
    match outcome {
        Ok(()) => put_line(out, b"ok"),
        Err(fault) => put_line(out, refused_line(fault)?),
    }
}

/// Takes an event, and appends what it prints: a plan text for the session's rules where it asks for advice, else whether it is accepted. The
/// boxes propose drives.
fn take_event<C: StepCost, L: Ledger>(
    alloc: Global,
    session: &mut Session,
    event: &Event,
    cost: &C,
    options: Options,
    regeneration: Option<u16>,
    boxes: &mut Vec<Box<dyn Proposer>>,
    out: &mut Vec<u8>,
    steps: &mut Steps<L>,
) -> Result<(), AllocError>
    requires splits { options.splits ≤ 50000 }
    requires tolerance { options.tolerance ≤ 1000 }
    ensures taken { OnOk result (Takes (IsAdvice (C.cost cost.now) options.splits options.tolerance regeneration) session.old event.now session.new
        out.old.items out.new.items) }
    ensures counted { OnOk result (steps.new ≤ steps.old + rows_of (event_fault session.old event.now) event.now) }
{
    session.known();
    if let Event::Advise = event {
        let advice = rules_answer(alloc, session.rules(), cost, options, regeneration, boxes)?;
        out.extend_from_slice(advice.text.as_slice())?;
        return Ok(());
    }
    let outcome = session.apply(event, steps);
    session.known();
    put_outcome(out, outcome)
}

/// What the events of a session print, one after another. The boxes propose drives.
fn session_text<C: StepCost, L: Ledger>(
    alloc: Global,
    session: &mut Session,
    events: &[Event],
    cost: &C,
    options: Options,
    regeneration: Option<u16>,
    boxes: &mut Vec<Box<dyn Proposer>>,
    steps: &mut Steps<L>,
) -> Result<Vec<u8>, AllocError>
    requires splits { options.splits ≤ 50000 }
    requires tolerance { options.tolerance ≤ 1000 }
    ensures { IfOk result (λ text. AreTaken (IsAdvice (C.cost cost.now) options.splits options.tolerance regeneration) session.old events.now
        (length events.now) session.new text.items steps.old steps.new) }
{
    let mut text = Vec::new(alloc);
    for i in 0..events.len() {
        take_event(
            alloc,
            session,
            &events[i],
            cost,
            options,
            regeneration,
            boxes,
            &mut text,
            steps,
        )?;
    }
    Ok(text)
}

/// The answer to a line, a train, a service and events. The boxes propose drives.
fn joined_session<L: Ledger>(
    alloc: Global,
    asked: &SessionWords,
    line: &Line,
    train: &Train,
    service: &Service,
    events: &[Event],
    boxes: &mut Vec<Box<dyn Proposer>>,
    steps: &mut Steps<L>,
) -> Result<Answer, AllocError>
    requires line { IsLine line.now }
    requires train { IsTrain train.now }
    requires service { IsService service.now }
    ensures { IfOk result (λ a. IsJoinedSession line.now train.now service.now events.now asked.now.step asked.now.splits asked.now.tolerance
        (steps.new - steps.old) a.status a.text.items) }
{
    match Session::start(alloc, line, train, service, asked.step as u16, steps) {
        Ok(session) => {
            let mut session = session;
            session.known();
            let options = Options {
                splits: asked.splits,
                tolerance: asked.tolerance,
            };
            let cost = Regained {
                share: train.regeneration,
            };
            let regeneration = regeneration_of(train);
            let text = session_text(
                alloc,
                &mut session,
                events,
                &cost,
                options,
                regeneration,
                boxes,
                steps,
            )?;
            Ok(Answer {
                status: status::SESSION_READ,
                text,
            })
        }
        Err(fault) => rules_refusal(alloc, fault),
    }
}

/// The answer to `session`, over what the shelf holds under the names of its files. The boxes propose drives.
pub fn answer_session<S: Shelf, L: Ledger>(
    alloc: Global,
    asked: &SessionWords,
    shelf: &mut S,
    boxes: &mut Vec<Box<dyn Proposer>>,
    steps: &mut Steps<L>,
) -> Result<Answer, AllocError>
    ensures may { IfOk result (λ a.
        MayWrite (SessionCommand asked.now.line.now asked.now.train.now asked.now.service.now asked.now.events.now asked.now.step asked.now.splits
        asked.now.tolerance)
        (S.contents shelf.old) (S.faults shelf.old) (S.faults shelf.new)
        (steps.new - steps.old) a.status a.text.items) }
    ensures kept { (n : List ℕ) → S.contents shelf.new n ≡ S.contents shelf.old n }
    ensures later { (n : List ℕ) → S.faults shelf.old n ≤ S.faults shelf.new n }
    ensures others { (n : List ℕ) →
        (Names (SessionCommand asked.now.line.now asked.now.train.now asked.now.service.now asked.now.events.now asked.now.step asked.now.splits
        asked.now.tolerance) n → ⊥)
        → S.faults shelf.new n ≡ S.faults shelf.old n }
{
    let line = File {
        kind: LineFile,
        name: asked.line,
    };
    let train = File {
        kind: TrainFile,
        name: asked.train,
    };
    let service = File {
        kind: ServiceFile,
        name: asked.service,
    };
    let events = File {
        kind: EventsFile,
        name: asked.events,
    };
    match (line, (train, (service, (events, ())))).read_all(alloc, shelf, steps)? {
        Stage::Read(said) => {
            let (line, train, service) = (&said.0, &said.1.0, &said.1.1.0);
            let events = said.1.1.1.0.items();
            joined_session(alloc, asked, line, train, service, events, boxes, steps)
        }
        Stage::Ends(answer) => Ok(answer),
    }
}
