//! The words of the command `session`.

ghost use Rattle.std.specs.Prelude.{◌≡◌, ◌≤◌, Some, IfOk, MatchOption};
ghost use Rattle.clap.specs.Words.{app_of, found_of, rows_of};
ghost use Rattle.run_parts.specs.Words.{taken};
ghost use Rattle.advice_run.specs.Words.{Session, Usage, session_app, session_of_rows};

use clap::{ArgMatches, Command};
use run_parts::{Words, matches_of, number_in, value_of, with_name, with_option};
use std::alloc::{AllocError, Global};

/// The command `session LINE TRAIN SERVICE EVENTS [--step N] [--splits N] [--tolerance N]`.
fn session_command<'a>(alloc: Global) -> Result<Command<'a>, AllocError>
    ensures { IfOk result (λ c. app_of c ≡ session_app) }
{
    let command = Command::new(alloc, "session");
    let command = with_name(alloc, command, "line")?;
    let command = with_name(alloc, command, "train")?;
    let command = with_name(alloc, command, "service")?;
    let command = with_name(alloc, command, "events")?;
    let command = with_option(alloc, command, "step", "100")?;
    let command = with_option(alloc, command, "splits", "2000")?;
    let command = with_option(alloc, command, "tolerance", "10")?;
    Ok(command)
}

/// The names and numbers of the command `session`.
#[derive(Drop)]
pub struct SessionWords<'a> {
    /// The name of the line's file.
    pub line: &'a str,
    /// The name of the train's file.
    pub train: &'a str,
    /// The name of the service's file.
    pub service: &'a str,
    /// The name of the events' file.
    pub events: &'a str,
    /// The step of the grid, m, 10 to 1,000.
    pub step: u32,
    /// How many cells may be split for each advice, 0 to 50,000.
    pub splits: u32,
    /// The tolerance, per mille, 0 to 1,000.
    pub tolerance: u32,
    pub ghost step_within: { (10 ≤ step) × (step ≤ 1000) },
    pub ghost splits_within: { splits ≤ 50000 },
    pub ghost tolerance_within: { tolerance ≤ 1000 },
}

/// The names and numbers of the command `session`, or none where the words are refused.
pub fn read_session_words<'a>(
    alloc: Global,
    words: &'a Words,
) -> Result<Option<SessionWords<'a>>, AllocError>
    ensures { IfOk result (λ r. MatchOption r (session_of_rows (taken session_app words.entry.now) ≡ Usage)
        (λ w. session_of_rows (taken session_app words.entry.now)
        ≡ Session w.line.now w.train.now w.service.now w.events.now w.step w.splits w.tolerance)) }
{
    let command = session_command(alloc)?;
    match matches_of(command, words)? {
        Some(matches) => Ok(session_words(&matches)),
        None => Ok(None),
    }
}

/// What the matches of the command `session` say, or none where a number is refused.
fn session_words<'a>(matches: &ArgMatches<'a>) -> Option<SessionWords<'a>>
    ensures { MatchOption result (session_of_rows (Some (rows_of (found_of matches.now))) ≡ Usage)
        (λ w. session_of_rows (Some (rows_of (found_of matches.now)))
        ≡ Session w.line.now w.train.now w.service.now w.events.now w.step w.splits w.tolerance) }
{
    let step = number_in(value_of(matches, "step"), 10, 1000)?;
    let splits = number_in(value_of(matches, "splits"), 0, 50_000)?;
    let tolerance = number_in(value_of(matches, "tolerance"), 0, 1000)?;
    Some(SessionWords {
        line: value_of(matches, "line"),
        train: value_of(matches, "train"),
        service: value_of(matches, "service"),
        events: value_of(matches, "events"),
        step,
        splits,
        tolerance,
    })
}
