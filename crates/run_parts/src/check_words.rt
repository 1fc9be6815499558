//! The words of the command `check`.

ghost use Rattle.std.specs.Prelude.{◌≡◌, ◌≤◌, None, Some, IfOk, MatchOption};
ghost use Rattle.clap.specs.Words.{app_of, found_of, rows_of};
ghost use Rattle.run_parts.specs.Words.{check_app, check_of_rows, taken};

use crate::command_line::{matches_of, number_in, value_of, with_name, with_option};
use crate::words::Words;
use clap::{ArgMatches, Command};
use std::alloc::{AllocError, Global};

/// The command `check LINE TRAIN SERVICE REPORT [--step N]`.
fn check_command<'a>(alloc: Global) -> Result<Command<'a>, AllocError>
    ensures { IfOk result (λ c. app_of c ≡ check_app) }
{
    let command = Command::new(alloc, "check");
    let command = with_name(alloc, command, "line")?;
    let command = with_name(alloc, command, "train")?;
    let command = with_name(alloc, command, "service")?;
    let command = with_name(alloc, command, "report")?;
    let command = with_option(alloc, command, "step", "100")?;
    Ok(command)
}

/// The names and the number of the command `check`.
#[derive(Drop)]
pub struct CheckWords<'a> {
    /// The name of the line's file.
    pub line: &'a str,
    /// The name of the train's file.
    pub train: &'a str,
    /// The name of the service's file.
    pub service: &'a str,
    /// The name of the report's file.
    pub report: &'a str,
    /// The step of the grid, m, 10 to 1,000.
    pub step: u32,
    pub ghost step_within: { (10 ≤ step) × (step ≤ 1000) },
}

/// The names and the number of the command `check`, or none where the words are refused.
pub fn read_check_words<'a>(
    alloc: Global,
    words: &'a Words,
) -> Result<Option<CheckWords<'a>>, AllocError>
    ensures { IfOk result (λ r. MatchOption r (check_of_rows (taken check_app words.entry.now) ≡ None)
        (λ w. check_of_rows (taken check_app words.entry.now) ≡ Some (w.line.now, (w.train.now, (w.service.now, (w.report.now, w.step)))))) }
{
    let command = check_command(alloc)?;
    match matches_of(command, words)? {
        Some(matches) => Ok(check_words(&matches)),
        None => Ok(None),
    }
}

/// What the matches of the command `check` say, or none where the number is refused.
fn check_words<'a>(matches: &ArgMatches<'a>) -> Option<CheckWords<'a>>
    ensures { MatchOption result (check_of_rows (Some (rows_of (found_of matches.now))) ≡ None)
        (λ w. check_of_rows (Some (rows_of (found_of matches.now))) ≡ Some (w.line.now, (w.train.now, (w.service.now, (w.report.now, w.step))))) }
{
    let step = number_in(value_of(matches, "step"), 10, 1000)?;
    Some(CheckWords {
        line: value_of(matches, "line"),
        train: value_of(matches, "train"),
        service: value_of(matches, "service"),
        report: value_of(matches, "report"),
        step,
    })
}
