//! The words of a command line, read by clap: one simple command for each first word.

ghost use Rattle.std.specs.Prelude.{◌≡◌, ◌≤◌, Some, IfOk, MatchOption};
ghost use Rattle.clap.specs.Words.{app_of, found_of, rows_of};
ghost use Rattle.run_parts.specs.Words.{taken};
ghost use Rattle.costate_run.specs.Words.{Plan, Route, Usage, plan_app, plan_of_rows, route_app, route_of_rows};

use clap::{ArgMatches, Command};
use run_parts::{Words, matches_of, number_in, value_of, with_name, with_option};
use std::alloc::{AllocError, Global};

/// The command `route FILE [--tolerance N]`.
fn route_command<'a>(alloc: Global) -> Result<Command<'a>, AllocError>
    ensures { IfOk result (λ c. app_of c ≡ route_app) }
{
    let command = Command::new(alloc, "route");
    let command = with_name(alloc, command, "file")?;
    let command = with_option(alloc, command, "tolerance", "10")?;
    Ok(command)
}

/// The command `plan LINE TRAIN SERVICE [--step N] [--tolerance N]`.
fn plan_command<'a>(alloc: Global) -> Result<Command<'a>, AllocError>
    ensures { IfOk result (λ c. app_of c ≡ plan_app) }
{
    let command = Command::new(alloc, "plan");
    let command = with_name(alloc, command, "line")?;
    let command = with_name(alloc, command, "train")?;
    let command = with_name(alloc, command, "service")?;
    let command = with_option(alloc, command, "step", "100")?;
    let command = with_option(alloc, command, "tolerance", "10")?;
    Ok(command)
}

/// The name and the number of the command `route`.
#[derive(Drop)]
pub struct RouteWords<'a> {
    /// The name of the route's file.
    pub file: &'a str,
    /// The tolerance, per mille, 0 to 1,000.
    pub tolerance: u32,
    pub ghost tolerance_within: { tolerance ≤ 1000 },
}

/// The name and the number of the command `route`, or none where the words are refused.
pub fn read_route_words<'a>(
    alloc: Global,
    words: &'a Words,
) -> Result<Option<RouteWords<'a>>, AllocError>
    ensures { IfOk result (λ r. MatchOption r (route_of_rows (taken route_app words.entry.now) ≡ Usage)
        (λ w. route_of_rows (taken route_app words.entry.now) ≡ Route w.file.now w.tolerance)) }
{
    let command = route_command(alloc)?;
    match matches_of(command, words)? {
        Some(matches) => Ok(route_words(&matches)),
        None => Ok(None),
    }
}

/// What the matches of the command `route` say, or none where the number is refused.
fn route_words<'a>(matches: &ArgMatches<'a>) -> Option<RouteWords<'a>>
    ensures { MatchOption result (route_of_rows (Some (rows_of (found_of matches.now))) ≡ Usage)
        (λ w. route_of_rows (Some (rows_of (found_of matches.now))) ≡ Route w.file.now w.tolerance) }
{
    let tolerance = number_in(value_of(matches, "tolerance"), 0, 1000)?;
    Some(RouteWords {
        file: value_of(matches, "file"),
        tolerance,
    })
}

/// The names and numbers of the command `plan`.
#[derive(Drop)]
pub struct PlanWords<'a> {
    /// The name of the line's file.
    pub line: &'a str,
    /// The name of the train's file.
    pub train: &'a str,
    /// The name of the service's file.
    pub service: &'a str,
    /// The step of the grid, m, 10 to 1,000.
    pub step: u32,
    /// The tolerance, per mille, 0 to 1,000.
    pub tolerance: u32,
    pub ghost step_within: { (10 ≤ step) × (step ≤ 1000) },
    pub ghost tolerance_within: { tolerance ≤ 1000 },
}

/// The names and numbers of the command `plan`, or none where the words are refused.
pub fn read_plan_words<'a>(
    alloc: Global,
    words: &'a Words,
) -> Result<Option<PlanWords<'a>>, AllocError>
    ensures { IfOk result (λ r. MatchOption r (plan_of_rows (taken plan_app words.entry.now) ≡ Usage)
        (λ w. plan_of_rows (taken plan_app words.entry.now) ≡ Plan w.line.now w.train.now w.service.now w.step w.tolerance)) }
{
    let command = plan_command(alloc)?;
    match matches_of(command, words)? {
        Some(matches) => Ok(plan_words(&matches)),
        None => Ok(None),
    }
}

/// What the matches of the command `plan` say, or none where a number is refused.
fn plan_words<'a>(matches: &ArgMatches<'a>) -> Option<PlanWords<'a>>
    ensures { MatchOption result (plan_of_rows (Some (rows_of (found_of matches.now))) ≡ Usage)
        (λ w. plan_of_rows (Some (rows_of (found_of matches.now))) ≡ Plan w.line.now w.train.now w.service.now w.step w.tolerance) }
{
    let step = number_in(value_of(matches, "step"), 10, 1000)?;
    let tolerance = number_in(value_of(matches, "tolerance"), 0, 1000)?;
    Some(PlanWords {
        line: value_of(matches, "line"),
        train: value_of(matches, "train"),
        service: value_of(matches, "service"),
        step,
        tolerance,
    })
}
