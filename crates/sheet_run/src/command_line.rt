//! The words of a command line, read by clap as one simple command.

ghost use Rattle.std.specs.Prelude.{◌≡◌, ◌≤◌, Some, IfOk, MatchOption};
ghost use Rattle.clap.specs.Words.{app_of, found_of, rows_of};
ghost use Rattle.run_parts.specs.Words.{taken};
ghost use Rattle.sheet_run.specs.Words.{Show, Usage, form_of, sheet_app, show_of_rows, with_program};

use clap::{ArgMatches, Command};
use run_parts::{Words, matches_of, number_in, value_of, with_name, with_option};
use std::alloc::{AllocError, Global};

/// How a drive is shown.
#[derive(Clone, Copy, PartialEq, Eq, Debug)]
pub enum Form {
    /// A line for each call, and totals.
    Timetable,
    /// A row for each point of the grid, of comma-separated fields.
    Points,
    /// A picture.
    Svg,
}

/// The form of this name.
fn form_of(text: &str) -> Option<Form>
    ensures { result ≡ form_of text.now }
{
    match text {
        "timetable" => Some(Form::Timetable),
        "points" => Some(Form::Points),
        "svg" => Some(Form::Svg),
        _ => None,
    }
}

/// The command `sheet LINE TRAIN SERVICE REPORT [--step N] [--form FORM]`.
fn sheet_command<'a>(alloc: Global) -> Result<Command<'a>, AllocError>
    ensures { IfOk result (λ c. app_of c ≡ sheet_app) }
{
    let command = Command::new(alloc, "sheet");
    let command = with_name(alloc, command, "line")?;
    let command = with_name(alloc, command, "train")?;
    let command = with_name(alloc, command, "service")?;
    let command = with_name(alloc, command, "report")?;
    let command = with_option(alloc, command, "step", "100")?;
    let command = with_option(alloc, command, "form", "timetable")?;
    Ok(command)
}

/// The names, the number and the form that words ask for.
#[derive(Drop)]
pub struct SheetWords<'a> {
    /// The name of the line's file.
    pub line: &'a str,
    /// The name of the train's file.
    pub train: &'a str,
    /// The name of the service's file.
    pub service: &'a str,
    /// The name of the report's file.
    pub report: &'a str,
    /// The step of the grid, m, 10 to 1,000.
    pub step: u32,
    /// The form in which the drive is shown.
    pub form: Form,
    pub ghost step_within: { (10 ≤ step) × (step ≤ 1000) },
}

/// The words with the program's name in front, as clap takes them.
pub fn with_program(alloc: Global, words: &Words) -> Result<Words, AllocError>
    ensures { IfOk result (λ all. all ≡ with_program words.now) }
{
    let mut all = Words::new(alloc);
    all.push("sheet")?;
    for word in words.texts() {
        all.push(word.as_str())?;
    }
    Ok(all)
}

/// What words ask for, the program's name in front of them, or none where they are refused.
pub fn read_sheet_words<'a>(
    alloc: Global,
    words: &'a Words,
) -> Result<Option<SheetWords<'a>>, AllocError>
    ensures { IfOk result (λ r. MatchOption r (show_of_rows (taken sheet_app words.entry.now) ≡ Usage)
        (λ w. show_of_rows (taken sheet_app words.entry.now) ≡ Show w.line.now w.train.now w.service.now w.report.now w.step w.form)) }
{
    let command = sheet_command(alloc)?;
    match matches_of(command, words)? {
        Some(matches) => Ok(sheet_words(&matches)),
        None => Ok(None),
    }
}

/// What the matches say, or none where the step or the form is refused.
fn sheet_words<'a>(matches: &ArgMatches<'a>) -> Option<SheetWords<'a>>
    ensures { MatchOption result (show_of_rows (Some (rows_of (found_of matches.now))) ≡ Usage)
        (λ w. show_of_rows (Some (rows_of (found_of matches.now))) ≡ Show w.line.now w.train.now w.service.now w.report.now w.step w.form) }
{
    let step = number_in(value_of(matches, "step"), 10, 1000)?;
    let form = form_of(value_of(matches, "form"))?;
    Some(SheetWords {
        line: value_of(matches, "line"),
        train: value_of(matches, "train"),
        service: value_of(matches, "service"),
        report: value_of(matches, "report"),
        step,
        form,
    })
}
