//! The words of the command `sample`.

ghost use Rattle.std.specs.Prelude.{◌≡◌, ◌≤◌, Some, IfOk, MatchOption};
ghost use Rattle.clap.specs.Words.{app_of, found_of, rows_of};
ghost use Rattle.run_parts.specs.Words.{taken};
ghost use Rattle.advice_run.specs.Words.{Sample, Usage, sample_app, sample_of_rows};

use clap::{ArgMatches, Command};
use run_parts::{Words, matches_of, number_in, value_of, with_name, with_option};
use std::alloc::{AllocError, Global};

/// The command `sample N [--splits N] [--tolerance N]`.
fn sample_command<'a>(alloc: Global) -> Result<Command<'a>, AllocError>
    ensures { IfOk result (λ c. app_of c ≡ sample_app) }
{
    let command = Command::new(alloc, "sample");
    let command = with_name(alloc, command, "number")?;
    let command = with_option(alloc, command, "splits", "2000")?;
    let command = with_option(alloc, command, "tolerance", "10")?;
    Ok(command)
}

/// The numbers of the command `sample`.
#[derive(Clone, Copy)]
pub struct SampleWords {
    /// The number of the sample.
    pub number: u32,
    /// How many cells may be split, 0 to 50,000.
    pub splits: u32,
    /// The tolerance, per mille, 0 to 1,000.
    pub tolerance: u32,
    pub ghost splits_within: { splits ≤ 50000 },
    pub ghost tolerance_within: { tolerance ≤ 1000 },
}

/// The numbers of the command `sample`, or none where the words are refused.
pub fn read_sample_words(alloc: Global, words: &Words) -> Result<Option<SampleWords>, AllocError>
    ensures { IfOk result (λ r. MatchOption r (sample_of_rows (taken sample_app words.now) ≡ Usage)
        (λ w. sample_of_rows (taken sample_app words.now) ≡ Sample w.number w.splits w.tolerance)) }
{
    let command = sample_command(alloc)?;
    match matches_of(command, words)? {
        Some(matches) => Ok(sample_words(&matches)),
        None => Ok(None),
    }
}

/// What the matches of the command `sample` say, or none where a number is refused.
fn sample_words<'a>(matches: &ArgMatches<'a>) -> Option<SampleWords>
    ensures { MatchOption result (sample_of_rows (Some (rows_of (found_of matches.now))) ≡ Usage)
        (λ w. sample_of_rows (Some (rows_of (found_of matches.now))) ≡ Sample w.number w.splits w.tolerance) }
{
    let number = number_in(value_of(matches, "number"), 0, u32::MAX)?;
    let splits = number_in(value_of(matches, "splits"), 0, 50_000)?;
    let tolerance = number_in(value_of(matches, "tolerance"), 0, 1000)?;
    Some(SampleWords {
        number,
        splits,
        tolerance,
    })
}
