//! The words of a command line, read by clap: what the simple commands are made of, and what is taken of their matches.

ghost use Rattle.std.specs.Prelude.{◌≡◌, ◌≤◌, true, IfOk, IfSome, option_map};
ghost use Rattle.clap.specs.Words.{app_of, found_of, is_simple_and_free, rows_of, with_rule};
ghost use Rattle.run_parts.specs.Words.{number_in, option, positional, taken, value_of};

use crate::words::Words;
use clap::error::ErrorKind;
use clap::{Arg, ArgAction, ArgMatches, Command};
use rail_base::read_digits;
use std::alloc::{AllocError, Global};

/// A command with one more required positional.
pub fn with_name<'a>(
    alloc: Global,
    command: Command<'a>,
    id: &'a str,
) -> Result<Command<'a>, AllocError>
    ensures { IfOk result (λ c. app_of c ≡ with_rule (app_of command.entry) (positional id.entry.now)) }
{
    command.arg(Arg::new(alloc, id).required(true).action(ArgAction::Set))
}

/// A command with one more long option.
pub fn with_option<'a>(
    alloc: Global,
    command: Command<'a>,
    id: &'a str,
    standard: &'a str,
) -> Result<Command<'a>, AllocError>
    ensures { IfOk result (λ c. app_of c ≡ with_rule (app_of command.entry) (option id.entry.now standard.entry.now)) }
{
    let arg = Arg::new(alloc, id)
        .long(id)
        .action(ArgAction::Set)
        .default_value(standard);
    command.arg(arg)
}

/// The matches of a command, or none where it refuses the words.
pub fn matches_of<'a>(
    command: Command<'a>,
    words: &'a Words,
) -> Result<Option<ArgMatches<'a>>, AllocError>
    requires { is_simple_and_free (app_of command) ≡ true }
    ensures { IfOk result (λ r. option_map (λ m. rows_of (found_of m)) r ≡ taken (app_of command.entry) words.entry.now) }
{
    match command.try_get_matches_from(words.texts()) {
        Ok(matches) => Ok(Some(matches)),
        Err(error) => match error.kind() {
            ErrorKind::OutOfMemory => Err(AllocError),
            _ => Ok(None),
        },
    }
}

/// A value of the matches.
pub fn value_of<'a>(matches: &ArgMatches<'a>, id: &str) -> &'a str
    ensures { result.now ≡ value_of id.now (rows_of (found_of matches.now)) }
{
    match matches.get_str(id) {
        Some(text) => text,
        None => "",
    }
}

/// The number of 1 to 10 decimal digits in a range.
pub fn number_in(text: &str, low: u32, high: u32) -> Option<u32>
    ensures value { result ≡ number_in low high text.now }
    ensures within { IfSome result (λ n. (low ≤ n) × (n ≤ high)) }
{
    match read_digits(text.as_bytes(), 10) {
        Some(number) if low as u64 <= number && number <= high as u64 => Some(number as u32),
        _ => None,
    }
}
