//! The words of a program's arguments.

ghost use Rattle.std.specs.Prelude.{◌≡◌, IfErr, IsErr, IfOk, drop, map, string_bytes};
ghost use Rattle.std.specs.IoError.{error_kind};
ghost use Rattle.std.specs.Vec.Iter.{into_iter_items};
ghost use Rattle.run_parts.specs.Runs.{words_behind};

use crate::words::Words;
use std::alloc::{AllocError, Global};
use std::io::ErrorKind;
use std::{env, io};

/// The arguments behind the first, all of them, whatever they begin with.
fn words_after_name(alloc: Global, args: env::Args) -> Result<Words, AllocError>
    ensures { IfOk result (λ words. words ≡ drop 1 (map string_bytes (into_iter_items args))) }
{
    let mut args = args;
    args.next();
    let mut words = Words::new(alloc);
    while let Some(arg) = args.next() {
        words.push(arg.as_str())?;
    }
    Ok(words)
}

/// The words of a program's arguments. Arguments that are no texts are read as no words at all, which ask for nothing.
pub fn words_of(alloc: Global, args: io::Result<env::Args>) -> Result<Words, AllocError>
    ensures words { IfOk result (λ words. words ≡ words_behind into_iter_items args) }
    ensures memory { IfErr args (λ e. error_kind e ≡ ErrorKind.OutOfMemory → IsErr result) }
{
    match args {
        Ok(args) => words_after_name(alloc, args),
        Err(error) if error.kind() == ErrorKind::OutOfMemory => Err(AllocError),
        Err(_) => Ok(Words::new(alloc)),
    }
}
