//! The program over what the system gives: a run over the words of its arguments.

ghost use Rattle.std.specs.Prelude.{◌≡◌, ◌≢◌, ◌≤◌, ◌-◌, ℕ, List, IfErr};
ghost use Rattle.std.specs.IoError.{error_kind};
ghost use Rattle.std.specs.Vec.Iter.{into_iter_items};
ghost use Rattle.edge_io.specs.Faults.{Rose};
ghost use Rattle.run_parts.specs.Runs.{Wrote, WroteFront, words_behind};
ghost use Rattle.sheet_run.specs.Words.{command_of};
ghost use Rattle.sheet_run.specs.Outcome.{MayWrite, Names};

use crate::program::run;
use command_files::status;
use edge_io::{Shelf, Sink};
use run_parts::words_of;
use std::alloc::Global;
use std::io::ErrorKind;
use std::sync::ledger::Ledger;
use std::{env, io};
use step_energy::Steps;

/// Runs the program over the arguments that the system gives: `run` with the words behind the first, which is the program's name. The
/// status is that of `run`, and 8 where there is no memory for the words.
pub fn run_arguments<S: Shelf, K: Sink, L: Ledger>(
    alloc: Global,
    args: io::Result<env::Args>,
    shelf: &mut S,
    sink: &mut K,
    steps: &mut Steps<L>,
) -> u8
    ensures memory { IfErr args (λ e. error_kind e ≡ ErrorKind.OutOfMemory → result ≡ 8) }

    // Where no put failed the whole text is written. It is the usage, the answer to the files, or a read fault whose
    // cause is that the count of the file's own name rose in this call.
    ensures whole { result ≢ 7 → result ≢ 8 →
        Wrote (MayWrite (command_of (words_behind into_iter_items args)) (S.contents shelf.old) (S.faults shelf.old) (S.faults shelf.new)
        (steps.new - steps.old)) (K.written sink.old) (K.written sink.new) result }

    // A write fault comes only where the sink's count rose in this call, and the front of a text of this very input is written.
    ensures write_fault { result ≡ 7 → Rose (K.faults sink.old) (K.faults sink.new) }
    ensures front { result ≡ 7 →
        WroteFront (MayWrite (command_of (words_behind into_iter_items args)) (S.contents shelf.old) (S.faults shelf.old) (S.faults shelf.new)
        (steps.new - steps.old)) (K.written sink.old) (K.written sink.new) }

    ensures no_memory { result ≡ 8 → K.written sink.new ≡ K.written sink.old }

    // No count of faults falls, neither a file's nor the sink's.
    ensures later { (n : List ℕ) → S.faults shelf.old n ≤ S.faults shelf.new n }
    ensures sink_later { K.faults sink.old ≤ K.faults sink.new }

    // Files are only read, and only those that the words name.
    ensures kept { (n : List ℕ) → S.contents shelf.new n ≡ S.contents shelf.old n }
    ensures others { (n : List ℕ) → (Names (command_of (words_behind into_iter_items args)) n → ⊥)
        → S.faults shelf.new n ≡ S.faults shelf.old n }
{
    match words_of(alloc, args) {
        Ok(words) => run(alloc, &words, shelf, sink, steps),
        Err(_) => status::NO_MEMORY,
    }
}
