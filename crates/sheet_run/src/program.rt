//! The program's top call.

ghost use Rattle.std.specs.Prelude.{◌≡◌, ◌≢◌, ◌≤◌, ◌-◌, ℕ, List};
ghost use Rattle.edge_io.specs.Faults.{Rose};
ghost use Rattle.run_parts.specs.Runs.{Wrote, WroteFront};
ghost use Rattle.sheet_run.specs.Words.{command_of};
ghost use Rattle.sheet_run.specs.Outcome.{MayWrite, Names};

use crate::command::answer;
use command_files::status;
use edge_io::{Shelf, Sink, put_all};
use run_parts::Words;
use std::alloc::Global;
use std::sync::ledger::Ledger;
use step_energy::Steps;

/// Does all that the program does: reads what the words ask for, fetches the files that they name, judges the drive of the report, and writes
/// one text. It gives the status that the program ends with:
///
/// - 0: the drive is kept and on time, and is shown;
/// - 2: the words ask for nothing, and the usage is written;
/// - 3: a file is too long or is refused, at its first fault, or the rules that the files give together are;
/// - 6: a file can't be read;
/// - 7: the text, or a part of it, can't be written;
/// - 8: there is no memory, and nothing is written;
/// - 9: the report is refused: the part that has its certificate isn't of its form, or its drive isn't kept.
///
/// Whether the bound holds isn't looked at: `check` of the program that made the report says so. `steps` counts the rows of steps that are
/// made: where rules are answered, as many as they have.
pub fn run<S: Shelf, K: Sink, L: Ledger>(
    alloc: Global,
    words: &Words,
    shelf: &mut S,
    sink: &mut K,
    steps: &mut Steps<L>,
) -> u8
    // Where no put failed the whole text is written. It is the usage, the answer to the files, or a read fault whose
    // cause is that the count of the file's own name rose in this call.
    ensures whole { result ≢ 7 → result ≢ 8 →
        Wrote (MayWrite (command_of words.now) (S.contents shelf.old) (S.faults shelf.old) (S.faults shelf.new)
        (steps.new - steps.old)) (K.written sink.old) (K.written sink.new) result }

    // A write fault comes only where the sink's count rose in this call, and the front of a text of this very input is written.
    ensures write_fault { result ≡ 7 → Rose (K.faults sink.old) (K.faults sink.new) }
    ensures front { result ≡ 7 →
        WroteFront (MayWrite (command_of words.now) (S.contents shelf.old) (S.faults shelf.old) (S.faults shelf.new)
        (steps.new - steps.old)) (K.written sink.old) (K.written sink.new) }

    ensures no_memory { result ≡ 8 → K.written sink.new ≡ K.written sink.old }

    // No count of faults falls, neither a file's nor the sink's.
    ensures later { (n : List ℕ) → S.faults shelf.old n ≤ S.faults shelf.new n }
    ensures sink_later { K.faults sink.old ≤ K.faults sink.new }

    // Files are only read, and only those that the words name.
    ensures kept { (n : List ℕ) → S.contents shelf.new n ≡ S.contents shelf.old n }
    ensures others { (n : List ℕ) → (Names (command_of words.now) n → ⊥) → S.faults shelf.new n ≡ S.faults shelf.old n }
{
    match answer(alloc, words, shelf, steps) {
        Ok(answer) => match put_all(sink, answer.text.as_slice()) {
            Ok(()) => answer.status,
            Err(_) => status::WRITE_FAULT,
        },
        Err(_) => status::NO_MEMORY,
    }
}
