//! Routes: the rules of a run as one text says them. `docs/FILES.md` has the form of the text, line by line.
#![tactic(auto)]

ghost use Rattle.std.specs.Prelude.{◌≡◌, ◌≢◌, ◌+◌, ◌≤◌, length, count_by, IfOk, IfErr, Ok, Err};
ghost use Rattle.std.specs.Str.Lines.{lines};
ghost use Rattle.route_file.specs.Route.{is_step_line, rows_made, rules_of_text, CountsRows};
ghost use Rattle.rule_parts.specs.Shaped.{rules_of, IsShaped};

mod data;
mod entries;
mod fault;
mod heading;
mod line;
mod making;

use crate::entries::read_steps;
use crate::heading::read_heading;
use crate::making::make_parts;
pub use fault::RouteFault;
use rail_base::text_lines;
use rule_parts::Parts;
use std::alloc::Global;
use std::sync::ledger::Ledger;
use step_energy::Steps;

/// The parts of the rules of a route's text: from a standstill at place 0 over its steps to a stop at the last point, which is the
/// one timing point.
///
/// The first line that is not as it should be is the refusal, lines counted from 1: `Form` where it is missing or not
/// of its form, or stands behind the end; `Range` where it is of its form and a number on it is out of range, where a
/// step's drag is too great for the train, or where it is the end with fewer than two steps before it; `TooManySteps`
/// where it begins as a 4,001st step does. `NoMemory` may come at any place.
///
/// It counts one step for each step line that it makes a row of: on `Ok` as many as the route has, and on a refusal the step lines before
/// the refused line, and that line too where its drag alone is too great.
pub fn read_parts<L: Ledger>(
    alloc: Global,
    text: &[u8],
    steps: &mut Steps<L>,
) -> Result<Parts, RouteFault>
    ensures rules { IfOk result (λ parts. Ok (rules_of parts) ≡ rules_of_text text.now) }
    ensures refused { IfErr result (λ e. e ≢ RouteFault.NoMemory → Err e ≡ rules_of_text text.now) }
    ensures shaped { IfOk result (λ parts. IsShaped (rules_of parts)) }
    ensures counted { IfOk result (λ parts. steps.new ≡ steps.old + length parts.rows.items) }
    ensures made { CountsRows result (rows_made text.now) steps.old steps.new }
    ensures least { steps.old ≤ steps.new }
    ensures most { steps.new ≤ steps.old + count_by is_step_line (lines text.now) }
{
    let mut lines = text_lines(text);
    let heading = read_heading(&mut lines)?;
    let lists = read_steps(alloc, &heading.train, lines, steps)?;
    let parts = make_parts(alloc, &heading, lists)?;
    Ok(parts)
}
