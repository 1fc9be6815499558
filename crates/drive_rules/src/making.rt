//! Rules from files: those of a route, and those that a line, a train, a service and a setup give together.

ghost use Rattle.std.specs.Prelude.{◌≡◌, ◌≢◌, ◌+◌, ◌≤◌, length, count_by, IfOk, IfErr};
ghost use Rattle.std.specs.Str.Lines.{lines};
ghost use Rattle.line_file.specs.Shape.{IsLine, IsService};
ghost use Rattle.train_file.specs.Shape.{IsTrain};
ghost use Rattle.route_file.specs.Route.{is_step_line, rows_made, rules_of_text, CountsRows};
ghost use Rattle.joined_rules.specs.Joined.{IsSetup, Joins, Refuses, CountsRows as CountsJoined};

use crate::rules::Rules;
use joined_rules::{RulesFault, Setup, join};
use line_file::{Line, Service};
use route_file::{RouteFault, read_parts};
use std::alloc::Global;
use std::sync::ledger::Ledger;
use step_energy::Steps;
use train_file::Train;

/// The rules of a route's text: from a standstill at place 0 over its steps to a stop at the last point, which is the
/// one timing point. `docs/FILES.md` has the form of the text, line by line.
///
/// The first line that is not as it should be is the refusal, lines counted from 1: `Form` where it is missing or not
/// of its form, or stands behind the end; `Range` where it is of its form and a number on it is out of range, where a
/// step's drag is too great for the train, or where it is the end with fewer than two steps before it; `TooManySteps`
/// where it begins as a 4,001st step does. `NoMemory` may come at any place.
///
/// It counts one step for each step line that it makes a row of: on `Ok` as many as the route has, and on a refusal the step lines before
/// the refused line, and that line too where its drag alone is too great.
pub fn read_route<L: Ledger>(
    alloc: Global,
    text: &[u8],
    steps: &mut Steps<L>,
) -> Result<Rules, RouteFault>
    ensures rules { result ≢ Err RouteFault.NoMemory → result ≡ rules_of_text text.now }
    ensures counted { IfOk result (λ rules. steps.new ≡ steps.old + length rules.steps) }
    ensures made { CountsRows result (rows_made text.now) steps.old steps.new }
    ensures least { steps.old ≤ steps.new }
    ensures most { steps.new ≤ steps.old + count_by is_step_line (lines text.now) }
{
    let parts = read_parts(alloc, text, steps)?;
    Ok(Rules::from_parts(parts))
}

impl Rules {
    /// The rules of a train that keeps to a service on a line from a setup on: the grid from the setup's place to the last call's,
    /// with the section's gradient and the least limit of what the train meets per step, the calls' stops and dwells per point, and their
    /// latest times in ms from the setup's clock on. Calls at or before the setup's place don't count. A limit holds until the train's tail
    /// has left its section or stretch, also where that ends before the setup's place; the gradient is that at the train's head.
    ///
    /// The first refusal in this order: `Outside` for the first call that isn't on the line; `TooManySteps` where there are more than
    /// 4,000 steps; `StopsTooClose` for the first call that is a stop next after another stop, or next after the start where the train
    /// stands there; `DragTooGreat` for the first step with too great a drag. `NoMemory` may come at any place.
    ///
    /// It counts one step for each row that it makes: on `Ok` as many as the rules have, after `DragTooGreat(i)` i + 1, after any other
    /// refusal none, and where memory runs out at most as many as the rules have.
    pub fn make<L: Ledger>(
        alloc: Global,
        line: &Line,
        train: &Train,
        service: &Service,
        setup: &Setup,
        steps: &mut Steps<L>,
    ) -> Result<Rules, RulesFault>
        requires line { IsLine line.now }
        requires train { IsTrain train.now }
        requires service { IsService service.now }
        requires setup { IsSetup service.now setup.now }
        ensures joined { IfOk result (Joins line.now train.now service.now setup.now) }
        ensures refused { IfErr result (Refuses line.now train.now service.now setup.now) }
        ensures counted { IfOk result (λ rules. steps.new ≡ steps.old + length rules.steps) }
        ensures made { CountsJoined result line.now service.now setup.now steps.old steps.new }
    {
        let parts = join(alloc, line, train, service, setup, steps)?;
        Ok(Rules::from_parts(parts))
    }
}
