//! Which links between cells are possible.
ghost use Rattle.std.specs.Prelude.{◌≡◌, ◌^◌, ◌<◌, length, IfSome, IfNone, IsTrue, IsFalse};
ghost use Rattle.std.specs.Int.RustNames.{unsigned_abs};
ghost use Rattle.bound_specs.specs.Cells.{IsCell};
ghost use Rattle.bound_specs.specs.Links.{can_link};
ghost use Rattle.rail_specs.specs.Rules.{step_at};
ghost use Rattle.rail_specs.specs.Step.{work as work_of};

use drive_rules::Rules;
use force_table::SpeedTable;
use rail_base::Cell;

/// The work from the fastest speed of cell a to the slowest of cell b over step i, in 0.5 microjoule, or none where the link isn't
/// possible.
///
/// What the step, the train and cell a decide comes before the first test of cell b, so that a loop over cells b can keep it at hand;
/// and the traction is tested early, since most links that aren't possible fail there.
pub(crate) fn link_work(rules: &Rules, i: usize, a: Cell, b: Cell) -> Option<i64>
    requires step { i < length rules.now.steps }
    requires entry { IsCell a }
    requires exit { IsCell b }
    ensures possible { IfSome result (λ w. IsTrue (can_link rules.now i a b) × (w ≡ work_of (step_at rules.now i) a.last b.first) × (unsigned_abs w < 2 ^ 62)) }
    ensures impossible { IfNone result (IsFalse (can_link rules.now i a b)) }
{
    let row = *rules.row(i);
    let most = rules.limit(i).min(rules.top());
    if a.first > most {
        return None;
    }
    let brake = rules.brake().at(a.first);
    if b.first > most {
        return None;
    }
    let work = row.short_work(a.last, b.first);
    if !row.is_pulled(work, rules.traction().at(b.first)) {
        return None;
    }
    if a.last as u32 + b.last as u32 == 0 {
        return None;
    }
    let greatest_work = row.short_work(a.first, b.last);
    if !row.is_held(greatest_work, brake) {
        return None;
    }
    Some(work)
}
