//! The points of rules by their places.

ghost use Rattle.std.specs.Prelude.{◌≡◌, ◌+◌, ◌≤◌, length};
ghost use Rattle.advice_session.specs.Faults.{is_stop_next, point_behind};

use drive_rules::Rules;

/// The first point of the rules behind a place, or the number of points.
pub(crate) fn point_behind(rules: &Rules, place: u32) -> usize
    ensures value { result ≡ point_behind rules.now place }
    ensures there { result ≤ length rules.now.steps + 1 }
{
    rules.known();
    let points = rules.points();
    for k in 0..points {
        if rules.place(k) > place {
            return k;
        }
    }
    points
}

/// Whether the next point behind a place is a stop.
pub(crate) fn is_stop_next(rules: &Rules, place: u32) -> bool
    ensures { result ≡ is_stop_next rules.now place }
{
    rules.known();
    let k = point_behind(rules, place);
    k < rules.points() && rules.stop(k)
}
