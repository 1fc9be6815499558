//! The latest time of a point, set or added.

ghost use Rattle.std.specs.Prelude.{◌≡◌, ◌≤◌, ℕ, ℤ, length, OnOk, OnErr};
ghost use Rattle.std.specs.Int.RustNames.{unsigned_abs};
ghost use Rattle.rail_specs.specs.Rules.{Rules};
ghost use Rattle.rule_parts.specs.Shaped.{rules_of, IsShaped, Rises};
ghost use Rattle.rule_changes.specs.Latest.{HasRoom, IsLatestSet, IsPlaceOf, StaysJoined, with_latest, with_latest_at};

use rail_specs::Timing;
use rule_parts::Parts;
use std::alloc::AllocError;

/// Where a point stands, or would stand, among timing points.
fn place_of(timings: &[Timing], point: u32) -> usize
    requires { Rises timings.now }
    ensures { IsPlaceOf timings.now point result }
{
    timings.partition_point(|timing| timing.point < point)
}

/// Puts a timing point in the place of that of its point, or between those before and behind it where its point has none.
fn put(timings: &mut Vec<Timing>, timing: Timing) -> Result<(), AllocError>
    requires { Rises timings.old.items }
    ensures set { OnOk result (timings.new.items ≡ with_latest timings.old.items timing.point timing.latest) }
    ensures others { OnOk result (IsLatestSet timings.old.items timing.point timing.latest timings.new.items) }
    ensures refused { OnErr result (timings.new.items ≡ timings.old.items) }
{
    let h = place_of(timings, timing.point);
    if h < timings.len() && timings[h].point == timing.point {
        timings[h] = timing;
    } else {
        timings.insert(h, timing)?;
    }
    Ok(())
}

/// Sets the latest time of a point, in ms, or adds it where the point has none, and leaves all else. Want of memory changes nothing.
pub fn set_latest(parts: &mut Parts, point: u32, latest: i64) -> Result<(), AllocError>
    requires shaped { IsShaped (rules_of parts.old) }
    requires after { 1 ≤ point }
    requires there { point ≤ length parts.old.rows.items }
    requires room { length (with_latest parts.old.timings.items point latest) ≤ 64 }
    requires small { unsigned_abs latest ≤ 172800000 }
    ensures set { OnOk result (rules_of parts.new ≡ with_latest_at (rules_of parts.old) point latest) }
    ensures others { OnOk result (IsLatestSet parts.old.timings.items point latest parts.new.timings.items) }
    ensures joined { OnOk result (StaysJoined point latest (rules_of parts.old) (rules_of parts.new)) }
    ensures refused { OnErr result (rules_of parts.new ≡ rules_of parts.old) }
    ensures shaped { IsShaped (rules_of parts.new) }
{
    put(&mut parts.timings, Timing { point, latest })
}

/// What holds of joined rules: they have room for the latest time of a call wherever at most 64 calls after the first have one then.
pub fn room_for_latest()
    ensures { (r : Rules) (point : ℕ) (latest : ℤ) → HasRoom r point latest }
{}
