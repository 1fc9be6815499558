//! The timing points of a service.

ghost use Rattle.std.specs.Prelude.{◌≡◌, ◌-◌, ◌*◌, ◌<◌, ◌≤◌, ℕ, pos, ◌-ℤ◌, Contains, length, slice_index, IfOk};
ghost use Rattle.std.specs.Int.RustNames.{unsigned_abs};
ghost use Rattle.line_file.specs.Shape.{AreCalls};
ghost use Rattle.line_file.specs.ServiceText.{latest_count};
ghost use Rattle.joined_rules.specs.Joined.{first_place, AreTimings};
ghost use Rattle.joined_rules.specs.JoinedParts.{HaveCallPlaces, Rising};

use line_file::Call;
use rail_specs::Timing;
use std::alloc::{AllocError, Global};

/// The point at a place, from this point on.
fn point_from(places: &[u32], first: usize, place: u32) -> usize
    requires rising { Rising places.now }
    requires before { (j : ℕ) → j < first → slice_index places.now j < place }
    requires there { Contains places.now place }
    ensures there { result < length places.now }
    ensures at { slice_index places.now result ≡ place }
    ensures from { first ≤ result }
{
    let mut k = first;
    while places[k] < place {
        k += 1;
    }
    k
}

/// A latest time in ms from the clock on.
fn latest_after(seconds: u32, clock: u32) -> i64
    requires seconds { seconds ≤ 172800 }
    requires clock { clock ≤ 172800 }
    ensures value { result ≡ pos (1000 * seconds) -ℤ pos (1000 * clock) }
    ensures small { unsigned_abs result ≤ 172800000 }
{
    (1000 * seconds) as i64 - (1000 * clock) as i64
}

/// The timing points: those of the calls after the start that have a latest time.
pub(crate) fn timings_of_calls(
    alloc: Global,
    calls: &[Call],
    places: &[u32],
    clock: u32,
) -> Result<Vec<Timing>, AllocError>
    requires calls { AreCalls calls.now }
    requires rising { Rising places.now }
    requires some { 1 ≤ length places.now }
    requires few { length places.now ≤ 4001 }
    requires start { first_place calls.now ≤ slice_index places.now 0 }
    requires there { HaveCallPlaces places.now calls.now }
    requires clock { clock ≤ 172800 }
    ensures timings { IfOk result (λ timings. AreTimings calls.now (slice_index places.now 0) clock places.now timings.items) }
    ensures few { IfOk result (λ timings. length timings.items ≤ latest_count calls.now) }
{
    let mut timings = Vec::new(alloc);
    let mut point = 0;
    for j in 1..calls.len() {
        if let Some(seconds) = calls[j].latest {
            if places[0] < calls[j].place {
                point = point_from(places, point, calls[j].place);
                timings.push(Timing {
                    point: point as u32,
                    latest: latest_after(seconds, clock),
                })?;
            }
        }
    }
    Ok(timings)
}
