//! Where speeds are late first.
ghost use Rattle.std.specs.Prelude.{◌≡◌, ℕ, ◌+◌, ◌-◌, ◌*◌, ◌<◌, ◌≤◌, pos, IfSome, IfNone, List, length, slice_index};
ghost use Rattle.rail_specs.specs.Rules.{IsDrive, timing_at};
ghost use Rattle.rail_specs.specs.Times.{arrival_up, IsOnTimeUp, IsFirstLate};
ghost use Rattle.drive_rules.specs.Verdict.{Moves};

use crate::rules::Rules;
use step_time_bounds::times_fall;

/// Where a drive is late first.
#[derive(Clone, Copy, PartialEq, Eq, Debug)]
pub struct LateAt {
    /// The index of the timing point in `Rules::timings`.
    pub timing: u32,
    /// The arrival there, ms from the start, each step's time rounded up.
    pub arrival: u64,
}

impl Rules {
    /// The first timing point that speeds reach too late, whether or not they are a drive.
    pub(crate) fn late_at(&self, speeds: &[u16]) -> Option<LateAt>
        requires count { length speeds.now ≡ length self.now.steps + 1 }
        requires moving { Moves self.now speeds.now }
        ensures on_time { IfNone result (IsOnTimeUp self.now speeds.now) }
        ensures late { IfSome result (λ at. IsFirstLate self.now speeds.now at.timing) }
        ensures arrival { IfSome result (λ at. at.arrival ≡ arrival_up self.now speeds.now (timing_at self.now at.timing).point) }
    {
        self.known();
        let timings = self.timings();
        let mut point = 0;
        let mut time = 0;
        for j in 0..timings.len() {
            let at = timings[j];
            time = self.time_at(speeds, point, time, at.point as usize);
            point = at.point as usize;
            if time as i64 > at.latest {
                return Some(LateAt {
                    timing: j as u32,
                    arrival: time,
                });
            }
        }
        None
    }

    /// The first timing point that a drive reaches too late, and `None` exactly where the drive is on time.
    ///
    /// The speeds are in cm/s, one for each point. It takes no memory.
    pub fn first_late(&self, speeds: &[u16]) -> Option<LateAt>
        requires { IsDrive self.now speeds.now }
        ensures on_time { IfNone result (IsOnTimeUp self.now speeds.now) }
        ensures late { IfSome result (λ at. IsFirstLate self.now speeds.now at.timing) }
        // No drive that is nowhere faster is on time either.
        ensures slower { IfSome result (λ at. (d : List ℕ) → IsDrive self.now d → ((k : ℕ) → slice_index d k ≤ slice_index speeds.now k) → IsOnTimeUp self.now d → ⊥) }
        ensures arrival { IfSome result (λ at. at.arrival ≡ arrival_up self.now speeds.now (timing_at self.now at.timing).point) }
    {
        self.known();
        times_fall();
        self.late_at(speeds)
    }
}
