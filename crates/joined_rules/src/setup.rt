//! From where a train goes on: its place, speed and clock, and the stretches on which it must be slower.

ghost use Rattle.std.specs.Prelude.{◌≡◌, ◌<◌, ◌≤◌, [], length};
ghost use Rattle.joined_rules.specs.Joined.{IsSetup, first_place};
ghost use Rattle.line_file.specs.Shape.{IsService};

use line_file::Service;
use rail_base::ItemList;
use std::alloc::Global;

/// A stretch of the line with a lower speed limit.
#[derive(Clone, Copy, Debug, PartialEq, Eq)]
pub struct Stretch {
    /// Where the stretch begins, m.
    pub from: u32,
    /// Where it ends, m; above `from`.
    pub to: u32,
    /// The speed limit, cm/s, 1 to 12,000.
    pub limit: u16,
}

/// Stretches in any order.
pub type StretchList = ItemList<Stretch>;

/// From where, and how, a train goes on.
#[derive(Drop)]
pub struct Setup {
    /// The length of a step where nothing cuts it shorter, m, 10 to 1,000.
    pub step: u16,
    /// The train's place, m: from the first call's place to below the last call's.
    pub place: u32,
    /// The train's speed, cm/s, at most 12,000.
    pub speed: u16,
    /// The clock of the service at the train's place, s, at most 172,800.
    pub clock: u32,
    /// The stretches with a lower speed limit.
    pub stretches: StretchList,
}

impl Setup {
    /// At rest at the first call, with the clock at 0 and no stretch. It takes no memory.
    pub fn fresh(alloc: Global, step: u16, service: &Service) -> Setup
        requires { 0 < length service.now.calls }
        ensures step { result.step ≡ step }
        ensures place { result.place ≡ first_place service.now.calls }
        ensures speed { result.speed ≡ 0 }
        ensures clock { result.clock ≡ 0 }
        ensures stretches { result.stretches ≡ [] }
        ensures setup { IsService service.now → 10 ≤ step → step ≤ 1000 → IsSetup service.now result }
    {
        Setup {
            step,
            place: service.calls.items()[0].place,
            speed: 0,
            clock: 0,
            stretches: StretchList::new(alloc),
        }
    }
}
