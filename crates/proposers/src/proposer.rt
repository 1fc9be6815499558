//! What proposes drives.
ghost use Rattle.std.specs.Prelude.{◌≡◌, ◌≤◌, ◌+◌, ℕ, List, [], length, IfOk, OnOk, OnErr};
ghost use Rattle.rail_specs.specs.Rules.{IsDrive};
ghost use Rattle.proposers.specs.States.{Rose, Takes, state};

use drive_rules::{Drive, Rules};
use std::alloc::{AllocError, Global};

/// What proposes drives. An offer may be any list of speeds.
///
/// A box has a list of the drives that it still offers, a list of those that were taken since it last began, in their order, and a count
/// of begins that never falls. These three are its state.
pub trait Proposer: Drop {
    /// The drives still offered, in their order.
    ghost offers: { Self → List (List ℕ) };

    /// The offers taken since the last begin that was no refusal, in their order.
    ghost takes: { Self → List (List ℕ) };

    /// How often it was begun.
    ghost begins: { Self → ℕ };

    /// Begins anew from a drive of the rules. It then offers at most 4,096 drives, and none is taken yet; the count of begins has risen,
    /// or stands at 2^64 - 1. `AllocError` is want of memory, and changes nothing.
    fn begin(&mut self, alloc: Global, rules: &Rules, drive: &Drive) -> Result<(), AllocError>
        requires { IsDrive rules.now drive.now }
        ensures few { OnOk result (length (offers self.new) ≤ 4096) }
        ensures fresh { OnOk result (takes self.new ≡ []) }
        ensures counted { OnOk result (Rose (begins self.old) (begins self.new)) }
        ensures refused { OnErr result (state (offers self.new) (takes self.new) (begins self.new) ≡ state (offers self.old) (takes self.old) (begins self.old)) };

    /// The first of the drives still offered, which joins those that were taken, or `None` where none is left, and then nothing changes.
    /// `AllocError` is want of memory, and changes nothing.
    fn next(&mut self, alloc: Global) -> Result<Option<Drive>, AllocError>
        requires { length (offers self.old) + length (takes self.old) ≤ 4096 }
        ensures taken { IfOk result (λ d. Takes d (state (offers self.old) (takes self.old) (begins self.old)) (state (offers self.new) (takes self.new) (begins self.new))) }
        ensures refused { OnErr result (state (offers self.new) (takes self.new) (begins self.new) ≡ state (offers self.old) (takes self.old) (begins self.old)) };

    /// How many offers were taken since the last begin. It takes no memory.
    fn taken(&self) -> u32
        ensures { result ≡ length (takes self.now) };
}
