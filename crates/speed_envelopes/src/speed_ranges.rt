//! The exact range of speeds at each point.
ghost use Rattle.std.specs.Prelude.{◌≡◌, ℕ, ◌≤◌, ◌<◌, length, slice_index, zip, All, IfOk};
ghost use Rattle.speed_envelopes.specs.Lists.{AreInOrder};

use drive_rules::Drive;
use std::alloc::{AllocError, Global};
use std::marker::Model;

/// At each point the least and the greatest speed, in cm/s, that the drives under a narrowing have there. Both lists are
/// such drives.
///
/// Contracts see the two lists.
#[derive(Drop)]
pub struct Ranges {
    low: Drive,
    high: Drive,
}

impl Model for Ranges {
    ghost use Rattle.speed_envelopes.specs.Lists.{RangeLists, AreInOrder};

    ghost Value = { RangeLists };

    ghost view = { λ r. record { low = r.low; high = r.high } };

    ghost invariant = { λ r. AreInOrder (record { low = r.low; high = r.high }) };
}

impl Ranges {
    /// The ranges between two drives.
    pub(crate) fn new(low: Drive, high: Drive) -> Ranges
        requires { AreInOrder (record { low = low; high = high }) }
        ensures { result ≡ record { low = low; high = high } }
    {
        Ranges { low, high }
    }

    /// The number of points, at least one. It takes no memory.
    pub fn points(&self) -> usize
        ensures value { result ≡ length self.now.high }
        ensures both { result ≡ length self.now.low }
        ensures some { 1 ≤ result }
    {
        self.high.speeds().len()
    }

    /// The least speed at point i, cm/s. It takes no memory.
    pub fn low(&self, i: usize) -> u16
        requires { i < length self.now.low }
        ensures { result ≡ slice_index self.now.low i }
    {
        self.low.speeds()[i]
    }

    /// The greatest speed at point i, cm/s. It takes no memory.
    pub fn high(&self, i: usize) -> u16
        requires { i < length self.now.high }
        ensures { result ≡ slice_index self.now.high i }
    {
        self.high.speeds()[i]
    }

    /// The greatest drive. `AllocError` is want of memory.
    pub fn greatest(&self, alloc: Global) -> Result<Drive, AllocError>
        ensures { IfOk result (λ drive. drive ≡ self.now.high) }
    {
        Drive::make(alloc, self.high.speeds())
    }

    /// The least drive. `AllocError` is want of memory.
    pub fn least(&self, alloc: Global) -> Result<Drive, AllocError>
        ensures { IfOk result (λ drive. drive ≡ self.now.low) }
    {
        Drive::make(alloc, self.low.speeds())
    }

    /// Per point the least and the greatest speed, cm/s. `AllocError` is want of memory.
    pub fn pairs(&self, alloc: Global) -> Result<Vec<(u16, u16)>, AllocError>
        ensures pairs { IfOk result (λ pairs. pairs.items ≡ zip self.now.low self.now.high) }
        ensures some { IfOk result (λ pairs. 1 ≤ length pairs.items) }
        ensures ordered { IfOk result (λ pairs. All (λ p. (p.0 ≤ p.1) × (p.1 ≤ 12000)) pairs.items) }
    {
        self.low
            .speeds()
            .iter()
            .copied()
            .zip(self.high.speeds().iter().copied())
            .collect(alloc)
    }
}
