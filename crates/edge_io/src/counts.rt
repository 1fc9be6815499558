//! Counts of faults by name.

ghost use Rattle.std.specs.Prelude.{◌≡◌, ℕ, List, IsTrue, OnErr, OnOk, if◌then◌else◌};
ghost use Rattle.std.specs.Str.{bytes_eq};
ghost use Rattle.edge_io.specs.Counts.{count_in, has_name, raised};

use std::alloc::{AllocError, Global};
use std::collections::BTreeMap;
use std::marker::Model;

/// Counts by name, each 0 at first. Contracts see the list of the names that have room, with their counts.
#[derive(Drop)]
pub(crate) struct Counts {
    counts: BTreeMap<String, u64>,
}

impl Model for Counts {
    ghost use Rattle.std.specs.Prelude.{ℕ, List};
    ghost use Rattle.edge_io.specs.Counts.{counts_of};

    ghost Value = { List (List ℕ × ℕ) };

    ghost view = { λ s. counts_of s.counts };
}

impl Counts {
    /// Each name has the count 0.
    pub(crate) fn new(alloc: Global) -> Counts
        ensures { (q : List ℕ) → count_in result q ≡ 0 }
    {
        Counts {
            counts: BTreeMap::new(alloc),
        }
    }

    /// Makes the room for a name's count. No count changes.
    pub(crate) fn make_room(&mut self, alloc: Global, name: &str) -> Result<(), AllocError>
        ensures has { OnOk result (IsTrue (has_name self.new name.now)) }
        ensures kept { OnErr result (self.new ≡ self.old) }
        ensures same { (q : List ℕ) → count_in self.new q ≡ count_in self.old q }
    {
        if self.counts.contains_key(name) {
            return Ok(());
        }
        let key = String::from_str(alloc, name)?;
        self.counts.insert(key, 0)?;
        Ok(())
    }

    /// Raises the count of a name that has room, unless it stands at its end.
    pub(crate) fn raise(&mut self, name: &str)
        requires { IsTrue (has_name self.old name.now) }
        ensures { (q : List ℕ) → count_in self.new q ≡ (if bytes_eq name.now q then raised (count_in self.old q) else count_in self.old q) }
    {
        let count = self.counts.get_mut(name).unwrap();
        *count = count.saturating_add(1);
    }
}
