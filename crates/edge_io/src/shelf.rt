//! Files by name.

ghost use Rattle.std.specs.Prelude.{◌≡◌, ◌≢◌, ◌≤◌, ℕ, List, IfOk};
ghost use Rattle.edge_io.specs.Faults.{Fetches, Rose, Told};

use std::alloc::Global;

/// Why a file was not fetched.
#[derive(Clone, Copy, Debug, PartialEq, Eq)]
pub enum FetchFault {
    /// The shelf failed at this name, and the name's count of faults rose. A missing file is such a fault.
    Failed,
    /// The memory ran out.
    NoMemory,
}

/// Files by name.
pub trait Shelf {
    /// What the shelf tells of a name.
    ghost contents: { Self → List ℕ → Told };

    /// How many faults a name has had.
    ghost faults: { Self → List ℕ → ℕ };

    /// The first `most` bytes of the file of this name, all of them where there are fewer.
    ///
    /// No call changes what the shelf tells of any name. A call raises the count of no name but its own, and answers
    /// `Failed` only where it raised that one.
    fn fetch(&mut self, alloc: Global, name: &str, most: usize) -> Result<Vec<u8>, FetchFault>
        ensures bytes { IfOk result (λ v. Fetches (contents self.old name.now) most v.items) }
        ensures kept { (n : List ℕ) → contents self.new n ≡ contents self.old n }
        ensures later { (n : List ℕ) → faults self.old n ≤ faults self.new n }
        ensures others { (n : List ℕ) → n ≢ name.now → faults self.new n ≡ faults self.old n }
        ensures cause { result ≡ Err FetchFault.Failed → Rose (faults self.old name.now) (faults self.new name.now) };
}
