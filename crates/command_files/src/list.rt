//! Lists of files of several kinds.

ghost use Rattle.std.specs.Prelude.{◌≡◌, ◌≢◌, ◌≤◌, ◌+◌, ℕ, List, IfOk};
ghost use Rattle.edge_io.specs.Faults.{Told};
ghost use Rattle.command_files.specs.Stage.{IsStage, OnRead};

use crate::role::{File, FileRole};
use crate::stage::{Stage, read_file};
use edge_io::Shelf;
use std::alloc::{AllocError, Global};
use std::sync::ledger::Ledger;
use step_energy::Steps;

/// The files that a command names, in the order of the words: `()` for none, or a file and the files behind it.
pub trait FileList {
    /// What the files say, one after the other.
    type Said: Drop;

    /// The files may say this, over a shelf that tells this.
    ghost says: { Self → (List ℕ → Told) → Self.Said → Type 0 };

    /// This status and text may end the run at one of the files: over a shelf that tells this, and had these counts of faults before
    /// and has these now.
    ghost ends: { Self → (List ℕ → Told) → (List ℕ → ℕ) → (List ℕ → ℕ) → ℕ → List ℕ → Type 0 };

    /// What holds of all that such files say.
    ghost shape: { Self.Said → Type 0 };

    /// How many steps are counted where the files say this.
    ghost steps_of: { Self.Said → ℕ };

    /// One of the files has this name.
    ghost names: { Self → List ℕ → Type 0 };

    /// Fetches, measures and reads each file in turn: what they say, or the answer that ends the run at the first that can't be read,
    /// is too long, or is refused. Want of memory may come at any place.
    fn read_all<S: Shelf, L: Ledger>(
        &self,
        alloc: Global,
        shelf: &mut S,
        steps: &mut Steps<L>,
    ) -> Result<Stage<Self::Said>, AllocError>
        ensures stage { IfOk result (IsStage (ends self.now (S.contents shelf.old) (S.faults shelf.old) (S.faults shelf.new))
            (says self.now (S.contents shelf.old))) }
        ensures shape { IfOk result (OnRead shape) }
        ensures kept { (n : List ℕ) → S.contents shelf.new n ≡ S.contents shelf.old n }
        ensures later { (n : List ℕ) → S.faults shelf.old n ≤ S.faults shelf.new n }
        ensures others { (n : List ℕ) → (names self.now n → ⊥) → S.faults shelf.new n ≡ S.faults shelf.old n }
        ensures least { steps.old ≤ steps.new }
        ensures counted { IfOk result (OnRead (λ said. steps.new ≡ steps.old + steps_of said)) };

    /// Files say the same over a shelf that tells the same.
    ghost says_still: { (files : Self) (told told' : List ℕ → Told) (said : Self.Said) → ((n : List ℕ) → told' n ≡ told n)
        → says files told' said → says files told said };

    /// An answer over a shelf that tells the same, and had as many faults or more.
    ghost ends_still: { (files : Self) (told told' : List ℕ → Told) (before before' now : List ℕ → ℕ) (status : ℕ) (text : List ℕ)
        → ((n : List ℕ) → told' n ≡ told n) → ((n : List ℕ) → before n ≤ before' n)
        → ends files told' before' now status text → ends files told before now status text };
}

impl FileList for () {
    ghost use Rattle.std.specs.Prelude.{⊤};

    type Said = ();

    ghost says = { λ _ _ _. ⊤ };

    ghost ends = { λ _ _ _ _ _ _. ⊥ };

    ghost shape = { λ _. ⊤ };

    ghost steps_of = { λ _. 0 };

    ghost names = { λ _ _. ⊥ };

    fn read_all<S: Shelf, L: Ledger>(
        &self,
        _alloc: Global,
        _shelf: &mut S,
        _steps: &mut Steps<L>,
    ) -> Result<Stage<()>, AllocError> {
        Ok(Stage::Read(()))
    }

    ghost says_still = { λ _ _ _ _ _ h. h };

    ghost ends_still = { λ _ _ _ _ _ _ _ _ _ _ h. h };
}

impl<'a, F: FileRole, R: FileList> FileList for (File<'a, F>, R) {
    ghost use Rattle.std.specs.Prelude.{◌⊎◌};
    ghost use Rattle.command_files.specs.Files.{Says, first_ends};
    ghost use Rattle.command_files.specs.Laws.{says_there, ends_along};

    type Said = (F::Said, R::Said);

    ghost says = { λ files told said. Says F.kind files.0.name.now told said.0 × R.says files.1 told said.1 };

    ghost ends = { λ files told before now status text.
        first_ends F.kind files.0.name.now told before now (R.ends files.1 told before now) status text };

    ghost shape = { λ said. F.shape said.0 × R.shape said.1 };

    ghost steps_of = { λ said. F.steps_of said.0 + R.steps_of said.1 };

    ghost names = { λ files name. (name ≡ files.0.name.now) ⊎ R.names files.1 name };

    fn read_all<S: Shelf, L: Ledger>(
        &self,
        alloc: Global,
        shelf: &mut S,
        steps: &mut Steps<L>,
    ) -> Result<Stage<(F::Said, R::Said)>, AllocError> {
        match read_file(alloc, &self.0, shelf, steps)? {
            Stage::Read(first) => match self.1.read_all(alloc, shelf, steps)? {
                Stage::Read(rest) => Ok(Stage::Read((first, rest))),
                Stage::Ends(answer) => Ok(Stage::Ends(answer)),
            },
            Stage::Ends(answer) => Ok(Stage::Ends(answer)),
        }
    }

    ghost says_still = { λ files told told' said same h. (
      says_there F.kind files.0.name.now told told' said.0 (same files.0.name.now) h.0,
      R.says_still files.1 told told' said.1 same h.1,
    ) };

    ghost ends_still = { λ files told told' before before' now status text same fewer h.
        ends_along F.kind files.0.name.now told told' before before' now
        (R.ends files.1 told before now status text) (R.ends files.1 told' before' now status text) status text
        (same files.0.name.now) (fewer files.0.name.now)
        (R.ends_still files.1 told told' before before' now status text same fewer) h };
}
