//! Kinds of files.

ghost use Rattle.std.specs.Prelude.{◌≡◌, ◌≢◌, ◌≤◌, ◌+◌, ◌<◌, ◌^◌, ℕ, List, Err, IfOk, OnOk};
ghost use Rattle.command_files.specs.Files.{Kind};

use std::alloc::{AllocError, Global};
use std::sync::ledger::Ledger;
use step_energy::Steps;

/// A kind of file.
pub trait FileRole: Copy {
    /// What a file of this kind says.
    type Said: Drop;

    /// Why one is refused. One fault is want of memory.
    type Fault: Copy;

    /// The role, the limit, the reader and the words of faults.
    ghost kind: { Kind Self.Said Self.Fault };

    /// The fault that is want of memory.
    ghost no_memory: { Self.Fault };

    /// What holds of all that such a file says.
    ghost shape: { Self.Said → Type 0 };

    /// How many steps are counted where a file says this.
    ghost steps_of: { Self.Said → ℕ };

    /// The role that refusals and read faults name.
    fn role() -> &'static [u8]
        ensures { result.now ≡ kind.role };

    /// The most bytes that such a file may have.
    fn most() -> usize
        ensures value { result ≡ kind.most }
        ensures small { kind.most < 2 ^ 32 };

    /// What a text says, or its first fault. Want of memory may come at any place.
    fn read<L: Ledger>(
        alloc: Global,
        text: &[u8],
        steps: &mut Steps<L>,
    ) -> Result<Self::Said, Self::Fault>
        ensures said { result ≢ Err no_memory → result ≡ kind.read text.now }
        ensures shape { IfOk result shape }
        ensures least { steps.old ≤ steps.new }
        ensures counted { IfOk result (λ said. steps.new ≡ steps.old + steps_of said) };

    /// The words of a fault. The only error is want of memory, which the fault may itself be.
    fn words(alloc: Global, fault: Self::Fault) -> Result<Vec<u8>, AllocError>
        ensures sound { OnOk result (fault ≢ no_memory) }
        ensures words { IfOk result (λ text. text.items ≡ kind.words fault) };
}

/// A file of a kind, under the name that the words give for it.
#[derive(Clone, Copy)]
pub struct File<'a, F: FileRole> {
    pub kind: F,
    pub name: &'a str,
}
