//! Answers, and the texts of refusals and read faults.

ghost use Rattle.std.specs.Prelude.{◌≡◌, ◌≢◌, ℕ, List, IfOk};
ghost use Rattle.command_files.specs.Answers.{IsRefusal, read_fault_text};

use crate::status;
use std::alloc::{AllocError, Global};

/// A text, and the status that the program ends with once the text is written.
#[derive(Drop)]
pub struct Answer {
    pub status: u8,
    pub text: Vec<u8>,
    pub ghost no_write_fault: { status ≢ 7 },
    pub ghost no_want_of_memory: { status ≢ 8 },
}

/// The answer that the file of this role can't be read.
pub fn read_fault(alloc: Global, role: &[u8]) -> Result<Answer, AllocError>
    ensures status { IfOk result (λ a. a.status ≡ 6) }
    ensures text { IfOk result (λ a. a.text.items ≡ read_fault_text role.now) }
{
    let mut text = Vec::from_slice(alloc, b"read fault ")?;
    text.extend_from_slice(role)?;
    text.push(b'\n')?;
    Ok(Answer {
        status: status::READ_FAULT,
        text,
    })
}

/// The answer that the file of this role, or the rules, are refused in these words.
pub fn refusal(alloc: Global, role: &[u8], words: &[u8]) -> Result<Answer, AllocError>
    ensures { IfOk result (λ a. IsRefusal role.now words.now a.status a.text.items) }
{
    let mut text = Vec::from_slice(alloc, b"refused ")?;
    text.extend_from_slice(role)?;
    text.push(b' ')?;
    text.extend_from_slice(words)?;
    text.push(b'\n')?;
    Ok(Answer {
        status: status::REFUSED,
        text,
    })
}
