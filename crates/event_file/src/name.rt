//! Names of restrictions.

ghost use Rattle.std.specs.Prelude.{◌≡◌};
ghost use Rattle.event_file.specs.Names.{is_name_byte, is_name};

use std::alloc::{AllocError, Global};
use std::marker::Model;

/// The bytes of a name, at most.
const MOST_BYTES: usize = 32;

/// The name of a restriction, which contracts see as its bytes.
#[derive(Drop)]
pub struct Name {
    text: String,
}

impl Model for Name {
    ghost use Rattle.std.specs.Prelude.{ℕ, List, string_bytes};

    ghost Value = { List ℕ };

    ghost view = { λ name. string_bytes name.text };
}

impl Name {
    ghost use Rattle.std.specs.Prelude.{◌≡◌, IfOk};

    /// The name of this text, or want of memory.
    pub fn make(alloc: Global, text: &str) -> Result<Name, AllocError>
        ensures { IfOk result (λ name. name ≡ text.now) }
    {
        let text = String::from_str(alloc, text)?;
        Ok(Name { text })
    }

    /// The name as a text. It takes no memory.
    pub fn text(&self) -> &str
        ensures { result.now ≡ self.now }
    {
        self.text.as_str()
    }
}

/// A byte may stand in a name.
fn is_name_byte(b: u8) -> bool
    ensures { result ≡ is_name_byte b }
{
    (b >= b'a' && b <= b'z') || (b >= b'0' && b <= b'9') || b == b'-'
}

/// Whether a text is a name: 1 to 32 bytes of `a` to `z`, `0` to `9` and `-`.
pub fn is_name(text: &[u8]) -> bool
    ensures { result ≡ is_name text.now }
{
    if text.is_empty() || text.len() > MOST_BYTES {
        return false;
    }
    for b in text {
        if !is_name_byte(*b) {
            return false;
        }
    }
    true
}
