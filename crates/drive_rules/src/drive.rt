//! A list of speeds of one's own.
ghost use Rattle.std.specs.Prelude.{◌≡◌, IfOk};

use std::alloc::{AllocError, Global};
use std::marker::Model;

/// A speed in cm/s for each point, in the order of the points.
///
/// Contracts see the list of the speeds. Nothing is promised of them until `Rules::judge` says so.
#[derive(Drop)]
pub struct Drive {
    speeds: Vec<u16>,
}

impl Model for Drive {
    ghost use Rattle.std.specs.Prelude.{List, ℕ};

    ghost Value = { List ℕ };

    ghost view = { λ d. d.speeds.items };
}

impl Drive {
    /// The drive with these speeds.
    pub fn make(alloc: Global, speeds: &[u16]) -> Result<Drive, AllocError>
        ensures { IfOk result (λ drive. drive ≡ speeds.now) }
    {
        let speeds = Vec::from_slice(alloc, speeds)?;
        Ok(Drive { speeds })
    }

    /// The speeds, one for each point.
    pub fn speeds(&self) -> &[u16]
        ensures { result.now ≡ self.now }
    {
        self.speeds.as_slice()
    }
}
