//! What a pass writes on.
use crate::links::{NEVER, NO_EXIT, ROOM, SUMS, Tables};
use std::alloc::{AllocError, Global};

/// For each speed of a point's window the index of the best speed of the next point's.
#[derive(Clone, Copy)]
pub(crate) struct Onward {
    pub(crate) exits: [u8; ROOM],
}

/// What a pass writes on, so that it need not be made anew for each.
#[derive(Drop)]
pub struct Desk {
    pub(crate) tables: Tables,
    /// What the best chain costs from each speed of the window at hand.
    pub(crate) costs: [i64; ROOM],
    /// Per step the best ways on.
    pub(crate) onward: Vec<Onward>,
}

impl Desk {
    /// A desk for this many steps.
    pub fn new(alloc: Global, steps: usize) -> Result<Desk, AllocError> {
        let mut onward = Vec::with_capacity(alloc, steps)?;
        for _ in 0..steps {
            onward.push(Onward { exits: [0; ROOM] })?;
        }
        Ok(Desk {
            tables: Tables {
                exits: [NO_EXIT; ROOM],
                count: 0,
                times: [0; SUMS],
            },
            costs: [NEVER; ROOM],
            onward,
        })
    }
}
