//! The definitions of lower bounds: cells of speeds and their splits, chains of cells over any cost of links, weak duality, prices of
//! time, and the links of a run with their time priced.
//!
//! They stand in `specs/` and are listed in words in `docs/DEFINITIONS.md`. This file has the plain data that they speak of.
#![tactic(auto)]

/// An interval of speeds at a point, both ends in it.
#[derive(Clone, Copy, PartialEq, Eq, Debug)]
pub struct Cell {
    /// The least speed, cm/s.
    pub first: u16,
    /// The greatest speed, cm/s: at least the least, and at most 12,000.
    pub last: u16,
}
