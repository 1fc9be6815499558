//! Which cells to split next, so that the bound rises most.
//!
//! A cell matters as far as the least chain through it is near the least chain of all: what it costs more is the cell's reduced cost, 0 on
//! the least chain. And a wide cell lets a chain gain work for nothing, since a link leaves it at its greatest speed and comes to it at its
//! least: the energy of the train's motion between the two. A split takes about half of that away. So those cells are chosen whose reduced
//! cost, less twice what they let a chain gain, is least: they are on the least chains of this round and of those that follow.
//!
//! A choice is a matter of quality alone: no promise is made of it.
#![tactic(auto)]

mod choice;
mod forward;

pub use choice::{Choice, choose};
