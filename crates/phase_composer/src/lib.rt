//! The best of a family of composed drives.
//!
//! A composed drive is the greatest drive under a cap, or under a cap and without traction from a point to the next stop: so it
//! pulls away, holds a speed, coasts and brakes. `compose` finds the cheapest of the family that is on time. It need not try every
//! member: under a lower cap the greatest drive is no faster, so once it is late, it is late under every lower cap, and so is every
//! drive that coasts under it.
#![tactic(auto)]

mod best;
mod caps;
mod coasting;
mod kept;

pub use best::{Composed, Costed, compose, compose_with_cost};
pub use kept::Kept;
