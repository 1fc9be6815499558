//! Boxes that propose drives, and how a drive is improved by what they offer.
//!
//! A box is begun with a drive that is known to be good, and then asked for one list of speeds after the other. What it offers is never
//! trusted: each offer is judged, and taken only where it is a drive on time that costs less. So any box may be handed in.
#![tactic(auto)]

mod ask;
mod dips;
mod early_braking;
mod late_coasting;
mod proposer;

pub use ask::{ask_all, drop_silent, improve};
pub use dips::Dips;
pub use early_braking::EarlyBraking;
pub use late_coasting::LateCoasting;
pub use proposer::Proposer;
