//! The checker of costate certificates: it trusts nothing of whoever wrote one.
#![tactic(auto)]

mod checking;
mod refused;

pub use checking::check;
pub use refused::{Field, Refused};
