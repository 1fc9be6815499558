//! The checker of certificates: it trusts nothing of whoever wrote one.
#![tactic(auto)]

mod checking;
mod links;
mod refused;

pub use checking::check;
pub use refused::{Field, Refused};
