//! What all forms of a run sheet share: numbers, times, energies and names as people read them.
//!
//! Each text has a definition in `specs/`, and a function that appends it.
#![tactic(auto)]

mod arrival_times;
mod clock;
mod decimals;
mod energy;
mod fill;
mod names;
mod rounded;

pub use arrival_times::arrivals;
pub use clock::{put_clock, seconds_down, seconds_up};
pub use decimals::{put_decimals, put_natural};
pub use energy::{
    kilojoules_down, kilojoules_up, kilowatt_hours_down, kilowatt_hours_up, saving_of,
};
pub use fill::{put_filled, put_right};
pub use names::{clipped, put_escaped, shown_name};
pub use rounded::{rounded_down, rounded_up};
