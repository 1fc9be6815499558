//! The texts of an answer to a plan, and the phases of a drive.
//!
//! Each text is whole when it is handed out: the caller puts it in one piece. The definitions of the texts stand in
//! `specs/Report.antt`, and those of the phases in `specs/Phase.antt`.
#![tactic(auto)]

mod energies;
mod figures;
mod kinds;
mod late_texts;
mod lines;
mod phases;
mod reports;

pub use figures::{Counts, Figures};
pub use kinds::Phase;
pub use late_texts::{late_text, no_drive_text};
pub use phases::{phase_name, step_phase};
pub use reports::{put_advice, report};
