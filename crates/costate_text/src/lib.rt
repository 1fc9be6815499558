//! Certificates of a bound by costates as texts: a drive with its energy, a bound of what every drive on time costs, and the prices and
//! costates that show the bound. Each certificate has one text, and each text at most one certificate. `docs/COSTATE.md` has the form of the
//! text, line by line.
#![tactic(auto)]

mod certificate;
mod reading;
mod writing;

pub use certificate::{CostateCertificate, CostateList, SpeedList};
pub use dual_certificate::CertFault;
pub use reading::read;
pub use writing::{put_costate_certificate, write};
