//! Certificates of a bound as texts: a drive with its energy, a bound of what every drive on time costs, and the prices, cells and
//! potentials that show the bound. Each certificate has one text, and each text at most one certificate. `docs/CERTIFICATE.md` has the form
//! of the text, line by line.
#![tactic(auto)]

mod certificate;
mod fault;
mod number;
mod part;
mod reading;
mod text;
mod writing;

pub use certificate::{CellList, CertCell, CertPoint, Certificate, PointList, PriceList};
pub use fault::CertFault;
pub use number::{MOST, read_spelled};
pub use part::{Title, certificate_part, titled_part};
pub use reading::{read, read_prices};
pub use text::{Rest, after_word};
pub use writing::{put_certificate, put_one, put_prices, write};
