//! What the runs of all programs share: the words of a command line and what clap takes of them, the words of a check, the file of a report,
//! and the answers where there is no drive on time and where a certificate is refused or holds.
#![tactic(auto)]

mod answers;
mod arguments;
mod certificate_texts;
mod check_words;
mod command_line;
mod report_file;
mod words;

pub use answers::{late_answer, no_drive_answer, refused_in, regeneration_of};
pub use arguments::words_of;
pub use certificate_texts::{certified_text, fault_words, numbered, rule_words};
pub use check_words::{CheckWords, read_check_words};
pub use command_line::{matches_of, number_in, value_of, with_name, with_option};
pub use report_file::{ReportFile, ReportText};
pub use words::Words;
