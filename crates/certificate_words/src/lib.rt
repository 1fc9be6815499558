//! The words that say what came of a certificate: why it is refused. `specs/Words.antt` has them.
#![tactic(auto)]

mod refusals;

pub use refusals::refused_words;
