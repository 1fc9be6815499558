//! A text that is read line by line, and lines that are cut into fields.

ghost use Rattle.std.specs.Prelude.{◌≡◌, ◌==◌, ◌↔◌, ◌≤ℤ◌, ◌^◌, ◌+◌, ◌≤◌, length, option_map, IfOk, IsTrue};
ghost use Rattle.std.specs.List.{position};
ghost use Rattle.std.specs.Int.RustNames.{unsigned_abs};
ghost use Rattle.dual_certificate.specs.Numbers.{number_spelled};
ghost use Rattle.dual_certificate.specs.Grammar.{Gives, behind, cut, exact_at, formed, line_at, number_at, number_before};

use crate::fault::CertFault;
use crate::number::read_spelled;
use std::marker::Model;

/// What is left of a text. Contracts see its bytes.
#[derive(Drop)]
pub struct Rest<'a> {
    bytes: &'a [u8],
}

impl<'a> Model for Rest<'a> {
    ghost use Rattle.std.specs.Prelude.{List, ℕ};

    ghost Value = { List ℕ };

    ghost view = { λ r. r.bytes.now };
}

/// The place of the first such byte.
fn place_of(byte: u8, text: &[u8]) -> Option<usize>
    ensures { result ≡ position (λ b. b == byte) text.now }
{
    text.iter().position(|b| *b == byte)
}

/// A text up to the first such byte, and behind it; `None` where there is no such byte.
pub(crate) fn cut(byte: u8, text: &[u8]) -> Option<(&[u8], &[u8])>
    ensures { option_map (λ p. (p.0.now, p.1.now)) result ≡ cut byte text.now }
{
    let end = place_of(byte, text)?;
    Some((&text[..end], &text[end + 1..]))
}

impl<'a> Rest<'a> {
    /// The whole of a text is left.
    pub fn new(text: &'a [u8]) -> Rest<'a>
        ensures { result ≡ text.entry.now }
    {
        Rest { bytes: text }
    }

    /// Whether nothing is left.
    pub fn is_empty(&self) -> bool
        ensures { IsTrue result ↔ (length self.now ≡ 0) }
    {
        self.bytes.is_empty()
    }

    /// Takes line n, without its end. `Form` where no line feed ends a line.
    pub fn line(&mut self, n: u32) -> Result<&'a [u8], CertFault>
        ensures { Gives (λ line. (line.now, self.new)) result (line_at n self.old) }
    {
        let Some((line, behind)) = cut(b'\n', self.bytes) else {
            return Err(CertFault::Form(n));
        };
        self.bytes = behind;
        Ok(line)
    }

    /// Takes line n, which is this one. `Form` where it isn't.
    #[tactic(auto, unfolding(crate::specs::Grammar::exact_at))]
    pub fn exact(&mut self, n: u32, word: &[u8]) -> Result<(), CertFault>
        ensures { Gives (λ _. self.new) result (exact_at n word.now self.old) }
    {
        let line = self.line(n)?;
        if line != word {
            return Err(CertFault::Form(n));
        }
        Ok(())
    }

    /// Takes line n, which is a word and a number from `low` to `high`. `Form` where it is no word and number, `Range` where the number is
    /// out of its range.
    #[tactic(auto, unfolding(crate::specs::Grammar::number_at))]
    pub fn number(&mut self, n: u32, word: &[u8], low: i128, high: i128) -> Result<i128, CertFault>
        ensures value { Gives (λ x. (x, self.new)) result (number_at n word.now low high self.old) }
        ensures low { IfOk result (λ x. low ≤ℤ x) }
        ensures high { IfOk result (λ x. x ≤ℤ high) }
    {
        let line = self.line(n)?;
        let rest = after_word(n, word, line)?;
        let number = spelled(n, rest)?;
        if number < low || high < number {
            return Err(CertFault::Range(n));
        }
        Ok(number)
    }
}

/// What stands on line n behind the word that it begins with. `Form` where it begins otherwise.
pub fn after_word<'a>(n: u32, word: &[u8], line: &'a [u8]) -> Result<&'a [u8], CertFault>
    ensures { Gives (λ rest. rest.now) result (behind n word.now line.now) }
{
    if !line.starts_with(word) {
        return Err(CertFault::Form(n));
    }
    Ok(&line[word.len()..])
}

/// The number that a text on line n is. `Form` where it is none in its shortest spelling.
fn spelled(n: u32, text: &[u8]) -> Result<i128, CertFault>
    ensures value { Gives (λ x. x) result (formed n (number_spelled text.now)) }
    ensures small { IfOk result (λ x. unsigned_abs x ≤ 2 ^ 100 + 1) }
{
    match read_spelled(text) {
        Some(number) => Ok(number),
        None => Err(CertFault::Form(n)),
    }
}

/// The number on line n up to the next space, and what stands behind that. `Form` where there is no space, or no number before it.
#[tactic(auto, unfolding(crate::specs::Grammar::number_before))]
pub(crate) fn number_before(n: u32, text: &[u8]) -> Result<(i128, &[u8]), CertFault>
    ensures value { Gives (λ x. (x.0, x.1.now)) result (number_before n text.now) }
    ensures small { IfOk result (λ x. unsigned_abs x.0 ≤ 2 ^ 100 + 1) }
{
    let Some((front, rest)) = cut(b' ', text) else {
        return Err(CertFault::Form(n));
    };
    let number = spelled(n, front)?;
    Ok((number, rest))
}
