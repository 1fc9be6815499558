//! The certificate part of a report.

ghost use Rattle.std.specs.Prelude.{◌≡◌};
ghost use Rattle.dual_certificate.specs.Part.{certificate_part, title_words, titled_part};

use crate::text::cut;

/// The first line of a certificate, by which a report's part is found.
#[derive(Clone, Copy, PartialEq, Eq, Debug)]
pub enum Title {
    /// `certificate 1`: a bound by cells.
    Certificate,
    /// `costate 1`: a bound by costates.
    Costate,
}

/// The words of a title.
fn title_words(title: Title) -> &'static [u8]
    ensures { result.now ≡ title_words title }
{
    match title {
        Title::Certificate => b"certificate 1",
        Title::Costate => b"costate 1",
    }
}

/// The part of a report from its first line on that is this title. It is empty where there is no such line. What stands before isn't looked
/// at further. It takes no memory.
pub fn titled_part(title: Title, report: &[u8]) -> &[u8]
    ensures { result.now ≡ titled_part title report.now }
{
    let words = title_words(title);
    let mut rest = report;
    while let Some((line, behind)) = cut(b'\n', rest) {
        if line == words {
            return rest;
        }
        rest = behind;
    }
    &report[report.len()..]
}

/// The certificate part of a report: from its first line on that is `certificate 1`. It is empty where there is no such line, which `read`
/// refuses by `Form(1)`. It takes no memory.
pub fn certificate_part(report: &[u8]) -> &[u8]
    ensures { result.now ≡ certificate_part report.now }
{
    titled_part(Title::Certificate, report)
}
