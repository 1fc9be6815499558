//! Names as they are shown.

ghost use Rattle.std.specs.Prelude.{◌≡◌, ℕ, ◌<◌, ◌≤◌, ◌++◌, length, take, slice_index, IfOk, OnOk};
ghost use Rattle.std.specs.Str.{is_utf8};
ghost use Rattle.sheet_parts.specs.Names.{shown_at, shown_byte, shown_name, goes_on, first_characters, clipped, escaped_byte, escaped};

use std::alloc::{AllocError, Global};

/// Whether a name is UTF-8.
fn is_text(name: &[u8]) -> bool
    ensures { result ≡ is_utf8 name.now }
{
    std::str::from_utf8(name).is_ok()
}

/// What is shown of a byte behind two others, in a name that is UTF-8 or isn't.
fn shown_byte(utf8: bool, earlier: u8, before: u8, byte: u8) -> u8
    ensures { result ≡ shown_byte utf8 earlier before byte }
{
    if byte < 32 || byte == 127 {
        b' '
    } else if byte < 128 {
        byte
    } else if utf8 {
        if before == 194 && byte < 160 {
            160
        } else if earlier == 239 && before == 191 && byte >= 190 {
            189
        } else {
            byte
        }
    } else {
        b'?'
    }
}

/// What is shown of byte i of a name.
fn shown_at(utf8: bool, name: &[u8], i: usize) -> u8
    requires utf8 { utf8 ≡ is_utf8 name.now }
    requires within { i < length name.now }
    ensures { result ≡ shown_at name.now i }
{
    let earlier = if i < 2 { 0 } else { name[i - 2] };
    let before = if i == 0 { 0 } else { name[i - 1] };
    shown_byte(utf8, earlier, before, name[i])
}

/// A name as it is shown: each control character is a space (a no-break space, of those in two bytes), U+FFFE and U+FFFF are U+FFFD,
/// and of a name that isn't UTF-8 each byte from 128 on is a question mark.
#[tactic(auto, unfolding(crate::specs::Names::shown_name), using(crate::proofs::FillLemmas::joins))]
pub fn shown_name(alloc: Global, name: &[u8]) -> Result<Vec<u8>, AllocError>
    ensures { IfOk result (λ shown. shown.items ≡ shown_name name.now) }
{
    let utf8 = is_text(name);
    let mut out = Vec::new(alloc);
    for i in 0..name.len() {
        out.push(shown_at(utf8, name, i))?;
    }
    Ok(out)
}

/// Whether a byte goes on a character that an earlier one begins.
fn goes_on(byte: u8) -> bool
    ensures { result ≡ goes_on byte }
{
    (128..192).contains(&byte)
}

/// How many bytes the first so many characters of a text are.
fn characters_end(text: &[u8], most: usize) -> usize
    ensures within { result ≤ length text.now }
    ensures front { first_characters most text.now ≡ take result text.now }
{
    let mut left = most;
    for i in 0..text.len() {
        if !goes_on(text[i]) {
            if left == 0 {
                return i;
            }
            left -= 1;
        }
    }
    text.len()
}

/// A text, or its first `most` characters and three points, where it has more.
#[tactic(auto, unfolding(crate::specs::Names::clipped))]
pub fn clipped(alloc: Global, text: &[u8], most: usize) -> Result<Vec<u8>, AllocError>
    ensures { IfOk result (λ shown. shown.items ≡ clipped most text.now) }
{
    let end = characters_end(text, most);
    let mut out = Vec::from_slice(alloc, &text[..end])?;
    if end != text.len() {
        out.extend_from_slice(b"...")?;
    }
    Ok(out)
}

/// Appends a byte as it stands in a text of xml.
fn put_escaped_byte(out: &mut Vec<u8>, byte: u8) -> Result<(), AllocError>
    ensures { OnOk result (out.new.items ≡ out.old.items ++ escaped_byte byte) }
{
    match byte {
        b'&' => out.extend_from_slice(b"&amp;"),
        b'<' => out.extend_from_slice(b"&lt;"),
        b'>' => out.extend_from_slice(b"&gt;"),
        b'"' => out.extend_from_slice(b"&quot;"),
        b'\'' => out.extend_from_slice(b"&apos;"),
        _ => {
            out.push(byte)?;
            Ok(())
        }
    }
}

/// Appends a text as it stands in xml.
pub fn put_escaped(out: &mut Vec<u8>, text: &[u8]) -> Result<(), AllocError>
    ensures { OnOk result (out.new.items ≡ out.old.items ++ escaped text.now) }
{
    for byte in text {
        put_escaped_byte(out, *byte)?;
    }
    Ok(())
}
