//! Literals as they are shown.
ghost use Rattle.std.specs.Prelude.{◌≡◌, ◌<◌, ◌++◌, ℕ, List, OnOk, flat_map};
ghost use Rattle.plan_view.specs.Quotes.{hex_digit, quoted, shown_byte, whole};

use std::alloc::AllocError;

/// How many bytes of a literal are shown.
const MAX_SHOWN: usize = 24;

/// Appends a literal between quotes, cut short where it is long.
pub fn push_quoted(literal: &[u8], text: &mut Vec<u8>) -> Result<(), AllocError>
    ensures { OnOk result (text.new.items ≡ text.old.items ++ quoted literal.now) }
{
    text.push(b'"')?;
    push_shown(&literal[..literal.len().min(MAX_SHOWN)], text)?;
    text.push(b'"')?;
    if literal.len() > MAX_SHOWN {
        text.extend_from_slice(b"..")?;
    }
    Ok(())
}

/// Appends a literal between quotes, whole, in printable ASCII.
///
/// # Errors
/// `AllocError`, where a growth was refused. What stood in the text stays.
pub fn push_literal(literal: &[u8], text: &mut Vec<u8>) -> Result<(), AllocError>
    ensures ok { OnOk result (text.new.items ≡ text.old.items ++ whole literal.now) }
    ensures kept { (more : List ℕ) × (text.new.items ≡ text.old.items ++ more) }
{
    text.push(b'"')?;
    push_shown(literal, text)?;
    text.push(b'"')?;
    Ok(())
}

/// Appends bytes in printable ASCII.
fn push_shown(bytes: &[u8], text: &mut Vec<u8>) -> Result<(), AllocError>
    ensures ok { OnOk result (text.new.items ≡ text.old.items ++ flat_map shown_byte bytes.now) }
    ensures kept { (more : List ℕ) × (text.new.items ≡ text.old.items ++ more) }
{
    for byte in bytes {
        push_byte(*byte, text)?;
    }
    Ok(())
}

/// Appends a byte in printable ASCII.
fn push_byte(byte: u8, text: &mut Vec<u8>) -> Result<(), AllocError>
    ensures ok { OnOk result (text.new.items ≡ text.old.items ++ shown_byte byte) }
    ensures kept { (more : List ℕ) × (text.new.items ≡ text.old.items ++ more) }
{
    match byte {
        b'"' | b'\\' => text.extend_from_slice(&[b'\\', byte])?,
        b' '..=b'~' => text.push(byte)?,
        _ => text.extend_from_slice(&[b'\\', b'x', hex_digit(byte >> 4), hex_digit(byte & 15)])?,
    }
    Ok(())
}

/// A hexadecimal digit.
fn hex_digit(number: u8) -> u8
    requires { number < 16 }
    ensures { result ≡ hex_digit number }
{
    if number < 10 {
        b'0' + number
    } else {
        b'a' - 10 + number
    }
}
