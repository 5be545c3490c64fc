//! Small hexadecimal.

ghost use Rattle.std.specs.Prelude.{◌≡◌, ◌<◌, ◌++◌, OnOk, IfOk, IfSome};
ghost use Rattle.am_journal.specs.Hexadecimal.{hex_digit, hex_of, digit_value, byte_at, bytes_of_hex};

use am_text::{Bytes, NoMemory, Roomy};
use std::alloc::Global;

fn digit_value(b: u8) -> Option<u8>
    ensures value { result ≡ digit_value b }
    ensures small { IfSome result (λ n. n < 16) }
{
    match b {
        b'0'..=b'9' => Some(b - b'0'),
        b'a'..=b'f' => Some(b - b'a' + 10),
        _ => None,
    }
}

fn byte_of(a: u8, b: u8) -> Option<u8>
    ensures { result ≡ byte_at a b }
{
    match digit_value(a) {
        Some(high) => match digit_value(b) {
            Some(low) => Some(high * 16 + low),
            None => None,
        },
        None => None,
    }
}

/// The bytes that the digits spell, if they stand in pairs. Capitals are no digits.
#[tactic(auto, using(crate::proofs::Hex::hexes))]
pub fn bytes_of_hex(alloc: Global, text: &[u8]) -> Result<Option<Bytes>, NoMemory>
    ensures { IfOk result (λ bytes. bytes ≡ bytes_of_hex text.now) }
{
    let mut bytes = Roomy::new(alloc);
    bytes.reserve(text.len() / 2)?;
    let mut rest = text;
    while rest.len() >= 2 {
        let Some(byte) = byte_of(rest[0], rest[1]) else {
            return Ok(None);
        };
        bytes.put(byte);
        (_, rest) = rest.split_at(2);
    }
    if rest.is_empty() {
        Ok(Some(bytes.into_items()))
    } else {
        Ok(None)
    }
}

fn hex_digit(n: u8) -> u8
    requires { n < 16 }
    ensures { result ≡ hex_digit n }
{
    if n < 10 { b'0' + n } else { b'a' + (n - 10) }
}

/// Two digits for each byte.
#[tactic(auto, using(crate::proofs::Hex::hex_more), unfolding(crate::specs::Hexadecimal::hex_of))]
pub(crate) fn hex_text(alloc: Global, bytes: &[u8]) -> Result<Bytes, NoMemory>
    ensures { IfOk result (λ text. text ≡ hex_of bytes.now) }
{
    let mut text = Roomy::new(alloc);
    text.reserve(bytes.len() * 2)?;
    for b in bytes {
        text.put(hex_digit(*b / 16));
        text.put(hex_digit(*b % 16));
    }
    Ok(text.into_items())
}

/// Puts two digits for each byte at the end.
#[tactic(auto, using(crate::proofs::Hex::hex_more), unfolding(crate::specs::Hexadecimal::hex_of))]
pub fn put_hex(out: &mut Bytes, bytes: &[u8]) -> Result<(), NoMemory>
    ensures { OnOk result (out.new ≡ out.old ++ hex_of bytes.now) }
{
    for b in bytes {
        out.append(&[hex_digit(*b / 16), hex_digit(*b % 16)])?;
    }
    Ok(())
}
