// Numbers and bytes as text has them.
#![tactic(auto)]

ghost use Rattle.std.specs.Prelude.{◌≡◌, ◌≤◌, IfOk, vec_items};
ghost use Rattle.std.specs.Option.{option_map};
ghost use Rattle.text.specs.Text.{byte_value, bytes_value, digit_value, number_value, numeral_value, with_digit};

use std::alloc::{AllocError, Global};
use std::fmt;

// The value of a hexadecimal digit.
fn hex_digit(digit: u8) -> Option<u8>
    ensures { result ≡ digit_value digit }
{
    char::from(digit).to_digit(16).map(|value| value as u8)
}

// The byte of two digits.
fn hex_byte(high: u8, low: u8) -> Option<u8>
    ensures { result ≡ byte_value high low }
{
    Some(16 * hex_digit(high)? + hex_digit(low)?)
}

// The bytes of a text of two digits each, or none where it is not one.
pub fn hex_bytes(heap: Global, digits: &[u8]) -> Result<Option<Vec<u8>>, AllocError>
    ensures { IfOk result (λ o. option_map vec_items o ≡ bytes_value digits.now) }
{
    let (pairs, rest) = digits.as_chunks::<2>();
    let mut bytes = Vec::with_capacity(heap, pairs.len())?;
    for [high, low] in pairs {
        let Some(byte) = hex_byte(*high, *low) else {
            return Ok(None);
        };
        bytes.push(byte)?;
    }
    Ok(rest.is_empty().then_some(bytes))
}

// A value with one more digit, or none where it is no digit of the base or the value does not fit.
fn with_digit(base: u32, value: u64, digit: u8) -> Option<u64>
    requires at_least { 2 ≤ base }
    requires at_most { base ≤ 16 }
    ensures { result ≡ with_digit base value digit }
{
    let next = char::from(digit).to_digit(base)?;
    value
        .checked_mul(u64::from(base))?
        .checked_add(u64::from(next))
}

// The number that digits write, or none where there is no digit, something else, or a number that does not fit.
fn numeral(base: u32, digits: &[u8]) -> Option<u64>
    requires at_least { 2 ≤ base }
    requires at_most { base ≤ 16 }
    ensures { result ≡ numeral_value base digits.now }
{
    if digits.is_empty() {
        return None;
    }
    let mut value = 0;
    for digit in digits {
        value = with_digit(base, value, *digit)?;
    }
    Some(value)
}

// A number: decimal, or hexadecimal after 0x.
pub fn number(word: &[u8]) -> Option<u64>
    ensures { result ≡ number_value word.now }
{
    match word {
        [b'0', b'x', digits @ ..] => numeral(16, digits),
        _ => numeral(10, word),
    }
}

// Bytes as two digits each.
#[derive(Clone, Copy)]
pub struct Hex<'a>(pub &'a [u8]);

impl fmt::Display for Hex<'_> {
    fn fmt<W: fmt::Write>(&self, f: &mut fmt::Formatter<W>) -> fmt::Result {
        for byte in self.0 {
            write!(f, "{byte:02x}")?;
        }
        Ok(())
    }
}
