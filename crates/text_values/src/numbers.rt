//! Hex digits, and the text of an address. Digits are printed in lower case, and read in either case.
ghost use Rattle.std.specs.Prelude.{◌≡◌, ◌<◌, ◌≤◌, ◌^◌, IfSome, length};
ghost use Rattle.text_values.specs.Words.{number_of, without_0x};

use crate::words::Word;
use std::fmt;

/// An address as it is printed: `0x` and sixteen hex digits.
#[derive(Clone, Copy, Debug, PartialEq, Eq)]
pub struct Address(pub u64);

// A number as eight hex digits.
#[derive(Clone, Copy)]
pub(crate) struct EightDigits(pub(crate) u32);

#[tactic(auto, using(crate::proofs::Digits::padded_hex16), unfolding(crate::specs::Words::address_text))]
impl fmt::Display for Address {
    ghost use Rattle.std.specs.Prelude.{Some};
    ghost use Rattle.text_values.specs.Words.{address_text};

    ghost output = { λ address. Some (address_text address.0) };

    fn fmt<W: fmt::Write>(&self, f: &mut fmt::Formatter<W>) -> fmt::Result {
        let address = self.0;
        write!(f, "0x{address:016x}")
    }
}

#[tactic(auto, using(crate::proofs::Digits::padded_hex8))]
impl fmt::Display for EightDigits {
    ghost use Rattle.std.specs.Prelude.{Some};
    ghost use Rattle.text_values.specs.Words.{hex_digits};

    ghost output = { λ number. Some (hex_digits 8 number.0) };

    fn fmt<W: fmt::Write>(&self, f: &mut fmt::Formatter<W>) -> fmt::Result {
        let number = self.0;
        write!(f, "{number:08x}")
    }
}

/// An address, or load address: an optional `0x`, then one to sixteen hex digits.
impl Word for u64 {
    ghost use Rattle.text_values.specs.Words.{address_of};

    ghost form_of = { address_of };

    fn read(text: &str) -> Option<u64> {
        let digits = bare_digits(text.as_bytes());
        if digits.is_empty() || digits.len() > 16 {
            return None;
        }
        read_digits(digits)
    }
}

// The bytes after an optional `0x`.
fn bare_digits(text: &[u8]) -> &[u8]
    ensures { result.now ≡ without_0x text.now }
{
    if text.starts_with(b"0x") {
        &text[2..]
    } else {
        text
    }
}

// The number in hex digits.
fn read_digits(digits: &[u8]) -> Option<u64>
    requires { length digits.now ≤ 16 }
    ensures number { result ≡ number_of digits.now }
    ensures small { IfSome result (λ n. n < 16 ^ length digits.now) }
{
    let mut number = 0u64;
    'digits: for digit in digits {
        let value = char::from(*digit).to_digit(16)?;
        number = number * 16 + u64::from(value);
    }
    Some(number)
}

// The number in eight hex digits.
pub(crate) fn read_eight_digits(digits: &[u8]) -> Option<u32>
    requires { length digits.now ≡ 8 }
    ensures { result ≡ number_of digits.now }
{
    let number = read_digits(digits)?;
    Some(number as u32)
}
