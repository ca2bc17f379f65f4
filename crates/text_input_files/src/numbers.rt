//! Decimal numbers, and the flaws of other fields.

ghost use Rattle.std.specs.Prelude.{◌≡◌, ◌≢◌, length, slice_index};
ghost use Rattle.std.specs.Char.{is_ascii_digit};
ghost use Rattle.std.specs.List.{list_all};
ghost use Rattle.text_input_files.specs.Numbers.{are_digits, leads_with_zero, number_flaw, number_of};

/// Why a field is no number.
#[derive(Clone, Copy, Debug, PartialEq, Eq)]
pub enum NumberFlaw {
    /// It has no byte, or one that is not a decimal digit.
    NotDecimal,
    /// It has several digits, and the first is `0`.
    LeadingZeros,
    /// Its number is too large.
    TooLarge,
}

/// A number in decimal digits, without leading zeros.
pub fn read_number(text: &str) -> Option<u32>
    ensures { result ≡ number_of text.now }
{
    let digits = text.as_bytes();
    if digits.is_empty() || digits[0] == b'+' || leads_with_zero(digits) {
        return None;
    }
    parse_digits(text)
}

// The number in decimal digits, without a plus sign or leading zeros.
fn parse_digits(text: &str) -> Option<u32>
    requires plus { slice_index text.now 0 ≢ 43 }
    requires alone { slice_index text.now 0 ≡ 48 → length text.now ≡ 1 }
    ensures { result ≡ number_of text.now }
{
    text.parse().ok()
}

fn is_digit(byte: u8) -> bool
    ensures { result ≡ is_ascii_digit byte }
{
    byte.is_ascii_digit()
}

fn has_digits_alone(field: &[u8]) -> bool
    ensures { result ≡ list_all is_ascii_digit field.now }
{
    field.iter().all(|byte| is_digit(*byte))
}

fn are_digits(field: &[u8]) -> bool
    ensures { result ≡ are_digits field.now }
{
    has_digits_alone(field) && !field.is_empty()
}

fn leads_with_zero(digits: &[u8]) -> bool
    ensures { result ≡ leads_with_zero digits.now }
{
    digits.len() > 1 && digits[0] == b'0'
}

pub fn number_flaw(text: &str) -> NumberFlaw
    ensures { result ≡ number_flaw text.now }
{
    let digits = text.as_bytes();
    if !are_digits(digits) {
        NumberFlaw::NotDecimal
    } else if leads_with_zero(digits) {
        NumberFlaw::LeadingZeros
    } else {
        NumberFlaw::TooLarge
    }
}
