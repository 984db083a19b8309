//! Fractions read from text.

ghost use Rattle.std.specs.Prelude.{◌≡◌, ◌==◌, ◌<◌, ◌^◌, ◌↔◌, pos, neg_ℤ, ◌≤ℤ◌, IsTrue, IfOk, SomeIff, IsErrOf, MatchResult};
ghost use Rattle.std.specs.Str.Parse.{AllDigits, IsNumeral, digits_value};
ghost use Rattle.frac128.specs.Text.{IsReading, IsTooWide, WritesNone};
ghost use Rattle.std.specs.Char.{is_ascii_digit};
ghost use Rattle.std.specs.Result.{result_ok};
ghost use Rattle.frac128.specs.Reader.{read_fraction};
ghost use Rattle.std.specs.List.{list_all, position};
ghost use Rattle.frac128.specs.Reading.{WritesNumber, IsNumberFault, WriteQuotient, IsQuotientFault, IsReadingFault, IsSizesFault, WritesSigned, WritesSizes, slash};

use crate::frac::Frac;

/// Why bytes are read as no fraction.
#[derive(Clone, Copy, Debug, PartialEq, Eq)]
pub enum FracFault {
    /// They are not an optional `-` and digits, alone or with a `/` and digits of a number other than 0.
    BadNumber,
    /// They are, and one of the two numbers is beyond 2^127 - 1.
    TooWide,
}

/// The fraction that the bytes write, in lowest terms.
pub fn read_frac(bytes: &[u8]) -> Result<Frac, FracFault>
    ensures ok { IfOk result (IsReading bytes.now) }
    ensures bad_number { IsErrOf result FracFault.BadNumber ↔ WritesNone bytes.now }
    ensures too_wide { IsErrOf result FracFault.TooWide ↔ IsTooWide bytes.now }
    ensures value { result_ok result ≡ read_fraction bytes.now }
{
    reduced(bytes)
}

// The same as one of three cases.
fn reduced(bytes: &[u8]) -> Result<Frac, FracFault>
    ensures { MatchResult result (IsReading bytes.now) (IsReadingFault bytes.now) }
{
    let (num, den) = signed_sizes(bytes)?;
    match Frac::make(num, den) {
        Ok(frac) => Ok(frac),
        Err(_) => Err(FracFault::TooWide),
    }
}

// The two numbers that the bytes write.
fn signed_sizes(bytes: &[u8]) -> Result<(i128, i128), FracFault>
    ensures { MatchResult result (λ sizes. WritesSigned bytes.now sizes.0 sizes.1)
        (IsReadingFault bytes.now) }
{
    if !bytes.is_empty() && bytes[0] == b'-' {
        negative_sizes(&bytes[1..])
    } else {
        sizes(bytes)
    }
}

// The two numbers that a text behind a `-` writes.
fn negative_sizes(text: &[u8]) -> Result<(i128, i128), FracFault>
    ensures { MatchResult result (λ sizes. WritesSizes text.now (neg_ℤ sizes.0) sizes.1)
        (IsSizesFault text.now) }
{
    let (num, den) = sizes(text)?;
    Ok((negated(num), den))
}

// The number with the other sign.
fn negated(num: i128) -> i128
    requires { pos 0 ≤ℤ num }
    ensures { result ≡ neg_ℤ num }
{
    -num
}

// The two numbers that a text without a sign writes.
fn sizes(text: &[u8]) -> Result<(i128, i128), FracFault>
    ensures { MatchResult result (λ sizes. WritesSizes text.now sizes.0 sizes.1)
        (IsSizesFault text.now) }
{
    match first_slash(text) {
        None => whole(text),
        Some(at) => quotient(&text[..at], &text[at + 1..]),
    }
}

// Where the first `/` stands.
fn first_slash(text: &[u8]) -> Option<usize>
    ensures { result ≡ position (λ byte. byte == slash) text.now }
{
    text.iter().position(|byte| *byte == b'/')
}

// The number that the text writes, over 1.
fn whole(text: &[u8]) -> Result<(i128, i128), FracFault>
    ensures { MatchResult result (λ sizes. WritesNumber text.now sizes.0 × (sizes.1 ≡ pos 1))
        (IsNumberFault text.now) }
{
    Ok((number(text)?, 1))
}

// The two numbers that the texts before and behind a `/` write.
fn quotient(top: &[u8], bottom: &[u8]) -> Result<(i128, i128), FracFault>
    ensures { MatchResult result (λ sizes. WriteQuotient top.now bottom.now sizes.0 sizes.1)
        (IsQuotientFault top.now bottom.now) }
{
    if !is_numeral(top) {
        return Err(FracFault::BadNumber);
    }
    let den = number(bottom)?;
    if den == 0 {
        return Err(FracFault::BadNumber);
    }
    Ok((number(top)?, den))
}

// The number that the text writes, where it is digits alone and in the range.
fn number(text: &[u8]) -> Result<i128, FracFault>
    ensures { MatchResult result (WritesNumber text.now) (IsNumberFault text.now) }
{
    if !is_numeral(text) {
        return Err(FracFault::BadNumber);
    }
    value(text).ok_or(FracFault::TooWide)
}

// Whether the text is one digit or more, and nothing else.
fn is_numeral(text: &[u8]) -> bool
    ensures { IsTrue result ↔ IsNumeral 10 text.now }
{
    !text.is_empty() && are_digits(text)
}

// Whether each byte is a digit.
fn are_digits(text: &[u8]) -> bool
    ensures { result ≡ list_all is_ascii_digit text.now }
{
    text.iter().all(|byte| byte.is_ascii_digit())
}

// The number that the digits write, where it is in the range.
fn value(digits: &[u8]) -> Option<i128>
    requires { AllDigits 10 digits.now }
    ensures { SomeIff result (digits_value 10 digits.now < 2 ^ 127)
        (pos (digits_value 10 digits.now)) }
{
    let mut sum: u128 = 0;
    for byte in digits {
        let digit = u128::from(*byte - b'0');
        sum = sum.checked_mul(10)?.checked_add(digit)?;
    }
    if sum <= i128::MAX as u128 {
        Some(sum as i128)
    } else {
        None
    }
}
