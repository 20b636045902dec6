// From a spelling to its number.
ghost use Rattle.std.specs.Prelude.{◌≡◌, ℕ, ◌≤◌, ◌^◌, ◌<◌, List, length, MatchOption, IfOk, IfErr, Ok, Err};
ghost use Rattle.std.specs.List.{AllZip, AllByRecursion};
ghost use Rattle.dict_text.specs.Number.{Spells, IsDigit, number_of};
ghost use Rattle.dict_text.specs.Faults.{IsNumberFault, IsSomeDigit};

use crate::digits::MAX_DIGITS;
use thiserror::Error;

/// Why a text spells no number: the first of these that applies.
#[derive(Clone, Copy, Debug, PartialEq, Eq, Error)]
pub enum NumberFault {
    /// The text is empty.
    #[error("the empty text")]
    Empty,
    /// There are more than six bytes.
    #[error("more than six bytes")]
    Long,
    /// A byte is no digit.
    #[error("a byte that is no digit")]
    Digit,
    /// A number of more than one digit begins with the digit of 0.
    #[error("a needless digit of 0 in front")]
    Leading,
}

/// The number that a text spells in dictd's base 64, or the first fault that applies.
pub fn read_number(text: &[u8]) -> Result<u64, NumberFault>
    ensures found { IfOk result (λ n. Spells text.now n) }
    ensures only { (n : ℕ) → Spells text.now n → result ≡ Ok n }
    ensures small { IfOk result (λ n. n < 64 ^ 6) }
    ensures fault { IfErr result (λ fault. IsNumberFault text.now fault) }
    ensures first { (fault : NumberFault) → IsNumberFault text.now fault → result ≡ Err fault }
{
    if text.is_empty() {
        return Err(NumberFault::Empty);
    }
    if text.len() > MAX_DIGITS {
        return Err(NumberFault::Long);
    }
    let Some(number) = sum_of_digits(text) else {
        return Err(NumberFault::Digit);
    };
    if text.len() > 1 && text[0] == b'A' {
        return Err(NumberFault::Leading);
    }
    Ok(number)
}

// What the digits add up to, each at its place, if all are digits.
fn sum_of_digits(text: &[u8]) -> Option<u64>
    requires { length text.now ≤ 6 }
    ensures { MatchOption result (¬ AllByRecursion IsSomeDigit text.now)
        (λ n. (values : List ℕ) × AllZip IsDigit text.now values × (n ≡ number_of values)) }
{
    let mut number = 0u64;
    for byte in text {
        let value = digit_value(*byte)?;
        number = number * 64 + u64::from(value);
    }
    Some(number)
}

// The value of a digit.
fn digit_value(byte: u8) -> Option<u8>
    ensures { MatchOption result (¬ IsSomeDigit byte) (λ value. IsDigit byte value) }
{
    match byte {
        b'A'..=b'Z' => Some(byte - b'A'),
        b'a'..=b'z' => Some(byte - b'a' + 26),
        b'0'..=b'9' => Some(byte - b'0' + 52),
        b'+' => Some(62),
        b'/' => Some(63),
        _ => None,
    }
}
