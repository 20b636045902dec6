// From a number to its spelling.
ghost use Rattle.std.specs.Prelude.{◌≡◌, ℕ, ◌≤◌, ◌^◌, ◌<◌, List, ◌-◌, length, take, drop};
ghost use Rattle.std.specs.List.{AllZip};
ghost use Rattle.dict_text.specs.Number.{Spells, IsDigit, number_of};

use crate::digits::MAX_DIGITS;

const ALPHABET: &[u8; 64] = b"ABCDEFGHIJKLMNOPQRSTUVWXYZabcdefghijklmnopqrstuvwxyz0123456789+/";

/// Writes the one spelling of a number to the front of `text`, and answers how many bytes it has.
/// What lies behind them stays.
pub fn write_number(number: u64, text: &mut [u8; MAX_DIGITS]) -> usize
    requires { number < 64 ^ 6 }
    ensures spelled { Spells (take result text.new) number }
    ensures only { (s : List ℕ) → Spells s number → s ≡ take result text.new }
    ensures others { drop result text.new ≡ drop result text.old }
{
    let count = digit_count(number);
    write_digits(number, count, text);
    count
}

// How many digits the number has.
fn digit_count(number: u64) -> usize
    requires { number < 64 ^ 6 }
    ensures some { 1 ≤ result }
    ensures few { result ≤ 6 }
    ensures enough { number < 64 ^ result }
    ensures least { 1 < result → 64 ^ (result - 1) ≤ number }
{
    if number < 64 {
        1
    } else if number < 4096 {
        2
    } else if number < 262_144 {
        3
    } else if number < 16_777_216 {
        4
    } else if number < 1_073_741_824 {
        5
    } else {
        6
    }
}

// Writes so many digits to the front.
fn write_digits(number: u64, count: usize, text: &mut [u8])
    requires room { count ≤ length text.old }
    requires small { number < 64 ^ count }
    ensures digits { (values : List ℕ) × AllZip IsDigit (take count text.new) values × (number ≡ number_of values) }
    ensures others { drop count text.new ≡ drop count text.old }
{
    if count > 0 {
        write_digits(number / 64, count - 1, text);
        text[count - 1] = ALPHABET[(number % 64) as usize];
    }
}
