// The body of an install.
ghost use Rattle.std.specs.Prelude.{◌≡◌, ◌<◌, ◌≤◌, ◌^◌, ℕ, List, MatchOption, Some, None, length, decimal, if◌then◌else◌};
ghost use Rattle.std.specs.List.{list_all};
ghost use Rattle.std.specs.Char.{is_ascii_digit};
ghost use Rattle.std.specs.Str.Parse.{digits_value};
ghost use Rattle.dict_index.specs.Cuts.{HasNo, IsCutAt};
ghost use Rattle.http_service.specs.Actions.{IsInstallBody};

use memchr::memchr;

/// The most digits of an index's length.
const MAX_DIGITS: usize = 8;

// The number that at most eight decimal digits write.
fn read_digits(digits: &[u8]) -> Option<usize>
    requires { length digits.now ≤ 8 }
    ensures { result ≡ (if list_all is_ascii_digit digits.now then Some (digits_value 10 digits.now) else None) }
{
    let mut number: usize = 0;
    for digit in digits {
        if !digit.is_ascii_digit() {
            return None;
        }
        number = number * 10 + (*digit - b'0') as usize;
    }
    Some(number)
}

// The number that one to eight decimal digits write, without a leading zero.
fn read_size(digits: &[u8]) -> Option<usize>
    ensures { MatchOption result ((n : ℕ) → n < 10 ^ 8 → digits.now ≡ decimal n → ⊥) (λ n. (digits.now ≡ decimal n) × (n < 10 ^ 8)) }
{
    if digits.is_empty() || digits.len() > MAX_DIGITS {
        return None;
    }
    if digits.len() > 1 && digits[0] == b'0' {
        return None;
    }
    read_digits(digits)
}

// What stands before the first LF, and what behind it.
fn cut_at_line_feed(body: &[u8]) -> Option<(&[u8], &[u8])>
    ensures { MatchOption result (HasNo 10 body.now) (λ parts. IsCutAt 10 body.now parts.0.now parts.1.now) }
{
    let place = memchr(b'\n', body)?;
    Some((&body[..place], &body[place + 1..]))
}

// The index and the text that the body has, where it has that form.
pub fn parts_of(body: &[u8]) -> Option<(&[u8], &[u8])>
    ensures { MatchOption result ((index text : List ℕ) → ¬ IsInstallBody body.now index text) (λ parts. IsInstallBody body.now parts.0.now parts.1.now) }
{
    let Some((digits, rest)) = cut_at_line_feed(body) else {
        return None;
    };
    let Some(size) = read_size(digits) else {
        return None;
    };
    if rest.len() < size {
        return None;
    }
    Some(rest.split_at(size))
}
