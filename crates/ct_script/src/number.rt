// Decimal numbers.
ghost use Rattle.std.specs.Prelude.{◌≡◌, ◌+◌, ◌-◌, ◌*◌, ◌^◌, ◌≤◌, ◌<◌, MatchOption, length};
ghost use Rattle.std.specs.Char.{is_ascii_digit};
ghost use Rattle.std.specs.List.{list_all};
ghost use Rattle.ct_script.specs.Grammar.{is_number, value_below, number_of, byte_of};

/// A number below 2^64.
pub fn number_of(word: &[u8]) -> Option<u64>
    ensures { result ≡ number_of word.now }
{
    if is_number(word) {
        value_of(word)
    } else {
        None
    }
}

/// The value of digits, where it is below 2^64.
fn value_of(word: &[u8]) -> Option<u64>
    ensures { result ≡ value_below (2 ^ 64) word.now }
{
    let mut value: u64 = 0;
    for digit in word {
        match with_digit(value, *digit) {
            Some(more) => value = more,
            None => return None,
        }
    }
    Some(value)
}

/// A number below 256.
pub fn byte_of(word: &[u8]) -> Option<u8>
    ensures { result ≡ byte_of word.now }
{
    match number_of(word) {
        Some(value) if value < 256 => Some(value as u8),
        _ => None,
    }
}

/// Digits, with no zero in front of others.
fn is_number(word: &[u8]) -> bool
    ensures { result ≡ is_number word.now }
{
    match word {
        [] => false,
        [digit] => digit.is_ascii_digit(),
        [first, ..] => *first != b'0' && are_digits(word),
    }
}

fn are_digits(word: &[u8]) -> bool
    ensures { result ≡ list_all is_ascii_digit word.now }
{
    word.iter().all(|digit| digit.is_ascii_digit())
}

/// The value with one digit more, where it is below 2^64.
fn with_digit(value: u64, digit: u8) -> Option<u64>
    ensures { MatchOption result (2 ^ 64 ≤ 10 * value + (digit - 48)) (λ more. (more ≡ 10 * value + (digit - 48)) × (more < 2 ^ 64)) }
{
    match value.checked_mul(10) {
        Some(tens) => tens.checked_add(u64::from(digit.saturating_sub(b'0'))),
        None => None,
    }
}
