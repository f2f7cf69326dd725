//! Numbers in decimal digits, for `read_end`.

ghost use Rattle.std.specs.Prelude.{◌≡◌, ◌+◌, ◌*◌, ◌≤◌, ◌<◌, ◌^◌, IfSome, IsTrue, length};
ghost use Rattle.std.specs.Bool.{OnTrue};
ghost use Rattle.std.specs.List.{list_all};
ghost use Rattle.nm_dates.specs.Numbers.{is_digit, is_number, number_in, number_of, with_digit};

/// The number that the text says, where it is 1 to `max` digits and nothing else.
pub(crate) fn number(text: &[u8], max: usize) -> Option<u64>
    requires { max ≤ 12 }
    ensures value { result ≡ number_in max text.now }
    ensures bound { IfSome result (λ n. n < 10 ^ max) }
{
    if !is_number(text, max) {
        return None;
    }
    Some(number_of(text))
}

fn is_number(text: &[u8], max: usize) -> bool
    ensures value { result ≡ is_number max text.now }
    ensures few { OnTrue result (length text.now ≤ max) }
    ensures digits { OnTrue result (IsTrue (list_all is_digit text.now)) }
{
    if text.is_empty() || text.len() > max {
        return false;
    }
    are_digits(text)
}

fn are_digits(text: &[u8]) -> bool
    ensures { result ≡ list_all is_digit text.now }
{
    text.iter().all(|byte| is_digit(*byte))
}

fn number_of(text: &[u8]) -> u64
    requires few { length text.now ≤ 12 }
    requires digits { IsTrue (list_all is_digit text.now) }
    ensures value { result ≡ number_of text.now }
    ensures bound { result < 10 ^ length text.now }
{
    let mut number = 0;
    'digits: for digit in text {
        number = with_digit(number, *digit);
    }
    number
}

fn with_digit(number: u64, digit: u8) -> u64
    requires number { number < 100000000000 }
    requires digit { IsTrue (is_digit digit) }
    ensures value { result ≡ with_digit number digit }
    ensures bound { result < (number + 1) * 10 }
{
    number * 10 + u64::from(digit - b'0')
}

pub(crate) fn is_digit(byte: u8) -> bool
    ensures { result ≡ is_digit byte }
{
    byte.is_ascii_digit()
}
