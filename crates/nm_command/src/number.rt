//! The numbers that options and a drill are given, for `leading_options`, `table` and `command_parser`.

ghost use Rattle.std.specs.Prelude.{◌≡◌, ◌≤◌, ◌&&◌, nat_le, IfSome, Some, None, if◌then◌else◌};
ghost use Rattle.std.specs.Char.{is_ascii_digit};
ghost use Rattle.std.specs.List.{list_all};
ghost use Rattle.nm_command.specs.Numbers.{are_digits, are_some_digits, drill_count_in, moment_in, number_in, number_up_to, said_up_to, workers_in};

const MAX_DIGITS: usize = 10;

const MAX_WORKERS: u64 = 16;

/// The most mails of a drill.
const MAX_MAILS: u32 = 20_000;

const MAX_MOMENT: u64 = 253_000_000_000;

/// The number that the text says: 1 to 10 decimal digits that fit 32 bits, and nothing else.
pub(crate) fn number(text: &str) -> Option<u32>
    ensures { result ≡ number_in text.now }
{
    if !are_digits(MAX_DIGITS, text.as_bytes()) {
        return None;
    }
    match text.parse::<u32>() {
        Ok(number) => Some(number),
        Err(_) => None,
    }
}

/// The number of workers that the text says: 1 to 16.
pub(crate) fn workers(text: &str) -> Option<u32>
    ensures { result ≡ workers_in text.now }
{
    match said_up_to(MAX_WORKERS, text) {
        Some(number) => if_some(number),
        None => None,
    }
}

fn if_some(number: u64) -> Option<u32>
    requires { number ≤ 16 }
    ensures { result ≡ (if nat_le 1 number then Some number else None) }
{
    if number >= 1 {
        return Some(number as u32);
    }
    None
}

/// How many mails a drill makes, as the text says it: 1 to 20,000.
pub(crate) fn drill_count(text: &str) -> Option<u32>
    ensures { result ≡ drill_count_in text.now }
{
    number_up_to(MAX_MAILS, text)
}

/// The number that the text says, where it is from 1 to this one.
fn number_up_to(most: u32, text: &str) -> Option<u32>
    ensures { result ≡ number_up_to most text.now }
{
    match number(text) {
        Some(number) => if_up_to(most, number),
        None => None,
    }
}

fn if_up_to(most: u32, number: u32) -> Option<u32>
    ensures { result ≡ (if nat_le 1 number && nat_le number most then Some number else None) }
{
    if number >= 1 && number <= most {
        return Some(number);
    }
    None
}

/// The second that the text says: decimal digits, at most 253,000,000,000.
pub(crate) fn moment(text: &str) -> Option<i64>
    ensures { result ≡ moment_in text.now }
{
    match said_up_to(MAX_MOMENT, text) {
        Some(second) => Some(second as i64),
        None => None,
    }
}

/// What decimal digits say, however many lead it as zeros, where that is at most this.
fn said_up_to(most: u64, text: &str) -> Option<u64>
    ensures said { result ≡ said_up_to most text.now }
    ensures within { IfSome result (λ number. number ≤ most) }
{
    if !are_some_digits(text.as_bytes()) {
        return None;
    }
    match text.parse::<u64>() {
        Ok(number) => if_at_most(most, number),
        Err(_) => None,
    }
}

fn if_at_most(most: u64, number: u64) -> Option<u64>
    ensures said { result ≡ (if nat_le number most then Some number else None) }
    ensures within { IfSome result (λ number. number ≤ most) }
{
    if number <= most {
        return Some(number);
    }
    None
}

fn are_some_digits(text: &[u8]) -> bool
    ensures { result ≡ are_some_digits text.now }
{
    if text.is_empty() {
        return false;
    }
    are_all_digits(text)
}

fn are_digits(max: usize, text: &[u8]) -> bool
    ensures { result ≡ are_digits max text.now }
{
    if text.is_empty() || text.len() > max {
        return false;
    }
    are_all_digits(text)
}

fn are_all_digits(text: &[u8]) -> bool
    ensures { result ≡ list_all is_ascii_digit text.now }
{
    text.iter().all(|byte| is_digit(*byte))
}

fn is_digit(byte: u8) -> bool
    ensures { result ≡ is_ascii_digit byte }
{
    byte.is_ascii_digit()
}
