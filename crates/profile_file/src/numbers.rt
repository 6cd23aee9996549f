//! Numbers and names in a profile.

ghost use Rattle.std.specs.Prelude.{◌≡◌, ◌≤◌, IfSome, length, option_map};
ghost use Rattle.std.specs.List.{list_all, prefix_len};
ghost use Rattle.profile_file.specs.Reading.{after, count_at, is_digit, is_name, name_at, number_of};
ghost use Rattle.profile_file.specs.Text.{begins_name, goes_on_in_name, is_letter};

use lay_base::keyword_of;

/// The greatest count.
const GREATEST_COUNT: u64 = 1_000_000_000_000_000_000;

/// The most bytes of a name.
const LONGEST_NAME: usize = 255;

/// What stands behind some bytes, where they are in front.
pub fn after<'a>(text: &'a [u8], front: &[u8]) -> Option<&'a [u8]>
    ensures value { option_map (λ rest. rest.now) result ≡ after front.now text.now }
    ensures within { IfSome result (λ rest. length rest.now ≤ length text.now) }
{
    text.strip_prefix(front)
}

fn is_digit(b: u8) -> bool
    ensures { result ≡ is_digit b }
{
    b.is_ascii_digit()
}

fn digit_run(text: &[u8]) -> usize
    ensures is { result ≡ prefix_len is_digit text.now }
    ensures within { result ≤ length text.now }
{
    text.iter().take_while(|b| is_digit(**b)).count()
}

/// The number of these digits, where it has no leading zero and is at most the greatest count.
fn number_of(digits: &[u8]) -> Option<u64>
    ensures { result ≡ number_of digits.now }
{
    if let [] | [b'0', _, ..] = digits {
        return None;
    }
    let mut number: u64 = 0;
    for digit in digits {
        if !is_digit(*digit) {
            return None;
        }
        number = number * 10 + u64::from(*digit - b'0');
        if number > GREATEST_COUNT {
            return None;
        }
    }
    Some(number)
}

/// The number in front of a text, where it ends its line, and what stands behind that line.
pub fn count_at(text: &[u8]) -> Option<(u64, &[u8])>
    ensures { option_map (λ found. (found.0, found.1.now)) result ≡ count_at text.now }
{
    let (digits, rest) = text.split_at(digit_run(text));
    let [b'\n', rest @ ..] = rest else {
        return None;
    };
    Some((number_of(digits)?, rest))
}

fn is_letter(b: u8) -> bool
    ensures { result ≡ is_letter b }
{
    b.is_ascii_alphabetic() || b == b'_'
}

fn goes_on_in_name(b: u8) -> bool
    ensures { result ≡ goes_on_in_name b }
{
    is_letter(b) || b.is_ascii_digit()
}

fn name_run(text: &[u8]) -> usize
    ensures is { result ≡ prefix_len goes_on_in_name text.now }
    ensures within { result ≤ length text.now }
{
    text.iter().take_while(|b| goes_on_in_name(**b)).count()
}

fn begins_name(name: &[u8]) -> bool
    ensures { result ≡ begins_name name.now }
{
    match name {
        [] => false,
        [first, ..] => is_letter(*first),
    }
}

fn all_go_on(name: &[u8]) -> bool
    ensures { result ≡ list_all goes_on_in_name name.now }
{
    name.iter().all(|b| goes_on_in_name(*b))
}

fn is_name(name: &[u8]) -> bool
    ensures { result ≡ is_name name.now }
{
    begins_name(name) && all_go_on(name) && name.len() <= LONGEST_NAME && keyword_of(name).is_none()
}

/// The name in front of a text, where a space stands behind it, and what stands behind the space.
pub fn name_at(text: &[u8]) -> Option<(&[u8], &[u8])>
    ensures { option_map (λ found. (found.0.now, found.1.now)) result ≡ name_at text.now }
{
    let (name, rest) = text.split_at(name_run(text));
    match rest {
        [b' ', rest @ ..] if is_name(name) => Some((name, rest)),
        _ => None,
    }
}
