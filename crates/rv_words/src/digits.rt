//! Words in hexadecimal digits.

ghost use Rattle.std.specs.Prelude.{◌≡◌, ◌<◌, ◌≤◌, length, IfSome};
ghost use Rattle.rv_words.specs.Digits.{digit, value, word_of};

fn digit_of(byte: u8) -> Option<u32>
    ensures value { result ≡ digit byte }
    ensures below_16 { IfSome result (λ d. d < 16) }
{
    match byte {
        b'0'..=b'9' => Some((byte - b'0') as u32),
        b'a'..=b'f' => Some((byte - b'a' + 10) as u32),
        b'A'..=b'F' => Some((byte - b'A' + 10) as u32),
        _ => None,
    }
}

fn value_of(text: &[u8]) -> Option<u32>
    requires { length text.now ≤ 8 }
    ensures { result ≡ value text.now 0 }
{
    let mut word = 0u32;
    for byte in text {
        word = word * 16 + digit_of(*byte)?;
    }
    Some(word)
}

/// The word that a text spells in 1 to 8 hexadecimal digits of either case; `None` for any other
/// text.
pub fn word_in(text: &str) -> Option<u32>
    ensures { result ≡ word_of text.now }
{
    let text = text.as_bytes();
    if text.is_empty() || text.len() > 8 {
        None
    } else {
        value_of(text)
    }
}
