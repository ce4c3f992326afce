//! Numbers of 64 bits in 16 hexadecimal digits.
ghost use Rattle.std.specs.Prelude.{◌≡◌, ◌≢◌, ℕ, ◌<◌, ◌^◌, IfSome, IfNone};
ghost use Rattle.base_lemmas.specs.Hexadecimal.{hex_digit, hex16_of};

/// The digits of a number of 64 bits.
const DIGITS: usize = 16;

// The digit of a number below 16.
fn digit_text(digit: u64) -> u8
    requires { digit < 16 }
    ensures { result ≡ hex_digit digit }
{
    if digit < 10 {
        b'0' + digit as u8
    } else {
        b'a' + (digit as u8 - 10)
    }
}

// The number of a digit in lower case.
fn digit_of(text: u8) -> Option<u64>
    ensures some { IfSome result (λ d. (d < 16) × (text ≡ hex_digit d)) }
    ensures none { IfNone result ((d : ℕ) → d < 16 → text ≢ hex_digit d) }
{
    match text {
        b'0'..=b'9' => Some(u64::from(text - b'0')),
        b'a'..=b'f' => Some(u64::from(text - b'a') + 10),
        _ => None,
    }
}

/// A number in 16 hexadecimal digits, in lower case, the highest first.
pub fn hex16(number: u64) -> [u8; 16]
    ensures { result ≡ hex16_of number }
{
    let mut text = [b'0'; DIGITS];
    let mut rest = number;
    let mut at = DIGITS;
    while at > 0 {
        at -= 1;
        text[at] = digit_text(rest % 16);
        rest /= 16;
    }
    text
}

/// The number that a text spells as `hex16` does. `None` where it is so spelled by none: it hasn't 16 bytes, or one of
/// them is no digit or is in upper case.
pub fn read_hex16(text: &str) -> Option<u64>
    ensures found { IfSome result (λ n. (n < 2 ^ 64) × (text.now ≡ hex16_of n)) }
    ensures none { IfNone result ((n : ℕ) → n < 2 ^ 64 → text.now ≢ hex16_of n) }
{
    if text.len() != DIGITS {
        return None;
    }
    let mut number = 0;
    for digit in text.as_bytes() {
        number = number * 16 + digit_of(*digit)?;
    }
    Some(number)
}
