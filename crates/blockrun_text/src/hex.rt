// Hexadecimal digits in capitals.
ghost use Rattle.std.specs.Prelude.{◌≡◌, ◌+◌, ◌*◌};
ghost use Rattle.blockrun_text.specs.Hex.{digit_read, digit_value_of, digit_of};

// A digit's value. Small letters are no digits.
#[tactic(auto, unfolding(crate::specs::Hex::digit_read, crate::specs::Hex::is_digit, crate::specs::Hex::digit_value_of))]
pub fn digit_value(byte: u8) -> Option<u8>
    ensures { result ≡ digit_read byte }
{
    match byte {
        b'0'..=b'9' => Some(byte - b'0'),
        b'A'..=b'F' => Some(byte - b'A' + 10),
        _ => None,
    }
}

// The byte of two digits, in which another byte counts as 0.
#[tactic(auto, using(crate::proofs::Reading::digit_small, crate::proofs::Reading::digit_or))]
pub fn byte_of(high: u8, low: u8) -> u8
    ensures { result ≡ digit_value_of high * 16 + digit_value_of low }
{
    digit_value(high).unwrap_or(0) * 16 + digit_value(low).unwrap_or(0)
}

// A number's last digit.
#[tactic(auto, unfolding(crate::specs::Hex::digit_of))]
pub fn last_digit(n: u16) -> u8
    ensures { result ≡ digit_of n }
{
    let low = (n % 16) as u8;
    if low < 10 {
        b'0' + low
    } else {
        b'A' - 10 + low
    }
}
