ghost use Rattle.std.specs.Prelude.{◌≡◌, ◌+◌, ◌*◌, ◌<◌};
ghost use Rattle.hexadecimal.specs.Digits.{nibble, nibble_or_0, both, digit};
ghost use Rattle.hexadecimal.specs.Digits.{digits as digits_of};

/// The value of a hexadecimal digit of either case.
pub fn digit_value(c: u8) -> Option<u8>
    ensures { result ≡ nibble c }
{
    match c {
        b'0'..=b'9' => Some(c - b'0'),
        b'A'..=b'F' => Some(c - b'A' + 10),
        b'a'..=b'f' => Some(c - b'a' + 10),
        _ => None,
    }
}

/// The byte that two digits spell, if both are digits.
pub fn pair_value(high: u8, low: u8) -> Option<u8>
    ensures { result ≡ both (nibble high) (nibble low) }
{
    let h = digit_value(high)?;
    let l = digit_value(low)?;
    Some(h * 16 + l)
}

/// The value of a digit, and 0 for any other character.
fn value_or_zero(c: u8) -> u8
    ensures value { result ≡ nibble_or_0 c }
    ensures bound { result < 16 }
{
    digit_value(c).unwrap_or(0)
}

/// The byte that two characters spell, one that is no digit counting as 0.
pub fn pair_or_zero(high: u8, low: u8) -> u8
    ensures { result ≡ nibble_or_0 high * 16 + nibble_or_0 low }
{
    value_or_zero(high) * 16 + value_or_zero(low)
}

/// The uppercase digit of a value below sixteen.
fn digit_of(n: u8) -> u8
    requires { n < 16 }
    ensures { result ≡ digit n }
{
    if n < 10 { b'0' + n } else { b'A' - 10 + n }
}

/// The two uppercase digits of a byte.
pub fn digits(b: u8) -> [u8; 2]
    ensures { result ≡ digits_of b }
{
    [digit_of(b / 16), digit_of(b % 16)]
}
