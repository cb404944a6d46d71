// Digits, in and out.
ghost use Rattle.std.specs.Prelude.{◌≡◌, ◌<◌, ◌≤◌};
ghost use Rattle.text.specs.Numbers.{digit_of, hex_digit};

// The value of a digit: 0 to 9 and A to F, capitals.
#[tactic(auto, unfolding(crate::specs::Numbers::digit_of, crate::specs::Numbers::digit_value))]
pub fn digit_value(b: u8) -> Option<u8>
    ensures { result ≡ digit_of 16 b }
{
    match b {
        b'0'..=b'9' => Some(b - b'0'),
        b'A'..=b'F' => Some(b - b'A' + 10),
        _ => None,
    }
}

// The value of a digit of a base.
#[tactic(auto, unfolding(crate::specs::Numbers::digit_of))]
pub fn digit(b: u8, base: u32) -> Option<u32>
    requires { base ≤ 16 }
    ensures { result ≡ digit_of base b }
{
    let d = u32::from(digit_value(b)?);
    (d < base).then_some(d)
}

// A hex digit of a value, a capital from 10 on.
#[tactic(auto, unfolding(crate::specs::Numbers::hex_digit))]
pub fn hex_digit(d: u8) -> u8
    requires { d < 16 }
    ensures { result ≡ hex_digit d }
{
    if d < 10 { b'0' + d } else { b'A' + (d - 10) }
}
