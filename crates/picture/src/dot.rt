// One bit, one dot by its number, and all of them.
ghost use Rattle.std.specs.Prelude.{◌≡◌, ◌*◌, ◌<◌, length};
ghost use Rattle.picture.specs.Bit.{bit_at, with_bit};
ghost use Rattle.picture.specs.Dot.{set_dot, whole};

// Bit k of v. That k is a bit's number is asked here and of what follows: as a type of its own it would be made and taken apart at
// each call, which is no plainer.
pub fn bit_at(v: u8, k: u8) -> bool
    requires { k < 8 }
    ensures { result ≡ bit_at k v }
{
    (v >> k) % 2 == 1
}

// v with bit k lit or dark.
pub fn with_bit(v: u8, k: u8, lit: bool) -> u8
    requires { k < 8 }
    ensures { result ≡ with_bit lit k v }
{
    let mask = 1u8 << k;
    if lit { v | mask } else { v & !mask }
}

// Lights or darkens dot number d.
pub fn set_dot(pic: &mut [u8], d: usize, lit: bool)
    requires { d < 8 * length pic.old }
    ensures { pic.new ≡ set_dot lit d pic.old }
{
    let i = d / 8;
    let k = (d % 8) as u8;
    pic[i] = with_bit(pic[i], k, lit);
}

// Lights or darkens the whole picture.
pub fn set_all(pic: &mut [u8], lit: bool)
    ensures { pic.new ≡ whole lit pic.old }
{
    if lit {
        pic.fill(255);
    } else {
        pic.fill(0);
    }
}
