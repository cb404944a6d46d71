// The 12-bit positions. These helpers wrap at 4,096 on purpose.
ghost use Rattle.std.specs.Prelude.{◌≡◌, ◌≤◌};
ghost use Rattle.motion.specs.Position.{ahead, behind, signed, moved};

// A place, or a way from one place to another.
#[derive(Clone, Copy)]
pub struct Spot {
    pub x: u16,
    pub y: u16,
}

// p moved on by n.
pub(crate) fn forward(p: u16, n: u16) -> u16
    ensures { result ≡ ahead p n }
{
    (p % 4096 + n % 4096) % 4096
}

// p moved back by n.
pub(crate) fn backward(p: u16, n: u16) -> u16
    ensures { result ≡ behind p n }
{
    (p % 4096 + (4096 - n % 4096)) % 4096
}

// p moved back or on by n.
pub(crate) fn advance(p: u16, back: bool, n: u16) -> u16
    requires { n ≤ 4096 }
    ensures { result ≡ ahead p (signed back n) }
{
    if back { backward(p, n) } else { forward(p, n) }
}

// A place moved on by a way.
pub(crate) fn moved(at: Spot, way: Spot) -> Spot
    ensures { result ≡ moved at way }
{
    Spot {
        x: forward(at.x, way.x),
        y: forward(at.y, way.y),
    }
}
