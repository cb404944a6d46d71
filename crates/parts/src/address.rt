// The address outputs of a position: DAD as shifts and joins of reversed bytes, and MSL.
ghost use Rattle.std.specs.Prelude.{◌≡◌, [], ◌∷◌, not, ◌-◌, ◌%◌, ◌≤◌, ◌<◌, eqb};
ghost use Rattle.picture.specs.Bit.{digit, bit_at};
ghost use Rattle.parts.specs.Address.{number, address_of};
ghost use Rattle.parts.specs.Working.Bytes.{down, Wired};

use crate::format::Format;

// DAD while CK is low, DAD while CK is high, and MSL.
#[derive(Clone, Copy)]
pub struct Address {
    pub low: u8,
    pub high: u8,
    pub msl: u8,
}

// What a format leads to its lines: eight bits of X and eight of Y, of which DAD shows the six highest from the top down, and
// on DAD6 the lowest of Y while CK is low; what DAD6 shows while CK is high; and MSL.
#[derive(Clone, Copy)]
pub(crate) struct Wiring {
    pub x: u8,
    pub y: u8,
    pub dad6: u8,
    pub msl: u8,
}

// A byte from its bit 7 down: its halves exchanged, then the pairs of each half, then the neighbours of each pair.
#[tactic(auto, using(crate::proofs::Reversal::reverses))]
fn reversed(b: u8) -> u8
    ensures { result ≡ number (down b) }
{
    let halves = (b >> 4) | (b << 4);
    let pairs = ((halves >> 2) & 0x33) | ((halves & 0x33) << 2);
    ((pairs >> 1) & 0x55) | ((pairs & 0x55) << 1)
}

// A row of the paper's table for each format. The remainders are meant to drop what is above, so a conversion that tests would be no
// plainer.
fn wiring_of(f: Format, x: u16, y: u16) -> Wiring
    ensures { Wired f x y result }
{
    match f {
        Format::Ef9366 => Wiring {
            x: (x / 2 % 256) as u8,
            y: (y % 256) as u8,
            dad6: (y / 2 % 2) as u8,
            msl: (x % 8 + 8) as u8,
        },
        Format::FmatHigh => Wiring {
            x: (x / 2 % 256) as u8,
            y: (y / 2 % 256) as u8,
            dad6: (y % 2) as u8,
            msl: (x % 8 + y / 4 % 2 * 8) as u8,
        },
        Format::FmatLow => Wiring {
            x: (x % 256) as u8,
            y: (y % 256) as u8,
            dad6: (y / 2 % 2) as u8,
            msl: 15 ^ (1u8 << (x % 4)),
        },
    }
}

// The outputs for a position: while CK is low, six lines of X's byte and the last of Y's; while it is high, six of Y's
// and DAD6.
pub fn outputs(f: Format, x: u16, y: u16) -> Address
    ensures { result ≡ address_of f x y }
{
    let w = wiring_of(f, x, y);
    let across = reversed(w.x);
    let up = reversed(w.y);
    Address {
        low: across % 64 + up / 128 * 64,
        high: up % 64 + w.dad6 * 64,
        msl: w.msl,
    }
}

// The lines picked apart bit by bit, as they were before the exchange; no call needs these four any more, so they stay to the letter: nothing else states
// what they promise.

// Bit k of a position.
fn bit(v: u16, k: u16) -> u8
    requires { k < 16 }
    ensures { (result ≡ digit (bit_at k v)) × (result < 2) }
{
    ((v >> k) % 2) as u8
}

// Seven lines: six bits of v from the top one down, and a bit k of w.
fn seven(v: u16, top: u16, w: u16, k: u16) -> u8
    requires { (5 ≤ top) × (top < 16) × (k < 16) }
    ensures { result ≡ number (bit_at top v ∷ bit_at (top - 1) v ∷ bit_at (top - 2) v ∷ bit_at (top - 3) v ∷ bit_at (top - 4) v ∷ bit_at (top - 5) v ∷ bit_at k w ∷ []) }
{
    let a = bit(v, top);
    let b = bit(v, top - 1);
    let c = bit(v, top - 2);
    let d = bit(v, top - 3);
    let e = bit(v, top - 4);
    let f = bit(v, top - 5);
    let g = bit(w, k);
    a + 2 * (b + 2 * (c + 2 * (d + 2 * (e + 2 * (f + 2 * g)))))
}

// Three bits of X, and a fourth line.
fn four(x: u16, w: u16, k: u16) -> u8
    requires { k < 16 }
    ensures { result ≡ number (bit_at 0 x ∷ bit_at 1 x ∷ bit_at 2 x ∷ bit_at k w ∷ []) }
{
    let a = bit(x, 0);
    let b = bit(x, 1);
    let c = bit(x, 2);
    let d = bit(w, k);
    a + 2 * (b + 2 * (c + 2 * d))
}

// All four lines high but the one of x mod 4.
fn one_low(x: u16) -> u8
    ensures { result ≡ number (not (eqb (x % 4) 0) ∷ not (eqb (x % 4) 1) ∷ not (eqb (x % 4) 2) ∷ not (eqb (x % 4) 3) ∷ []) }
{
    match x % 4 {
        0 => 14,
        1 => 13,
        2 => 11,
        _ => 7,
    }
}
