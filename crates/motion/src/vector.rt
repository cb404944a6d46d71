// How a vector steps: by an error term, so that no dot costs a division.
ghost use Rattle.std.specs.Prelude.{◌≡◌, cond, ℕ, ◌+◌, ◌*◌, ◌/◌, ◌%◌, ◌≤◌, ◌<◌, ◌||◌, eqb, ltb};
ghost use Rattle.picture.specs.Bit.{bit_at};
ghost use Rattle.motion.specs.Position.{behind};
ghost use Rattle.motion.specs.Vector.{line_of, vector_x, vector_y};
ghost use Rattle.motion.specs.Working.Strokes.{error_of, Lengths, OnDot};

use crate::position::advance;

// The larger length and the smaller, whether Y is the longer axis, and whether X and Y fall.
#[derive(Clone, Copy)]
pub struct Line {
    pub long: u16,
    pub short: u16,
    pub steep: bool,
    pub left: bool,
    pub down: bool,
}

// A vector: its line, of lengths that a code can give.
#[derive(Clone, Copy)]
pub struct Vector {
    pub line: Line,
    pub ghost lengths: { Lengths line },
}

// The place of the next dot, its number, and its error term. That the number is one of the vector's is said in each contract: a struct
// of both would have to say of each step that the vector stays, which is no plainer.
#[derive(Clone, Copy)]
pub struct Stroke {
    pub x: u16,
    pub y: u16,
    pub i: u16,
    pub error: u16,
}

// The error term one dot further, and by how much the shorter axis steps: a distance, none or one.
#[derive(Clone, Copy)]
pub struct Hop {
    pub step: u16,
    pub error: u16,
}

// The length that a code gives an axis: the axis' own delta, the larger of both, or the code's own two bits.
fn given(code: u8, own: u8, both: u8, short: u8) -> u8
    ensures { result ≡ cond (ltb code 0x80) (cond (bit_at 3 code) both own) short }
{
    if code < 0x80 {
        if code / 8 % 2 == 1 { both } else { own }
    } else {
        short
    }
}

// The length of a code along an axis: none in the two directions that go along the other axis only.
fn length<const THERE: u8, const BACK: u8>(code: u8, own: u8, both: u8, short: u8) -> u8
    ensures { result ≡ cond (eqb (code % 8) THERE || eqb (code % 8) BACK) 0 (cond (ltb code 0x80) (cond (bit_at 3 code) both own) short) }
{
    let d = code % 8;
    if (d == THERE) | (d == BACK) {
        return 0;
    }
    given(code, own, both, short)
}

// Whether a code falls along an axis: in two directions of that axis' own, and in direction 7.
fn falls<const A: u8, const B: u8>(code: u8) -> bool
    ensures { result ≡ eqb (code % 8) A || eqb (code % 8) B || eqb (code % 8) 7 }
{
    let d = code % 8;
    (d == A) | (d == B) | (d == 7)
}

// The vector of a code, DELTAX and DELTAY.
pub fn line_of(code: u8, dx: u8, dy: u8) -> Line
    ensures { (result ≡ line_of code dx dy) × Lengths result }
{
    let both = dx.max(dy);
    let across = length::<2, 4>(code, dx, both, code / 32 % 4) as u16;
    let up = length::<0, 6>(code, dy, both, code / 8 % 4) as u16;
    Line {
        long: across.max(up),
        short: across.min(up),
        steep: across < up,
        left: falls::<3, 6>(code),
        down: falls::<4, 5>(code),
    }
}

// One dot further: the sum is below two divisors, so it carries none or one.
pub fn hopped(error: u16, short: u16, long: u16) -> Hop
    requires { (error < 2 * long) × (short ≤ long) × (long ≤ 255) }
    ensures { (result.step ≡ (error + 2 * short) / (2 * long)) × (result.error ≡ (error + 2 * short) % (2 * long)) }
{
    let t = error + 2 * short;
    let d = 2 * long;
    if t < d {
        Hop { step: 0, error: t }
    } else {
        Hop {
            step: 1,
            error: t - d,
        }
    }
}

impl Vector {
    // The error term of dot i: one division, once for a run of dots.
    pub fn error_at(self, i: u16) -> u16
        requires { i ≤ self.line.long }
        ensures { result ≡ error_of self.line.long self.line.short i }
    {
        let long = self.line.long as u32;
        if long == 0 {
            return 0;
        }
        ((2 * (i as u32) * (self.line.short as u32) + long) % (2 * long)) as u16
    }

    // The stroke of a vector whose dot i is at (x, y).
    pub fn stroke_at(self, x: u16, y: u16, i: u16) -> Stroke
        requires { (i ≤ self.line.long) × (x < 4096) × (y < 4096) }
        ensures { (result.i ≡ i) × OnDot self.line (behind x (vector_x self.line i)) (behind y (vector_y self.line i)) result }
    {
        Stroke {
            x,
            y,
            i,
            error: self.error_at(i),
        }
    }

    // One dot further: one along the longer axis, none or one along the other. After the last dot the place stays.
    pub fn next_dot(self, s: Stroke) -> Stroke
        requires { (s.i ≤ self.line.long) × (s.error ≡ error_of self.line.long self.line.short s.i) }
        ensures { (result.i ≡ s.i + 1) × ((x y : ℕ) → OnDot self.line x y s → OnDot self.line x y result) }
    {
        let l = self.line;
        let i = s.i + 1;
        if l.long <= s.i {
            return Stroke { i, ..s };
        }
        let h = hopped(s.error, l.short, l.long);
        if l.steep {
            Stroke {
                x: advance(s.x, l.left, h.step),
                y: advance(s.y, l.down, 1),
                i,
                error: h.error,
            }
        } else {
            Stroke {
                x: advance(s.x, l.left, 1),
                y: advance(s.y, l.down, h.step),
                i,
                error: h.error,
            }
        }
    }
}
