// Dots that follow each other, a byte at a time, and rows of them.
ghost use Rattle.std.specs.Prelude.{◌≡◌, ℕ, ◌+◌, ◌-◌, ◌*◌, ◌%◌, ◌≤◌, ◌<◌, min, length};
ghost use Rattle.picture.specs.Working.Runs.{with_bits, up_from, rows_from};
ghost use Rattle.picture.specs.Dot.{paint};

use crate::dot::set_dot;

// v with the m bits from bit k on lit or dark.
fn with_bits(v: u8, k: u8, m: u8, lit: bool) -> u8
    requires { (0 < m) × (k + m ≤ 8) }
    ensures { result ≡ with_bits lit k m v }
{
    let mask = (255u8 >> (8 - m)) << k;
    if lit { v | mask } else { v & !mask }
}

// Lights or darkens the m dots from dot d on, which one byte has.
fn paint_byte(pic: &mut [u8], d: usize, m: usize, lit: bool)
    requires { (0 < m) × (d % 8 + m ≤ 8) × (d < 8 * length pic.old) }
    ensures { pic.new ≡ paint lit (up_from d m) pic.old }
{
    let i = d / 8;
    let k = (d % 8) as u8;
    pic[i] = with_bits(pic[i], k, m as u8, lit);
}

// How many of the n dots from dot d on are in the byte of dot d.
fn in_byte(d: usize, n: usize) -> usize
    ensures { result ≡ min (8 - d % 8) n }
{
    n.min(8 - d % 8)
}

// Lights or darkens the n dots from dot d on, byte by byte: a turn takes as many as its byte has.
fn paint_run(pic: &mut [u8], d: usize, n: usize, lit: bool)
    requires { (d + n ≤ 8 * length pic.old) × (length pic.old ≤ 65536) }
    ensures { pic.new ≡ paint lit (up_from d n) pic.old }
{
    let mut done = 0;
    while done < n {
        let at = d + done;
        let m = in_byte(at, n - done);
        paint_byte(pic, at, m, lit);
        done += m;
    }
}

// That a picture has at most 65,536 bytes is handed on from each to the next: a struct around the lent picture was tried where it is
// drawn on, and was slower.

// The same as `paint_run`, with short ways for a single dot and for dots that one byte has.
fn paint_dots(pic: &mut [u8], d: usize, n: usize, lit: bool)
    requires { (d + n ≤ 8 * length pic.old) × (length pic.old ≤ 65536) }
    ensures { pic.new ≡ paint lit (up_from d n) pic.old }
{
    // That n is at most 8 is asked apart: it is so for each row or for none.
    if n == 1 {
        set_dot(pic, d, lit);
    } else if (1 < n) & (n <= 8) & (d % 8 + n <= 8) {
        paint_byte(pic, d, n, lit);
    } else {
        paint_run(pic, d, n, lit);
    }
}

// Lights or darkens m rows of n dots, the first from dot d on, each so many dots after the one before.
pub fn paint_rows(pic: &mut [u8], d: usize, stride: usize, n: usize, m: usize, lit: bool)
    requires stride_bound { (stride ≤ 524289) × (length pic.old ≤ 65536) }
    requires by_index { (r : ℕ) → r < m → d + r * stride + n ≤ 8 * length pic.old }
    ensures { pic.new ≡ paint lit (rows_from d stride n m) pic.old }
{
    let mut at = d;
    for _ in 0..m {
        paint_dots(pic, at, n, lit);
        at += stride;
    }
}
