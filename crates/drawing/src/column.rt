// The cycles of a whole column of a glyph at once: lines of equal dots a stride apart, whatever way the letters lie.
ghost use Rattle.std.specs.Prelude.{◌≡◌, true, ◌/◌, ◌≤◌, ◌<◌, length};
ghost use Rattle.picture.specs.Dot.{paint};
ghost use Rattle.picture.specs.Screen.{Screen};
ghost use Rattle.motion.specs.Working.Cells.{Counts};
ghost use Rattle.drawing.specs.Working.Column.{Inside, Fits, bands_of, bands_dots, Paintable, AtFoot, Whole, Column};

use crate::tip::{Tip, touch_rows};
use motion::character::{Cell, Letter, along};
use motion::glyph::has_ink;

// Whether n by m places lie inside the window, and short of where X and Y step around.
fn inside(t: Tip, x: u16, y: u16, n: u16, m: u16) -> bool
    requires { (n ≤ 256) × (m ≤ 256) }
    ensures { result ≡ true → Inside t x y n m }
{
    let right = x as usize + n as usize;
    let top = y as usize + m as usize;
    if right > t.window.width {
        return false;
    }
    if top > t.window.height {
        return false;
    }
    if right > 4096 {
        return false;
    }
    top <= 4096
}

// Whether a column of the glyph lies inside, from the cell at its first cycle.
fn fits(t: Tip, letter: Letter, c: Cell) -> bool
    ensures { result ≡ true → Fits letter.lie t letter.body c }
{
    let b = letter.body;
    let far = along(letter.lie, b.p, b.rows - 1);
    if letter.lie.turned {
        if c.at.x > 4095 {
            return false;
        }
        if b.rows > c.at.x + 1 {
            return false;
        }
        return inside(t, c.at.x + 1 - b.rows, c.at.y, b.rows, far);
    }
    inside(t, c.at.x, c.at.y, far, b.rows)
}

// Whether a cell is on the first cycle of a column of the glyph that can be drawn whole.
pub(crate) fn is_whole(t: Tip, letter: Letter, c: Cell, left: u16) -> bool
    ensures { result ≡ true → Whole t letter.lie letter.body c left }
{
    if c.v != 0 {
        return false;
    }
    if c.columndot != 0 {
        return false;
    }
    if letter.body.p * letter.body.rows > left {
        return false;
    }
    fits(t, letter, c)
}

// How a column of the glyph is painted: each row of the glyph is so many lines of so many dots, a stride apart; the next row begins
// so many dots ahead, or back. All this so many times, each one line of the window above the one before.
#[derive(Clone, Copy)]
pub struct Bands {
    pub dots: u16,
    pub lines: u16,
    pub stride: usize,
    pub ahead: usize,
    pub back: usize,
    pub first: usize,
    pub times: u16,
}

// Upright, Q lines of P dots, tilted or not. Turned, P lines of Q dots; the first row ends with the dot at the foot, the next ones
// follow to the left. Turned and tilted, Q single dots, each to the left of and above the one before, P times.
fn bands_of(letter: Letter, width: usize) -> Bands
    requires { (0 < width) × (width ≤ 524288) }
    ensures { result ≡ bands_of letter.lie letter.body width }
{
    let b = letter.body;
    if letter.lie.turned {
        if letter.lie.tilted {
            return Bands {
                dots: 1,
                lines: b.q,
                stride: width - 1,
                ahead: b.q as usize * (width - 1),
                back: 0,
                first: 0,
                times: b.p,
            };
        }
        return Bands {
            dots: b.q,
            lines: b.p,
            stride: width,
            ahead: 0,
            back: b.q as usize,
            first: 1,
            times: 1,
        };
    }
    let up = if letter.lie.tilted { width + 1 } else { width };
    Bands {
        dots: b.p,
        lines: b.q,
        stride: up,
        ahead: b.q as usize * up,
        back: 0,
        first: 0,
        times: 1,
    }
}

// All the rows of a column of the glyph once, from a dot on.
fn draw_bands(
    pic: &mut [u8],
    t: Tip,
    letter: Letter,
    glyph: &[u8; 5],
    column: u16,
    s: Bands,
    from: usize,
)
    requires sized { (t.down ≡ true) × (length pic.old ≤ 65536) }
    requires paintable { Paintable s from (letter.body.rows / letter.body.q) (length pic.old) }
    ensures { pic.new ≡ paint t.lit (bands_dots t s glyph.now column from (letter.body.rows / letter.body.q)) pic.old }
{
    let mut d = from;
    for row in 0..letter.body.rows / letter.body.q {
        let on = has_ink(glyph, column, row);
        let at = d - s.back;
        touch_rows(pic, t, on, at, s.stride, s.dots, s.lines);
        d = at + s.ahead;
    }
}

// The cycles of a whole column of the glyph. With the tip up they write nothing.
pub(crate) fn draw_column(pic: &mut [u8], t: Tip, letter: Letter, glyph: &[u8; 5], c: Cell)
    requires screen { Screen t.window (length pic.old) }
    requires foot { Counts letter.body c × AtFoot t letter.lie letter.body c }
    ensures { Column t letter.lie letter.body glyph.now c pic.old pic.new }
{
    if t.down {
        let s = bands_of(letter, t.window.width);
        let mut d = c.at.y as usize * t.window.width + c.at.x as usize + s.first;
        for _ in 0..s.times {
            draw_bands(pic, t, letter, glyph, c.column, s, d);
            d += t.window.width;
        }
    }
}
