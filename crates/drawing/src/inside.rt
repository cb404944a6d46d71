// A run of a vector that lies inside the window: that is asked once, and then the number of the dot steps in place of X and Y.
ghost use Rattle.std.specs.Prelude.{◌≡◌, true, cond, List, [], ◌∷◌, ℕ, ◌+◌, ◌*◌, ◌/◌, ◌%◌, ◌≤◌, ◌<◌, eqb, length};
ghost use Rattle.picture.specs.Dot.{paint};
ghost use Rattle.picture.specs.Screen.{Screen};
ghost use Rattle.motion.specs.Position.{behind};
ghost use Rattle.motion.specs.Vector.{vector_x, vector_y};
ghost use Rattle.motion.specs.Working.Strokes.{error_of};
ghost use Rattle.drawing.specs.Figure.{Figure};
ghost use Rattle.drawing.specs.Run.{Ran};
ghost use Rattle.drawing.specs.Working.Cycle.{Granted};
ghost use Rattle.drawing.specs.Working.Inside.{Along, Within, stride, Strode, Shown, OnTrace};

use crate::tip::{Run, Tip};
use motion::line_type::{is_on, line_type};
use motion::position::Spot;
use motion::vector::{Line, Vector, hopped};
use picture::dot::set_dot;
use picture::screen::Window;

// The next dot's number in the picture and in the vector, and its error term.
#[derive(Clone, Copy)]
struct Trace {
    dot: usize,
    i: u16,
    error: u16,
}

// What one dot along the longer axis adds to the number of a dot, and one along both axes.
#[derive(Clone, Copy)]
struct Strides {
    straight: usize,
    diagonal: usize,
}

// Whether all places up to n on or back lie in a window of that size.
fn is_along(back: bool, p: u16, n: u16, size: usize) -> bool
    requires { n ≤ 255 }
    ensures { result ≡ true → Along back p n size }
{
    if size > 4095 {
        return false;
    }
    if p as usize >= size {
        return false;
    }
    if back {
        return n <= p;
    }
    (p as usize + n as usize) < size
}

// Whether a vector lies inside from a place on, if that is its first dot or a later one.
pub(crate) fn is_within(w: Window, v: Vector, at: Spot) -> bool
    ensures { result ≡ true → Within w v.line at }
{
    let l = v.line;
    if l.steep {
        return is_along(l.left, at.x, l.short, w.width) & is_along(l.down, at.y, l.long, w.height);
    }
    is_along(l.left, at.x, l.long, w.width) & is_along(l.down, at.y, l.short, w.height)
}

// What n dots on or back add to the number of a dot, modulo 2^20, of which no picture has as many.
fn stride(back: bool, n: usize) -> usize
    requires { n ≤ 4096 }
    ensures { result ≡ stride back n }
{
    if back { 1048576 - n } else { n }
}

// Up a line is the width further.
fn strides_of(l: Line, width: usize) -> Strides
    requires { width ≤ 4096 }
    ensures { Strode width l result }
{
    let across = stride(l.left, 1);
    let up = stride(l.down, width);
    let both = (across + up) % 1048576;
    if l.steep {
        Strides {
            straight: up,
            diagonal: both,
        }
    } else {
        Strides {
            straight: across,
            diagonal: both,
        }
    }
}

// The trace of a vector whose dot i is at a place.
fn trace_at(width: usize, v: Vector, at: Spot, i: u16) -> Trace
    requires { (i ≤ v.line.long) × (at.x < 4096) × (at.y < 4096) × (width < 4096) }
    ensures { (result.i ≡ i) × OnTrace width v.line (behind at.x (vector_x v.line i)) (behind at.y (vector_y v.line i)) result }
{
    Trace {
        dot: at.y as usize * width + at.x as usize,
        i,
        error: v.error_at(i),
    }
}

// By how much a dot's number steps where the shorter axis steps by none or one.
fn hop_stride(by: Strides, step: u16) -> usize
    ensures { result ≡ cond (eqb step 0) by.straight by.diagonal }
{
    if step == 0 { by.straight } else { by.diagonal }
}

// One dot further. After the last dot it stays.
fn next_trace(v: Vector, by: Strides, s: Trace) -> Trace
    requires error_value { (s.i ≤ v.line.long) × (s.error ≡ error_of v.line.long v.line.short s.i) }
    requires dot_bound { (s.dot < 1048576) × (by.straight ≤ 1048576) × (by.diagonal ≤ 1048576) }
    ensures { (result.i ≡ s.i + 1) × ((width height x y : ℕ) → Strode width v.line by → Shown width height v.line x y s.i → OnTrace width v.line x y s → OnTrace width v.line x y result) }
{
    let i = s.i + 1;
    if v.line.long <= s.i {
        return Trace { i, ..s };
    }
    let h = hopped(s.error, v.line.short, v.line.long);
    let n = hop_stride(by, h.step);
    Trace {
        dot: (s.dot + n) % 1048576,
        i,
        error: h.error,
    }
}

// The place of a dot.
fn place_of(width: usize, dot: usize) -> Spot
    requires { (0 < width) × (width < 4096) × (dot / width < 4096) }
    ensures { (result.x ≡ dot % width) × (result.y ≡ dot / width) }
{
    Spot {
        x: (dot % width) as u16,
        y: (dot / width) as u16,
    }
}

// One cycle: the dot of that number, where it is on.
fn touch_dot(pic: &mut [u8], lit: bool, on: bool, dot: usize)
    requires { dot < 8 * length pic.old }
    ensures { pic.new ≡ paint lit (cond on (dot ∷ []) []) pic.old }
{
    if on {
        set_dot(pic, dot, lit);
    }
}

// The cycles of a run, by the line type of CTRL2, with the tip down. After the last dot the place stays on it.
#[inline(never)]
pub(crate) fn draw_within(pic: &mut [u8], t: Tip, ctrl2: u8, v: Vector, run: Run) -> Spot
    requires screen { Screen t.window (length pic.old) × (t.down ≡ true) × Within t.window v.line run.at }
    requires granted { Granted (Figure.Stroke ctrl2 v.line) run }
    ensures { (glyph : List ℕ) → Ran t (Figure.Stroke ctrl2 v.line) glyph run result pic.old pic.new }
{
    let kind = line_type(ctrl2);
    let by = strides_of(v.line, t.window.width);
    let mut s = trace_at(t.window.width, v, run.at, run.from);
    for _ in 0..run.count {
        let on = is_on(kind, s.i);
        touch_dot(pic, t.lit, on, s.dot);
        s = next_trace(v, by, s);
    }
    place_of(t.window.width, s.dot)
}
