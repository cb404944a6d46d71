// A run of a vector's cycles.
ghost use Rattle.std.specs.Prelude.{List, ℕ, length};
ghost use Rattle.picture.specs.Screen.{Screen};
ghost use Rattle.drawing.specs.Figure.{Figure};
ghost use Rattle.drawing.specs.Run.{Ran};
ghost use Rattle.drawing.specs.Working.Cycle.{Granted};

use crate::inside::{draw_within, is_within};
use crate::tip::{Run, Tip, touch};
use motion::line_type::{is_on, line_type};
use motion::position::Spot;
use motion::vector::Vector;

// The cycles of a run, by the line type of CTRL2, each dot clipped by itself. After the last dot the place stays on it.
// It steps X and Y, and `draw_within` a dot's number: two ways, not one way for two types. What both are handed goes side by side, as
// at `Tip`. Its loop is compiled by itself, where it has all registers.
#[inline(never)]
fn draw_across(pic: &mut [u8], t: Tip, ctrl2: u8, v: Vector, run: Run) -> Spot
    requires screen { Screen t.window (length pic.old) }
    requires granted { Granted (Figure.Stroke ctrl2 v.line) run }
    ensures { (glyph : List ℕ) → Ran t (Figure.Stroke ctrl2 v.line) glyph run result pic.old pic.new }
{
    let kind = line_type(ctrl2);
    let mut s = v.stroke_at(run.at.x, run.at.y, run.from);
    for _ in 0..run.count {
        let on = is_on(kind, s.i);
        touch(pic, t, on, s.x, s.y);
        s = v.next_dot(s);
    }
    Spot { x: s.x, y: s.y }
}

// The same. A vector inside the window goes by the numbers of its dots; for a single cycle the question costs more than it saves.
pub fn draw_vector(pic: &mut [u8], t: Tip, ctrl2: u8, v: Vector, run: Run) -> Spot
    requires screen { Screen t.window (length pic.old) }
    requires granted { Granted (Figure.Stroke ctrl2 v.line) run }
    ensures { (glyph : List ℕ) → Ran t (Figure.Stroke ctrl2 v.line) glyph run result pic.old pic.new }
{
    if t.down & (run.count > 1) {
        if is_within(t.window, v, run.at) {
            return draw_within(pic, t, ctrl2, v, run);
        }
    }
    draw_across(pic, t, ctrl2, v, run)
}
