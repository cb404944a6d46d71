// A run of a character's or a block's cycles.
ghost use Rattle.std.specs.Prelude.{◌≡◌, ◌+◌, ◌≤◌, ◌<◌, length};
ghost use Rattle.picture.specs.Screen.{Screen};
ghost use Rattle.motion.specs.Character.{body_cycles};
ghost use Rattle.motion.specs.Working.Cells.{Counts};
ghost use Rattle.drawing.specs.Figure.{Figure};
ghost use Rattle.drawing.specs.Run.{Ran};
ghost use Rattle.drawing.specs.Working.Column.{Further};
ghost use Rattle.drawing.specs.Working.Cycle.{Granted};

use crate::column::{draw_column, is_whole};
use crate::tip::{Run, Tip, touch};
use motion::character::{Cell, Letter};
use motion::glyph::has_ink;
use motion::position::Spot;

// One cycle further, or by a whole column of the glyph where that is asked for and its cycles can be drawn at once.
fn go_on<const WHOLE: bool>(
    pic: &mut [u8],
    t: Tip,
    letter: Letter,
    glyph: &[u8; 5],
    c: Cell,
    end: u16,
) -> Cell
    requires screen { Screen t.window (length pic.old) }
    requires counts { Counts letter.body c × (c.i < end) × (end ≤ 20000) }
    ensures { (c.i < result.i) × Further t letter.lie letter.body glyph.now c result end pic.old pic.new }
{
    if WHOLE && is_whole(t, letter, c, end - c.i) {
        draw_column(pic, t, letter, glyph, c);
        return letter.next_column(c);
    }
    let on = has_ink(glyph, c.column, c.row);
    touch(pic, t, on, c.at.x, c.at.y);
    letter.next_cell(c)
}

// All the cycles before `end`, one by one or by whole columns where that can be: a turn takes one or many. A letter and its glyph go
// side by side here, since half of what a letter does asks for no glyph; and that no number is above 20,000 is said of each, since as a
// type it would be taken apart in each.
fn draw_cells<const WHOLE: bool>(
    pic: &mut [u8],
    t: Tip,
    letter: Letter,
    glyph: &[u8; 5],
    first: Cell,
    end: u16,
) -> Cell
    requires screen { Screen t.window (length pic.old) }
    requires counts { Counts letter.body first × (first.i ≤ end) × (end ≤ 20000) }
    ensures { (result.i ≡ end) × Further t letter.lie letter.body glyph.now first result end pic.old pic.new }
{
    let mut c = first;
    while c.i < end {
        c = go_on::<WHOLE>(pic, t, letter, glyph, c, end);
    }
    c
}

// The cycles of a run, by the five bytes of a glyph. One past the last cycle is where the character leaves X and Y.
#[tactic(auto, unfolding(crate::specs::Figure::cycles_of))]
pub fn draw_body(pic: &mut [u8], t: Tip, letter: Letter, glyph: &[u8; 5], run: Run) -> Spot
    requires screen { Screen t.window (length pic.old) }
    requires granted { (body_cycles letter.body ≤ 20000) × Granted (Figure.Cells letter.lie letter.body) run }
    ensures { Ran t (Figure.Cells letter.lie letter.body) glyph.now run result pic.old pic.new }
{
    let first = letter.cell_at(run.at, run.from);
    let end = run.from + run.count;
    // Where no whole column is among them, the question would cost more than it saves.
    if run.count < letter.body.rows {
        return draw_cells::<false>(pic, t, letter, glyph, first, end).at;
    }
    draw_cells::<true>(pic, t, letter, glyph, first, end).at
}
