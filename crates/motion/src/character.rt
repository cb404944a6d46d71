// How a character steps: by counters, so that no cycle costs a division.
ghost use Rattle.std.specs.Prelude.{◌≡◌, ◌+◌, ◌-◌, ◌*◌, ◌≤◌, ◌<◌};
ghost use Rattle.motion.specs.Position.{moved, moved_back};
ghost use Rattle.motion.specs.Character.{scale, character_of, block_of, along, laid, body_way};
ghost use Rattle.motion.specs.Working.Cells.{body_by, Sized, Counts, OnPlace};

use crate::position::{Spot, moved};

// P and Q, and the columns and rows of dots that are stepped through.
#[derive(Clone, Copy)]
pub struct Body {
    pub p: u16,
    pub q: u16,
    pub columns: u16,
    pub rows: u16,
}

// How the letters lie: turned, so that they run upwards, and tilted.
#[derive(Clone, Copy)]
pub struct Lie {
    pub turned: bool,
    pub tilted: bool,
}

// A character or a block as it is written: how it lies, and its body, of a size that CSIZE can give.
#[derive(Clone, Copy)]
pub struct Letter {
    pub lie: Lie,
    pub body: Body,
    pub ghost sized: { Sized body },
}

// The place of the next cycle, its number i, and its counters: v, v / Q, v mod Q, u / P, u mod P. That these are the cycle's is said of
// a cell and a letter in each contract: a struct of both would have to say of each step that the letter stays, which is no plainer.
#[derive(Clone, Copy)]
pub struct Cell {
    pub at: Spot,
    pub i: u16,
    pub v: u16,
    pub row: u16,
    pub rowdot: u16,
    pub column: u16,
    pub columndot: u16,
}

fn scaled(n: u8) -> u16
    requires { n < 16 }
    ensures { (result ≡ scale n) × (0 < result) × (result ≤ 16) }
{
    if n == 0 { 16 } else { n as u16 }
}

// The body of a CSIZE that is so many times P wide and so many times Q high.
fn body_of(csize: u8, wide: u16, high: u16) -> Body
    requires { (wide ≤ 8) × (0 < high) × (high ≤ 8) }
    ensures { (result ≡ body_by csize wide high) × Sized result }
{
    let p = scaled(csize / 16);
    let q = scaled(csize % 16);
    Body {
        p,
        q,
        columns: wide * p,
        rows: high * q,
    }
}

// The body of a character (0A, 20 to 7F) of a CSIZE.
#[tactic(auto, unfolding(crate::specs::Character::character_of))]
pub fn character_of(csize: u8) -> Body
    ensures { (result ≡ character_of csize) × Sized result }
{
    body_of(csize, 6, 8)
}

// The body of a block (0B) of a CSIZE.
#[tactic(auto, unfolding(crate::specs::Character::block_of))]
pub fn block_of(csize: u8) -> Body
    ensures { (result ≡ block_of csize) × Sized result }
{
    body_of(csize, 4, 4)
}

// How far the dot (u, v) lies in the direction of writing.
pub fn along(lie: Lie, u: u16, v: u16) -> u16
    requires { (u ≤ 4096) × (v ≤ 4096) }
    ensures { result ≡ along lie u v }
{
    if lie.tilted { u + v } else { u }
}

// The way to the dot (u, v).
fn laid(lie: Lie, u: u16, v: u16) -> Spot
    requires { (u ≤ 4096) × (v ≤ 4096) }
    ensures { result ≡ laid lie u v }
{
    let far = along(lie, u, v);
    if lie.turned {
        Spot {
            x: 4096 - v,
            y: far,
        }
    } else {
        Spot { x: far, y: v }
    }
}

// One dot up.
fn risen(lie: Lie, at: Spot) -> Spot
    ensures { result ≡ moved at (laid lie 0 1) }
{
    moved(at, laid(lie, 0, 1))
}

// From the top of a column, so many dots up, to the foot of the next one: one along, and up around 4,096.
fn carried(lie: Lie, rise: u16, at: Spot) -> Spot
    requires { rise ≤ 4096 }
    ensures { result ≡ moved at (laid lie 1 (4096 - rise)) }
{
    moved(at, laid(lie, 1, 4096 - rise))
}

impl Letter {
    // The cell of a character whose cycle i is at a place: the divisions, once for a run of cycles.
    pub fn cell_at(self, at: Spot, i: u16) -> Cell
        requires { (at.x < 4096) × (at.y < 4096) }
        ensures { (result.i ≡ i) × Counts self.body result × ((lie : Lie) → OnPlace lie self.body (moved_back at (body_way lie self.body i)) result) }
    {
        let b = self.body;
        let u = i / b.rows;
        let v = i % b.rows;
        Cell {
            at,
            i,
            v,
            row: v / b.q,
            rowdot: v % b.q,
            column: u / b.p,
            columndot: u % b.p,
        }
    }

    // One cycle further.
    #[tactic(auto, using(crate::proofs::Cells::counters_small))]
    pub fn next_cell(self, c: Cell) -> Cell
        requires { Counts self.body c × (c.i < 20000) }
        ensures { (result.i ≡ c.i + 1) × Counts self.body result × ((start : Spot) → OnPlace self.lie self.body start c → OnPlace self.lie self.body start result) }
    {
        let b = self.body;
        let v = c.v + 1;
        let i = c.i + 1;
        if v < b.rows {
            let at = risen(self.lie, c.at);
            let rowdot = c.rowdot + 1;
            if rowdot < b.q {
                return Cell {
                    at,
                    i,
                    v,
                    rowdot,
                    ..c
                };
            }
            return Cell {
                at,
                i,
                v,
                row: c.row + 1,
                rowdot: 0,
                ..c
            };
        }
        let at = carried(self.lie, c.v, c.at);
        let columndot = c.columndot + 1;
        if columndot < b.p {
            return Cell {
                at,
                i,
                v: 0,
                row: 0,
                rowdot: 0,
                columndot,
                ..c
            };
        }
        Cell {
            at,
            i,
            v: 0,
            row: 0,
            rowdot: 0,
            column: c.column + 1,
            columndot: 0,
        }
    }

    // From the first cycle of a column of the glyph to that of the next, P columns of dots further.
    #[tactic(auto, using(crate::proofs::Cells::counters_small))]
    pub fn next_column(self, c: Cell) -> Cell
        requires { Counts self.body c × (c.v ≡ 0) × (c.columndot ≡ 0) × (c.i + self.body.p * self.body.rows ≤ 20000) }
        ensures { (result.i ≡ c.i + self.body.p * self.body.rows) × Counts self.body result × ((start : Spot) → OnPlace self.lie self.body start c → OnPlace self.lie self.body start result) }
    {
        let b = self.body;
        Cell {
            at: moved(c.at, laid(self.lie, b.p, 0)),
            i: c.i + b.p * b.rows,
            v: 0,
            row: 0,
            rowdot: 0,
            column: c.column + 1,
            columndot: 0,
        }
    }
}
