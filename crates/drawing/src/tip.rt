// The tip of the pen or eraser, over its window.
ghost use Rattle.std.specs.Prelude.{◌≡◌, true, ℕ, ◌+◌, ◌*◌, ◌≤◌, ◌<◌, length};
ghost use Rattle.picture.specs.Dot.{paint};
ghost use Rattle.picture.specs.Screen.{Screen};
ghost use Rattle.drawing.specs.Run.{mark};
ghost use Rattle.drawing.specs.Working.Cycle.{mark_rows};

use motion::position::Spot;
use picture::run::paint_rows;
use picture::screen::{Window, put_dot};

// The window; whether the tip is down, and whether it lights (the pen) or darkens (the eraser). It goes beside the picture, not with
// it in one struct: behind a reference in a struct each dot that is written made the loop read both anew, and a cycle with the pen up
// took 36 instructions in place of 23.
#[derive(Clone, Copy)]
pub struct Tip {
    pub window: Window,
    pub down: bool,
    pub lit: bool,
}

// A run of cycles: X and Y on the place of cycle `from`, and how many cycles. That a figure has them is said of both in each contract: a
// struct of both would have the figure's own beside it once more, which is no plainer.
#[derive(Clone, Copy)]
pub struct Run {
    pub at: Spot,
    pub from: u16,
    pub count: u16,
}

// One cycle: its dot, where it is on and the tip is down.
pub(crate) fn touch(pic: &mut [u8], t: Tip, on: bool, x: u16, y: u16)
    requires { Screen t.window (length pic.old) }
    ensures { pic.new ≡ paint t.lit (mark t on x y) pic.old }
{
    if t.down & on {
        put_dot(pic, t.window, x, y, t.lit);
    }
}

// A type for a tip that is down would have the same three fields once more, which is no plainer.

// Cycles that are on alike, with the tip down: m rows of n dots, the first from dot d on, each so many dots after the one before.
pub(crate) fn touch_rows(pic: &mut [u8], t: Tip, on: bool, d: usize, stride: usize, n: u16, m: u16)
    requires down_value { (t.down ≡ true) × (stride ≤ 524289) × (length pic.old ≤ 65536) }
    requires by_index { (r : ℕ) → r < m → d + r * stride + n ≤ 8 * length pic.old }
    ensures { pic.new ≡ paint t.lit (mark_rows t on d stride n m) pic.old }
{
    if on {
        paint_rows(pic, d, stride, n as usize, m as usize, t.lit);
    }
}
