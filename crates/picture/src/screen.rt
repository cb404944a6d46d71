// The dot of a position: outside the window there is none, and a cyclic screen has no outside.
ghost use Rattle.std.specs.Prelude.{◌≡◌, ◌<◌, length};
ghost use Rattle.picture.specs.Dot.{set_dot, paint};
ghost use Rattle.picture.specs.Screen.{Screen, Power, folded, place, dot_number};

// The window: its width and height, and whether the screen is cyclic.
#[derive(Clone, Copy)]
pub struct Window {
    pub width: usize,
    pub height: usize,
    pub cyclic: bool,
}

// A coordinate as the dot sees it. The size is a power of two, so dropping upper bits is a mask.
fn fold(cyclic: bool, size: usize, p: usize) -> usize
    requires { Power size }
    ensures { result ≡ folded cyclic size p }
{
    if cyclic { p & (size - 1) } else { p }
}

// Lights or darkens the dot at a position in the window.
fn mark(pic: &mut [u8], w: Window, x: usize, y: usize, lit: bool)
    requires screen { Screen w (length pic.old) }
    requires x_lt_width { (x < w.width) × (y < w.height) }
    ensures { pic.new ≡ set_dot lit (dot_number w.width x y) pic.old }
{
    crate::dot::set_dot(pic, y * w.width + x, lit);
}

// Lights or darkens the dot of a position; outside, the picture stays.
pub fn put_dot(pic: &mut [u8], w: Window, x: u16, y: u16, lit: bool)
    requires { Screen w (length pic.old) }
    ensures { pic.new ≡ paint lit (place w x y) pic.old }
{
    let px = fold(w.cyclic, w.width, x as usize);
    let py = fold(w.cyclic, w.height, y as usize);
    if px < w.width {
        if py < w.height {
            mark(pic, w, px, py, lit);
        }
    }
}
