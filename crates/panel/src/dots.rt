// The picture as text: one P line for each lit dot, by y, then x.
ghost use Rattle.std.specs.Prelude.{cond, [], ◌≡◌, ◌+◌, ◌*◌, ◌/◌, ◌%◌, ◌≤◌, ◌<◌, length};
ghost use Rattle.picture.specs.Bit.{bit_at};
ghost use Rattle.panel.specs.Answer.{line_p};
ghost use Rattle.panel.specs.Panel.{dot_lines};
ghost use Rattle.text.specs.Working.Writes.{Room, Writes};

use crate::output::put_p;
use picture::dot::bit_at;
use text::write::Writer;

// The line of dot d, of byte v, where it is lit.
fn put_dot_line(w: &mut Writer<'_>, v: u8, d: usize)
    requires { (d < 131072) × Room 14 w.old }
    ensures { Writes w.old (cond (bit_at (d % 8) v) (line_p (d % 512) (d / 512)) []) w.new × (w.new.at ≤ w.old.at + 10) }
{
    if bit_at(v, (d % 8) as u8) {
        put_p(w, (d % 512) as u16, (d / 512) as u16);
    }
}

// The lines of the eight dots of byte i. Most bytes are dark.
fn put_byte(w: &mut Writer<'_>, pic: &[u8], i: usize)
    requires { (length pic.now ≡ 16384) × (i < 16384) × Room 84 w.old }
    ensures { Writes w.old (dot_lines pic.now (8 * i) 8) w.new × (w.new.at ≤ w.old.at + 80) }
{
    let v = pic[i];
    if v == 0 {
        return;
    }
    for k in 0..8 {
        put_dot_line(w, v, 8 * i + k);
    }
}

// The lines of a whole picture, byte by byte. A byte's number goes along, as it says where its dots are: with the byte beside it, it would
// have to be said that the byte is that one's, which is no plainer.
pub(crate) fn put_dots(w: &mut Writer<'_>, pic: &[u8])
    requires { (length pic.now ≡ 16384) × Room 1310734 w.old }
    ensures { Writes w.old (dot_lines pic.now 0 131072) w.new × (w.new.at ≤ w.old.at + 1310720) }
{
    for i in 0..pic.len() {
        put_byte(w, pic, i);
    }
}
