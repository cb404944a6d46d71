// Plays every line of a log on a fresh EF9366 with a dark picture and an all-zero character table.
ghost use Rattle.std.specs.Prelude.{◌≡◌, ◌+◌, ◌≤◌, length};
ghost use Rattle.panel.specs.Panel.{glyphs, dark, card, answers, shown};
ghost use Rattle.text.specs.Pieces.{lines_of};
ghost use Rattle.text.specs.Working.Writes.{Room, Writes};

use crate::parse::parse;
use crate::play::play_record;
use gdp::state::Gdp;
use parts::format::Format;
use text::split::Lines;
use text::write::Writer;

// Writes the answers to all lines; the picture is left as the last line leaves it.
pub(crate) fn play_lines(input: &[u8], pic: &mut [u8], table: &[u8], w: &mut Writer<'_>)
    requires { (length input.now ≤ 65536) × (pic.old ≡ dark) × (table.now ≡ glyphs) × Room 720921 w.old }
    ensures wrote { Writes w.old (answers 1 card (lines_of input.now)) w.new }
    ensures pic_after { (pic.new ≡ (shown card (lines_of input.now)).memory.picture) × (w.new.at ≤ w.old.at + 720907) }
{
    let mut s = Gdp::fresh(Format::Ef9366);
    // The state stays where it is, and only an accepted call changes it: handed on and back it would be copied at each line.
    for (k, text) in Lines(input).enumerate() {
        let line = k as u32 + 1;
        play_record(&mut s, line, parse(text), pic, table, w);
    }
}
