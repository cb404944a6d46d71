// The whole panel: a log in, its answers and the screen's dots out.
ghost use Rattle.std.specs.Prelude.{◌≡◌};
ghost use Rattle.panel.specs.Panel.{glyphs, dark, Gives};

use crate::dots::put_dots;
use crate::output::{put_e, put_g};
use crate::run::play_lines;
use parts::refusal::Refusal;
use text::write::Writer;

// A buffer of this length holds every output: G, 11 bytes for a line, 10 for a dot, and room for the last line in hand.
pub const LONGEST: usize = 2031648;

#[tactic(auto, unfolding(crate::specs::Panel::dark))]
pub(crate) fn dark_picture() -> [u8; 16384]
    ensures { result ≡ dark }
{
    [0u8; 16384]
}

#[tactic(auto, unfolding(crate::specs::Panel::glyphs))]
pub(crate) fn blank_table() -> [u8; 480]
    ensures { result ≡ glyphs }
{
    [0u8; 480]
}

// Writes the answer to a log at the buffer's start and says how long it is; the bytes behind it stay. A buffer shorter than
// LONGEST is left alone, and the answer is 0: nothing is written, as `Gives` has it, which may not change.
pub fn play(input: &[u8], out: &mut [u8]) -> usize
    ensures { Gives input.now out.old out.new result }
{
    if out.len() < LONGEST {
        return 0;
    }
    let mut w = Writer { out, at: 0 };
    if 65536 < input.len() {
        put_e(&mut w, 0, Refusal::LongLog);
        return w.at;
    }
    let mut pic = dark_picture();
    let table = blank_table();
    put_g(&mut w);
    play_lines(input, &mut pic, &table, &mut w);
    put_dots(&mut w, &pic);
    w.at
}
