// A log in, and out the picture that it leaves, as a plain PBM file.
ghost use Rattle.pbm.specs.Calls.{Leaves, told};
ghost use Rattle.panel.specs.Screen.{screen};

use crate::log::{blank_table, dark_picture};
use crate::run::play_lines;
use parts::format::Format;
use parts::refusal::Refusal;
use pbm::write::{file_bytes, write_pbm};
use text::write::Writer;

// Room for the answers to every line, which nobody reads here.
fn answer_buffer() -> [u8; 720921] {
    [0u8; 720921]
}

// Writes the picture at the buffer's start and says how long its file is; later bytes stay. Refused where the buffer is
// short, else where the log is longer than 65,536 bytes; a refusal writes nothing.
pub fn write_screen(input: &[u8], out: &mut [u8]) -> Result<u32, Refusal>
    ensures { Leaves (screen input.now out.old) (told result) out.new }
{
    if out.len() < file_bytes(Format::Ef9366) as usize {
        return Err(Refusal::ShortBuffer);
    }
    if 65536 < input.len() {
        return Err(Refusal::LongLog);
    }
    let mut answers = answer_buffer();
    let mut w = Writer {
        out: &mut answers,
        at: 0,
    };
    let mut pic = dark_picture();
    let table = blank_table();
    play_lines(input, &mut pic, &table, &mut w);
    write_pbm(Format::Ef9366, &pic, out)
}
