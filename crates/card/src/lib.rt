// The library: the calls as C and Rust see them. A slice crosses as a pointer and a length; the caller lends that much memory,
// and lends a memory that a call may write to nobody else meanwhile.
// Proved: each call gives, for every argument and every lent memory, exactly what the crates below name. Assumes nothing.
#![tactic(auto)]

ghost use Rattle.std.specs.Prelude.{◌≡◌};
ghost use Rattle.rules.specs.Calls.{written, read_out, struck, located};
ghost use Rattle.gdp.specs.Flat.{state_of};
ghost use Rattle.gdp.specs.Calls.{answer_of, outputs_of, fresh_answer, Grants, level_of, Blanks};
ghost use Rattle.pbm.specs.Calls.{written_out, read_in, Leaves};
ghost use Rattle.card.specs.Numbered.{numbered};

use gdp::address::Outputs;
use gdp::fresh::fresh_of;
use gdp::state::{Answer, Gdp};
use parts::format::Format;
use parts::refusal::Refusal;
use pbm::answer::Answer as PbmAnswer;
use pbm::read::read_pbm;
use pbm::write::write_pbm;

// The fresh state of format 0, EF9366, 1, FMAT high, or 2, FMAT low; any other number is refused with 1.
#[unsafe(no_mangle)]
pub extern "C" fn gdp_fresh(format: u8) -> Answer
    ensures { result ≡ fresh_answer format }
{
    fresh_of(format)
}

#[unsafe(no_mangle)]
pub extern "C" fn gdp_write(state: Gdp, address: u8, value: u8) -> Answer
    ensures { result ≡ answer_of state (written (state_of state) address value) }
{
    Answer::of(state, state.write(address, value))
}

#[unsafe(no_mangle)]
pub extern "C" fn gdp_read(state: Gdp, address: u8) -> Answer
    ensures { result ≡ answer_of state (read_out (state_of state) address) }
{
    Answer::of(state, state.read(address))
}

#[unsafe(no_mangle)]
pub extern "C" fn gdp_grant(state: Gdp, n: u16, pic: &mut [u8], table: &[u8]) -> Answer
    ensures { Grants state n pic.old table.now result pic.new }
{
    Answer::of(state, state.grant(n, pic, table))
}

// Level 0 is low, and any other byte is high.
#[unsafe(no_mangle)]
pub extern "C" fn gdp_set_vb(state: Gdp, level: u8, pic: &mut [u8]) -> Answer
    ensures { Blanks state (level_of level) pic.old result pic.new }
{
    Answer::of(state, state.set_vb(level != 0, pic))
}

#[unsafe(no_mangle)]
pub extern "C" fn gdp_lpck(state: Gdp, h: u16, v: u16) -> Answer
    ensures { result ≡ answer_of state (struck (state_of state) h v) }
{
    Answer::of(state, state.strike_lpck(h, v))
}

#[unsafe(no_mangle)]
pub extern "C" fn gdp_address(state: Gdp) -> Outputs
    ensures { result ≡ outputs_of state (located (state_of state)) }
{
    Outputs::of(state.locate())
}

// The picture of a format as a plain PBM file. A number of no format is refused with 2: no picture is of its length.
#[unsafe(no_mangle)]
pub extern "C" fn gdp_write_pbm(format: u8, pic: &[u8], out: &mut [u8]) -> PbmAnswer
    ensures { Leaves (numbered written_out format pic.now out.old) result out.new }
{
    match Format::try_from(format) {
        Ok(format) => PbmAnswer::from(write_pbm(format, pic, out)),
        Err(_) => PbmAnswer::from(Refusal::BadPicture),
    }
}

// A plain PBM file read into a picture of a format.
#[unsafe(no_mangle)]
pub extern "C" fn gdp_read_pbm(format: u8, file: &[u8], pic: &mut [u8]) -> PbmAnswer
    ensures { Leaves (numbered read_in format file.now pic.old) result pic.new }
{
    match Format::try_from(format) {
        Ok(format) => PbmAnswer::from(read_pbm(format, file, pic)),
        Err(_) => PbmAnswer::from(Refusal::BadPicture),
    }
}
