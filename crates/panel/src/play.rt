// Plays the records of a log.
ghost use Rattle.std.specs.Prelude.{◌≡◌, ◌+◌, ◌≤◌, ◌<◌};
ghost use Rattle.gdp.specs.Calls.{as_answer};
ghost use Rattle.panel.specs.Working.Parsed.{meant, text_of, HasAddress};
ghost use Rattle.panel.specs.Working.Played.{answer_left, Called, Stepped, Tidy};
ghost use Rattle.text.specs.Working.Writes.{Room, Writes};

use crate::output::{put_e, put_r, put_t};
use crate::parse::Record;
use gdp::state::{Gdp, Reply};
use parts::refusal::Refusal;
use text::write::Writer;

// An accepted call leaves its state, and its value is told.
fn left(s: &mut Gdp, outcome: Result<Reply, Refusal>) -> Result<u16, Refusal>
    ensures { answer_left s.new result ≡ as_answer s.old outcome }
{
    let Reply { value, state } = outcome?;
    *s = state;
    Ok(value)
}

// The call that a record asks for. The state is left in each case by itself, since five that come together are copied in pieces.
fn call(s: &mut Gdp, what: Record, pic: &mut [u8], table: &[u8]) -> Result<u16, Refusal>
    requires { Tidy s.old }
    ensures { Called s.old pic.old table.now what (answer_left s.new result) pic.new }
{
    let card = *s;
    match what {
        Record::Write { address, value } => left(s, card.write(address, value)),
        Record::Read { address } => left(s, card.read(address)),
        Record::Cycles { n } => left(s, card.grant(n, pic, table)),
        Record::Blanking { level } => left(s, card.set_vb(level, pic)),
        Record::Edge { h, v } => left(s, card.strike_lpck(u16::from(h), u16::from(v))),
    }
}

// What an accepted call answers: R and T tell its value.
fn put_value(w: &mut Writer<'_>, what: Record, value: u16)
    requires { HasAddress what × Room 14 w.old }
    ensures { Writes w.old (text_of what value) w.new × (w.new.at ≤ w.old.at + 11) }
{
    match what {
        Record::Read { address } => put_r(w, address, value),
        Record::Cycles { .. } => put_t(w, value),
        _ => {}
    }
}

// One line: an accepted call leaves its state, a refused one is told by E, and so is a line that is no record.
pub(crate) fn play_record(
    s: &mut Gdp,
    line: u32,
    what: Option<Record>,
    pic: &mut [u8],
    table: &[u8],
    w: &mut Writer<'_>,
)
    requires { (line < 100000) × Tidy s.old × Room 14 w.old }
    ensures { Stepped line s.old pic.old table.now (meant what) w.old s.new pic.new w.new }
{
    let Some(what) = what else {
        return put_e(w, line, Refusal::NoRecord);
    };
    match call(s, what, pic, table) {
        Ok(value) => put_value(w, what, value),
        Err(why) => put_e(w, line, why),
    }
}
