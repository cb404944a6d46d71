// The fresh state of a format's number.
ghost use Rattle.std.specs.Prelude.{◌≡◌};
ghost use Rattle.gdp.specs.Calls.{fresh_answer, all_ones};

use crate::state::{Answer, Gdp, Reply};
use parts::format::Format;

// What stands for no state: every byte 255.
#[tactic(auto, unfolding(crate::specs::Calls::all_ones))]
fn all_ones() -> Gdp
    ensures { result ≡ all_ones }
{
    Gdp {
        x: 65535,
        y: 65535,
        done: 65535,
        ctrl1: 255,
        ctrl2: 255,
        csize: 255,
        deltax: 255,
        deltay: 255,
        xlp: 255,
        ylp: 255,
        code: 255,
        modes: 255,
        signals: 255,
    }
}

// The fresh state of format 0, EF9366, 1, FMAT high, or 2, FMAT low; any other number is refused with 1. By a number and with the
// answer of C, whose call this is.
#[tactic(auto, unfolding(crate::specs::Calls::fresh_answer, parts::specs::Format::format_named, parts::specs::Refusal::refusal_number))]
pub fn fresh_of(format: u8) -> Answer
    ensures { result ≡ fresh_answer format }
{
    let fresh = Format::try_from(format).map(|format| Reply {
        value: 0,
        state: Gdp::fresh(format),
    });
    Answer::of(all_ones(), fresh)
}
