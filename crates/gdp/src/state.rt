// The state of the processor in sixteen bytes, as C and Rust hand it over, and what a call gives back.
ghost use Rattle.std.specs.Prelude.{◌≡◌, true, false, Ok};
ghost use Rattle.rules.specs.Sequence.{Idle, Steps, Clear, no_frames, Off, Waiting};
ghost use Rattle.rules.specs.State.{fresh, with_work, with_light_pen};
ghost use Rattle.gdp.specs.Flat.{flat, state_of, named};
ghost use Rattle.gdp.specs.Calls.{as_answer};
ghost use Rattle.gdp.specs.Working.Makes.{Makes, raises};

use crate::bits::{
    Flag, LightPen, Work, clear_modes, in_use, modes_of, with_flag, with_light_pen, with_work,
    work_number,
};
use parts::format::Format;
use parts::refusal::Refusal;
use picture::dot::bit_at;

// X and Y; the cycles that the stepping command has used; the registers; the code of the command that steps; what runs and
// the format; VB, the light pen's sequence and the flags. What is not in use is not looked at, and 0 in what an accepted call
// hands back.
#[repr(C)]
#[derive(Clone, Copy)]
pub struct Gdp {
    pub x: u16,
    pub y: u16,
    pub done: u16,
    pub ctrl1: u8,
    pub ctrl2: u8,
    pub csize: u8,
    pub deltax: u8,
    pub deltay: u8,
    pub xlp: u8,
    pub ylp: u8,
    pub code: u8,
    pub modes: u8,
    pub signals: u8,
}

// What an accepted call gives: a value, and the next state.
#[derive(Clone, Copy)]
pub struct Reply {
    pub value: u16,
    pub state: Gdp,
}

pub(crate) fn accepted(value: u16, state: Gdp) -> Result<Reply, Refusal>
    ensures { result ≡ Ok (record { value = value; state = state }) }
{
    Ok(Reply { value, state })
}

// What a call gives, as C has it: the refusal number or 0, the value, and the next state.
#[repr(C)]
#[derive(Clone, Copy)]
pub struct Answer {
    pub number: u8,
    pub value: u16,
    pub state: Gdp,
}

impl Answer {
    // A refusal has value 0 and the state as handed in.
    pub fn of(state: Gdp, outcome: Result<Reply, Refusal>) -> Answer
        ensures { result ≡ as_answer state outcome }
    {
        match outcome {
            Ok(Reply { value, state }) => Answer {
                number: 0,
                value,
                state,
            },
            Err(why) => Answer {
                number: u8::from(why),
                value: 0,
                state,
            },
        }
    }
}

impl Gdp {
    // The fresh state of a format.
    #[tactic(auto, unfolding(crate::proofs::Uses::fresh_bytes))]
    pub fn fresh(format: Format) -> Gdp
        ensures { result ≡ flat (fresh format) }
    {
        Gdp {
            x: 0,
            y: 0,
            done: 0,
            ctrl1: 0,
            ctrl2: 0,
            csize: 0x11,
            deltax: 0,
            deltay: 0,
            xlp: 0,
            ylp: 0,
            code: 0,
            modes: modes_of(format),
            signals: 0,
        }
    }

    // That the bytes name something is a condition here, in the next two and in two of blanking.rt: as a type it would be put on and
    // taken off at each of their sixteen calls, and would spare no line.

    // Nothing runs, and what is not in use is 0.
    #[tactic(auto, using(crate::proofs::Uses::puts), unfolding(crate::proofs::Uses::bytes))]
    pub(crate) fn idle(mut self) -> Gdp
        ensures { named self ≡ true → result ≡ flat (with_work Idle (state_of self)) }
    {
        self.code = 0;
        self.done = 0;
        self.modes = with_work(self.modes, Work::Idle);
        self.signals = in_use(self.signals);
        self
    }

    // The command steps, and what is not in use is 0.
    #[tactic(auto, using(crate::proofs::Uses::puts), unfolding(crate::proofs::Uses::bytes))]
    pub(crate) fn stepping(mut self) -> Gdp
        ensures { named self ≡ true → result ≡ flat (with_work (Steps self.code self.done) (state_of self)) }
    {
        self.modes = with_work(self.modes, Work::Steps);
        self.signals = in_use(self.signals);
        self
    }

    // What is not in use is 0.
    pub(crate) fn tidy(mut self) -> Gdp
        ensures { named self ≡ true → result ≡ flat (state_of self) }
    {
        let work = work_number(self.modes);
        if work == Work::Idle as u8 {
            return self.idle();
        }
        if work == Work::Steps as u8 {
            return self.stepping();
        }
        self.code = 0;
        self.done = 0;
        self.signals = in_use(self.signals);
        self.modes = clear_modes(self.modes);
        self
    }

    // A command with write cycles begins.
    pub(crate) fn begins(mut self, code: u8) -> Gdp
        ensures { Makes (with_work (Steps code 0)) self result }
    {
        self.code = code;
        self.done = 0;
        self.modes = with_work(self.modes, Work::Steps);
        self
    }

    // A clear waits for its first frame.
    pub(crate) fn clears(mut self, fill: bool) -> Gdp
        ensures { Makes (with_work (Clear fill no_frames)) self result }
    {
        self.code = 0;
        self.done = 0;
        if fill {
            self.modes = with_work(self.modes, Work::Fill);
            return self;
        }
        self.modes = with_work(self.modes, Work::Clear);
        self
    }

    #[tactic(auto, using(crate::proofs::Bytes::light_pen_put), unfolding(crate::specs::Flat::flat))]
    pub(crate) fn light_pen_waits(mut self) -> Gdp
        ensures { Makes (with_light_pen Waiting) self result }
    {
        self.signals = with_light_pen(self.signals, LightPen::Waits);
        self
    }

    #[tactic(auto, using(crate::proofs::Bytes::light_pen_put), unfolding(crate::specs::Flat::flat))]
    pub(crate) fn light_pen_ends(mut self) -> Gdp
        ensures { Makes (with_light_pen Off) self result }
    {
        self.signals = with_light_pen(self.signals, LightPen::Off);
        self
    }

    // A signal rises: its flag is set while its bit of CTRL1 is high.
    pub(crate) fn raised(mut self, flag: Flag) -> Gdp
        ensures { Makes (raises flag) self result }
    {
        let mask = bit_at(self.ctrl1, flag.bit());
        self.signals = with_flag(self.signals, flag, mask);
        self
    }
}
