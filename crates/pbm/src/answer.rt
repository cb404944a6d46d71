// What both calls answer to C.
ghost use Rattle.std.specs.Prelude.{◌≡◌, Err};
ghost use Rattle.pbm.specs.Calls.{told, told_read};

use parts::refusal::Refusal;

// The refusal number, or 0; and of writing the bytes written, else 0. A file may have more bytes than 16 bits count.
#[repr(C)]
#[derive(Clone, Copy)]
pub struct Answer {
    pub number: u8,
    pub value: u32,
}

impl From<Refusal> for Answer {
    ghost from_gives = { λ why answer. answer ≡ told (Err why) };

    #[tactic(auto, unfolding(crate::specs::Calls::told))]
    fn from(why: Refusal) -> Answer {
        Answer {
            number: u8::from(why),
            value: 0,
        }
    }
}

impl From<Result<u32, Refusal>> for Answer {
    ghost from_gives = { λ outcome answer. answer ≡ told outcome };

    #[tactic(auto, unfolding(crate::specs::Calls::told))]
    fn from(outcome: Result<u32, Refusal>) -> Answer {
        match outcome {
            Ok(value) => Answer { number: 0, value },
            Err(why) => Answer::from(why),
        }
    }
}

// A file that was read has no value to tell.
impl From<Result<(), Refusal>> for Answer {
    ghost from_gives = { λ outcome answer. answer ≡ told_read outcome };

    #[tactic(auto, unfolding(crate::specs::Calls::told_read))]
    fn from(outcome: Result<(), Refusal>) -> Answer {
        Answer::from(outcome.map(|()| 0u32))
    }
}
