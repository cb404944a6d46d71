// The refusals of all calls and programs, each with its number; 7 is given by none.
ghost use Rattle.std.specs.Prelude.{◌≡◌};
ghost use Rattle.parts.specs.Refusal.{refusal_number};

use std::error::Error;
use std::fmt;

#[derive(Clone, Copy, Debug, PartialEq, Eq)]
pub enum Refusal {
    BadState = 1,
    BadPicture = 2,
    BadTable = 3,
    BadAddress = 4,
    ReadOnly = 5,
    Busy = 6,
    OffScreen = 8,
    ShortBuffer = 9,
    NoPbm = 10,
    OtherSize = 11,
    BadDots = 12,
    NoRecord = 20,
    LongLog = 21,
}

impl From<Refusal> for u8 {
    ghost from_gives = { λ why n. n ≡ refusal_number why };

    #[tactic(auto, unfolding(crate::specs::Refusal::refusal_number))]
    fn from(why: Refusal) -> u8 {
        why as u8
    }
}

impl fmt::Display for Refusal {
    ghost use Rattle.std.specs.Prelude.{Some};
    ghost use Rattle.parts.specs.Working.Sentences.{refusal_sentence};

    ghost output = { λ why. Some (refusal_sentence why) };

    #[tactic(auto, unfolding(crate::specs::Working::Sentences::refusal_sentence))]
    fn fmt<W: fmt::Write>(&self, f: &mut fmt::Formatter<W>) -> fmt::Result {
        f.write_str(match self {
            Refusal::BadState => "there is no such format or state",
            Refusal::BadPicture => "the picture is not of the format's length",
            Refusal::BadTable => "the character table is not 480 bytes long",
            Refusal::BadAddress => "there is no register at the address",
            Refusal::ReadOnly => "the register can only be read",
            Refusal::Busy => "a command runs",
            Refusal::OffScreen => "the light pen's place is off the screen",
            Refusal::ShortBuffer => "the buffer is shorter than the file",
            Refusal::NoPbm => "the file is no plain PBM",
            Refusal::OtherSize => "the file's picture is of another size",
            Refusal::BadDots => "dots are missing, or a byte among them is none",
            Refusal::NoRecord => "the line is no record",
            Refusal::LongLog => "the log is longer than 65,536 bytes",
        })
    }
}

impl Error for Refusal {}
