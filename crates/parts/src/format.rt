// The part and its FMAT input, by which the window has its width and height and a clear its frames.
ghost use Rattle.std.specs.Prelude.{◌≡◌};
ghost use Rattle.parts.specs.Format.{format_number, format_named, width, height, window, bytes, frames};

use crate::refusal::Refusal;
use picture::screen::Window;

// Each with its number, by which C names it.
#[derive(Clone, Copy, Debug, PartialEq, Eq)]
pub enum Format {
    Ef9366 = 0,
    FmatHigh = 1,
    FmatLow = 2,
}

impl From<Format> for u8 {
    ghost from_gives = { λ f n. n ≡ format_number f };

    fn from(f: Format) -> u8 {
        f as u8
    }
}

impl TryFrom<u8> for Format {
    type Error = Refusal;

    ghost try_from_gives = { λ n f. f ≡ format_named n };

    #[tactic(auto, unfolding(crate::specs::Format::format_at, crate::specs::Format::format_named))]
    fn try_from(number: u8) -> Result<Self, Refusal> {
        match number {
            0 => Ok(Format::Ef9366),
            1 => Ok(Format::FmatHigh),
            2 => Ok(Format::FmatLow),
            _ => Err(Refusal::BadState),
        }
    }
}

// Each number of a format is a table of its own, as in `specs/Format`: one function for all would need a type for which, no plainer.
#[tactic(auto, unfolding(crate::specs::Format::width))]
pub fn width_of(f: Format) -> u16
    ensures { result ≡ width f }
{
    match f {
        Format::Ef9366 => 512,
        Format::FmatHigh => 512,
        Format::FmatLow => 256,
    }
}

#[tactic(auto, unfolding(crate::specs::Format::height))]
pub fn height_of(f: Format) -> u16
    ensures { result ≡ height f }
{
    match f {
        Format::Ef9366 => 256,
        Format::FmatHigh => 512,
        Format::FmatLow => 256,
    }
}

// The window, on a cyclic screen or not.
#[tactic(auto, unfolding(crate::specs::Format::window))]
pub fn window_of(f: Format, cyclic: bool) -> Window
    ensures { result ≡ window f cyclic }
{
    Window {
        width: width_of(f) as usize,
        height: height_of(f) as usize,
        cyclic,
    }
}

// The length of the picture's memory.
#[tactic(auto, unfolding(crate::specs::Format::bytes, crate::specs::Format::width, crate::specs::Format::height))]
pub fn bytes_of(f: Format) -> usize
    ensures { result ≡ bytes f }
{
    match f {
        Format::Ef9366 => 16384,
        Format::FmatHigh => 32768,
        Format::FmatLow => 8192,
    }
}

// The frames of a clear.
#[tactic(auto, unfolding(crate::specs::Format::frames))]
pub fn frames_of(f: Format) -> u8
    ensures { result ≡ frames f }
{
    match f {
        Format::Ef9366 => 1,
        Format::FmatHigh => 2,
        Format::FmatLow => 1,
    }
}
