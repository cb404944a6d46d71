// The command decoder.
ghost use Rattle.std.specs.Prelude.{◌≡◌};
ghost use Rattle.parts.specs.Command.{kind, lettering, lining, prompting};

// How a command uses write cycles: none (the clears too), one without a dot, or those of its figure.
#[derive(Clone, Copy, Debug, PartialEq, Eq)]
pub enum Kind {
    NoCycle,
    OneCycle,
    Vector,
    Character,
    Block,
}

impl From<u8> for Kind {
    ghost from_gives = { λ code k. k ≡ kind code };

    #[tactic(auto, unfolding(crate::specs::Command::kind))]
    fn from(code: u8) -> Kind {
        match code {
            0x0A => Kind::Character,
            0x0B => Kind::Block,
            0x0F => Kind::OneCycle,
            0x00..=0x0E => Kind::NoCycle,
            0x10..=0x1F => Kind::Vector,
            0x20..=0x7F => Kind::Character,
            _ => Kind::Vector,
        }
    }
}

// A character command: 20 to 7F, 0A, 0B. Two patterns: with one a write took 6 instructions more on x86-64.
#[tactic(auto, unfolding(crate::specs::Command::kind))]
pub fn is_letter(code: u8) -> bool
    ensures { result ≡ lettering (kind code) }
{
    matches!(code, 0x20..=0x7F) | matches!(code, 0x0A | 0x0B)
}

// A vector: 10 to 1F, 80 to FF. By its own pattern, as the next one: a `Kind` would be made only to be told apart again, no plainer.
#[tactic(auto, unfolding(crate::specs::Command::kind))]
pub fn is_line(code: u8) -> bool
    ensures { result ≡ lining (kind code) }
{
    matches!(code, 0x10..=0x1F | 0x80..=0xFF)
}

// A command that takes no write cycle: those below 0F but 0A and 0B.
#[tactic(auto, unfolding(crate::specs::Command::kind))]
pub fn is_prompt(code: u8) -> bool
    ensures { result ≡ prompting (kind code) }
{
    matches!(code, 0x00..=0x09 | 0x0C..=0x0E)
}
