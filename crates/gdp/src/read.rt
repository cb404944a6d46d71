// Reading a register.
ghost use Rattle.std.specs.Prelude.{◌≡◌, false};
ghost use Rattle.rules.specs.State.{with_regs, with_flags, flags};
ghost use Rattle.rules.specs.Registers.{light_pen_read};
ghost use Rattle.rules.specs.Calls.{read_out};
ghost use Rattle.gdp.specs.Flat.{state_of};
ghost use Rattle.gdp.specs.Calls.{as_answer, answer_of};
ghost use Rattle.gdp.specs.Working.Makes.{Makes};

use crate::bits::without_flags;
use crate::state::{Gdp, Reply, accepted};
use parts::refusal::Refusal;

impl Gdp {
    // Reading STATUS clears the flags.
    #[tactic(auto, using(crate::proofs::Bytes::flags_put), unfolding(crate::specs::Flat::flat))]
    fn flags_read(mut self) -> Gdp
        ensures { Makes (with_flags (flags false false false)) self result }
    {
        self.signals = without_flags(self.signals);
        self
    }

    // Reading XLP or YLP clears the lowest bit of XLP.
    #[tactic(auto, unfolding(rules::specs::Registers::light_pen_read, crate::specs::Flat::flat))]
    fn light_pen_read(mut self) -> Gdp
        ensures { Makes (λ s. with_regs (light_pen_read s.regs) s) self result }
    {
        self.xlp = self.xlp / 2 * 2;
        self
    }

    // Reads the register at an address: its byte is the value. Refused with 1 or 4. The addresses are the sheet's own numbers: as an enum
    // each would be named once and told apart once more, which is no plainer.
    #[tactic(auto, using(crate::proofs::Uses::reads), unfolding(crate::proofs::Uses::reading))]
    pub fn read(self, address: u8) -> Result<Reply, Refusal>
        ensures { as_answer self result ≡ answer_of self (read_out (state_of self) address) }
    {
        if self.is_bad() {
            return Err(Refusal::BadState);
        }
        let next = self.tidy();
        match address {
            0x0 => accepted(self.status() as u16, next.flags_read()),
            0x1 => accepted(self.ctrl1 as u16, next),
            0x2 => accepted(self.ctrl2 as u16, next),
            0x3 => accepted(self.csize as u16, next),
            0x5 => accepted(self.deltax as u16, next),
            0x7 => accepted(self.deltay as u16, next),
            0x8 => accepted(self.x / 256, next),
            0x9 => accepted(self.x % 256, next),
            0xA => accepted(self.y / 256, next),
            0xB => accepted(self.y % 256, next),
            0xC => accepted(self.xlp as u16, next.light_pen_read()),
            0xD => accepted(self.ylp as u16, next.light_pen_read()),
            _ => Err(Refusal::BadAddress),
        }
    }
}
