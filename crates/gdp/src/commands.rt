// What an accepted command does at once.
ghost use Rattle.rules.specs.State.{with_regs};
ghost use Rattle.rules.specs.Commands.{commanded, prompt, begun};
ghost use Rattle.gdp.specs.Working.Makes.{Makes};

use crate::bits::Flag;
use crate::state::Gdp;
use parts::command::is_prompt;
use picture::dot::with_bit;

impl Gdp {
    // A command without write cycles: a clear waits for its first frame, in the others ready falls and rises at once.
    #[tactic(auto, unfolding(crate::proofs::Uses::prompts))]
    fn prompted(mut self, code: u8) -> Gdp
        ensures { Makes (λ s. prompt (with_regs (commanded s.regs code) s) code) self result }
    {
        match code {
            0x00 => {
                self.ctrl1 = with_bit(self.ctrl1, 1, true);
                self.raised(Flag::Ready)
            }
            0x01 => {
                self.ctrl1 = with_bit(self.ctrl1, 1, false);
                self.raised(Flag::Ready)
            }
            0x02 => {
                self.ctrl1 = with_bit(self.ctrl1, 0, true);
                self.raised(Flag::Ready)
            }
            0x03 => {
                self.ctrl1 = with_bit(self.ctrl1, 0, false);
                self.raised(Flag::Ready)
            }
            0x04 => self.clears(false),
            0x05 => {
                self.x = 0;
                self.y = 0;
                self.raised(Flag::Ready)
            }
            0x06 => {
                self.x = 0;
                self.y = 0;
                self.clears(false)
            }
            0x07 => {
                self.ctrl1 = 0;
                self.ctrl2 = 0;
                self.csize = 0x11;
                self.deltax = 0;
                self.deltay = 0;
                self.x = 0;
                self.y = 0;
                self.clears(false)
            }
            0x08 => self.raised(Flag::Ready).light_pen_waits(),
            0x09 => self.raised(Flag::Ready).light_pen_waits(),
            0x0C => self.clears(true),
            0x0D => {
                self.x = 0;
                self.raised(Flag::Ready)
            }
            0x0E => {
                self.y = 0;
                self.raised(Flag::Ready)
            }
            _ => self.raised(Flag::Ready),
        }
    }

    // Apart from `write`: within it a register's write takes 18 instructions more on x86-64.
    #[tactic(auto, unfolding(rules::specs::Commands::begun))]
    #[inline(never)]
    pub(crate) fn begun(self, code: u8) -> Gdp
        ensures { Makes (λ s. begun s code) self result }
    {
        if is_prompt(code) {
            return self.prompted(code);
        }
        self.begins(code)
    }
}
