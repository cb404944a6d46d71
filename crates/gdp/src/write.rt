// Writing a register: address 0 is CMD.
ghost use Rattle.std.specs.Prelude.{◌≡◌};
ghost use Rattle.rules.specs.Registers.{stored};
ghost use Rattle.rules.specs.Refusals.{no_register, read_only};
ghost use Rattle.rules.specs.Calls.{written};
ghost use Rattle.gdp.specs.Flat.{state_of, regs_of, put_regs};
ghost use Rattle.gdp.specs.Calls.{as_answer, answer_of};

use crate::state::{Gdp, Reply, accepted};
use parts::refusal::Refusal;

// Address 4, 6, E or F, or above 15.
#[tactic(auto, unfolding(rules::specs::Refusals::no_register))]
fn is_no_register(address: u8) -> bool
    ensures { result ≡ no_register address }
{
    (address == 0x4) | (address == 0x6) | (0xE <= address)
}

// XLP and YLP.
#[tactic(auto, unfolding(rules::specs::Refusals::read_only))]
fn is_read_only(address: u8) -> bool
    ensures { result ≡ read_only address }
{
    (address == 0xC) | (address == 0xD)
}

impl Gdp {
    // A byte stored at an address, one of the sheet's numbers as in `read`, unused bits dropped.
    #[tactic(auto, unfolding(rules::specs::Registers::stored))]
    fn stored(mut self, address: u8, value: u8) -> Gdp
        ensures { result ≡ put_regs (stored (regs_of self) address value) self }
    {
        match address {
            0x1 => {
                self.ctrl1 = value % 128;
                self
            }
            0x2 => {
                self.ctrl2 = value % 16;
                self
            }
            0x3 => {
                self.csize = value;
                self
            }
            0x5 => {
                self.deltax = value;
                self
            }
            0x7 => {
                self.deltay = value;
                self
            }
            0x8 => {
                self.x = (value % 16) as u16 * 256 + self.x % 256;
                self
            }
            0x9 => {
                self.x = self.x / 256 * 256 + value as u16;
                self
            }
            0xA => {
                self.y = (value % 16) as u16 * 256 + self.y % 256;
                self
            }
            0xB => {
                self.y = self.y / 256 * 256 + value as u16;
                self
            }
            _ => self,
        }
    }

    // Writes a byte to the register at an address; at 0 it is a command. Refused with 1, 4, 5 or 6.
    #[tactic(auto, using(crate::proofs::Uses::writes), unfolding(crate::proofs::Uses::writing))]
    pub fn write(self, address: u8, value: u8) -> Result<Reply, Refusal>
        ensures { as_answer self result ≡ answer_of self (written (state_of self) address value) }
    {
        if self.is_bad() {
            return Err(Refusal::BadState);
        }
        if is_no_register(address) {
            return Err(Refusal::BadAddress);
        }
        if is_read_only(address) {
            return Err(Refusal::ReadOnly);
        }
        if self.is_busy() {
            return Err(Refusal::Busy);
        }
        if address != 0x0 {
            return accepted(0, self.idle().stored(address, value));
        }
        accepted(0, self.idle().begun(value))
    }
}
