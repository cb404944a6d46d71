// The address outputs for the present X and Y.
ghost use Rattle.std.specs.Prelude.{◌≡◌};
ghost use Rattle.rules.specs.Calls.{located};
ghost use Rattle.gdp.specs.Flat.{state_of};
ghost use Rattle.gdp.specs.Calls.{as_outputs, outputs_of};

use crate::bits::format_of;
use crate::state::Gdp;
use parts::address::{Address, outputs};
use parts::refusal::Refusal;

// The address outputs as C has them: the refusal number or 0, DAD while CK is low, DAD while CK is high, and MSL.
#[repr(C)]
#[derive(Clone, Copy)]
pub struct Outputs {
    pub number: u8,
    pub low: u8,
    pub high: u8,
    pub msl: u8,
}

impl Outputs {
    // A refusal has three zeros.
    pub fn of(outcome: Result<Address, Refusal>) -> Outputs
        ensures { result ≡ as_outputs outcome }
    {
        match outcome {
            Ok(Address { low, high, msl }) => Outputs {
                number: 0,
                low,
                high,
                msl,
            },
            Err(why) => Outputs {
                number: u8::from(why),
                low: 0,
                high: 0,
                msl: 0,
            },
        }
    }
}

impl Gdp {
    // The address outputs. Refused with 1.
    #[tactic(auto, using(crate::proofs::Told::address_told), unfolding(crate::proofs::Uses::refusals))]
    pub fn locate(self) -> Result<Address, Refusal>
        ensures { as_outputs result ≡ outputs_of self (located (state_of self)) }
    {
        self.checked()?;
        Ok(outputs(format_of(self.modes), self.x, self.y))
    }
}
