// STATUS.
ghost use Rattle.std.specs.Prelude.{◌≡◌};
ghost use Rattle.rules.specs.Status.{outside, status};
ghost use Rattle.gdp.specs.Flat.{state_of};

use crate::bits::{format_of, is_light_pen_off, status_bits, weighed};
use crate::state::Gdp;
use parts::format::{height_of, width_of};

impl Gdp {
    #[tactic(auto, unfolding(rules::specs::Status::outside, crate::specs::Flat::state_of))]
    fn is_outside(self) -> bool
        ensures { result ≡ outside (state_of self) }
    {
        let f = format_of(self.modes);
        (width_of(f) <= self.x) | (height_of(f) <= self.y)
    }

    #[tactic(auto, unfolding(crate::proofs::Uses::flagging))]
    pub(crate) fn status(self) -> u8
        ensures { result ≡ status (state_of self) }
    {
        status_bits(self.signals)
            + weighed(is_light_pen_off(self.signals), 1)
            + weighed(!self.is_busy(), 4)
            + weighed(self.is_outside(), 8)
    }
}
