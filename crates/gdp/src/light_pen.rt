// An LPCK edge.
ghost use Rattle.std.specs.Prelude.{◌≡◌, ◌≤◌};
ghost use Rattle.rules.specs.Blanking.{after_edge};
ghost use Rattle.rules.specs.Calls.{struck};
ghost use Rattle.gdp.specs.Flat.{state_of};
ghost use Rattle.gdp.specs.Calls.{as_answer, answer_of};
ghost use Rattle.gdp.specs.Working.Makes.{Makes};

use crate::bits::{Flag, is_light_pen_open};
use crate::state::{Gdp, Reply, accepted};
use parts::refusal::Refusal;

impl Gdp {
    // In the open frame the edge loads XLP and YLP and ends the sequence; at other times it does nothing.
    fn after_edge(mut self, h: u16, v: u16) -> Gdp
        requires { (h ≤ 63) × (v ≤ 255) }
        ensures { Makes (λ s. after_edge s h v) self result }
    {
        if is_light_pen_open(self.signals) {
            self.xlp = (4 * h + 1) as u8;
            self.ylp = v as u8;
            return self.light_pen_ends().raised(Flag::LightPen);
        }
        self
    }

    // Reports an LPCK edge at segment h and line v. Refused with 1 or 8.
    #[tactic(auto, using(crate::proofs::Uses::edges), unfolding(crate::proofs::Uses::refusals))]
    pub fn strike_lpck(self, h: u16, v: u16) -> Result<Reply, Refusal>
        ensures { as_answer self result ≡ answer_of self (struck (state_of self) h v) }
    {
        self.checked()?;
        if (63 < h) | (255 < v) {
            return Err(Refusal::OffScreen);
        }
        accepted(0, self.tidy().after_edge(h, v))
    }
}
