// The VB level: frames begin at a fall and end at a rise.
ghost use Rattle.std.specs.Prelude.{◌≡◌, true, false};
ghost use Rattle.rules.specs.Blanking.{fallen, ends_clear, clear_ends, light_pen_ends, risen, picture_vb};
ghost use Rattle.gdp.specs.Flat.{flat, state_of, named};
ghost use Rattle.gdp.specs.Calls.{as_answer, Blanks};
ghost use Rattle.gdp.specs.Working.Makes.{Makes};
ghost use Rattle.picture.specs.Bit.{bit_at};

use crate::bits::{
    Flag, is_clear_open, is_fill, is_last_frame, is_light_pen_open, is_vb_high, modes_at_fall,
    modes_at_rise, signals_at_fall, with_vb,
};
use crate::state::{Gdp, Reply, accepted};
use parts::refusal::Refusal;
use picture::dot::{bit_at, set_all};

impl Gdp {
    // The frames of a clear and of a light pen sequence that wait for one open.
    #[tactic(auto, using(crate::proofs::Uses::falls), unfolding(crate::specs::Flat::flat, rules::specs::Blanking::fallen))]
    fn fallen(mut self) -> Gdp
        ensures { Makes fallen self result }
    {
        self.modes = modes_at_fall(self.modes);
        self.signals = signals_at_fall(self.signals);
        self
    }

    // A rise of VB ends a clear that is inside its last frame.
    #[tactic(auto, using(crate::proofs::Frames::clear_seen))]
    fn ends_clear(self) -> bool
        ensures { result ≡ ends_clear (state_of self) }
    {
        is_clear_open(self.modes) & is_last_frame(self.modes)
    }

    // A clear that ends: ready rises. One that does not may have its first frame end.
    #[tactic(auto, using(crate::proofs::Uses::rises), unfolding(rules::specs::Blanking::clear_ends, crate::specs::Flat::flat))]
    fn clear_ended(self) -> Gdp
        ensures { named self ≡ true → result ≡ flat (clear_ends (state_of self)) }
    {
        if self.ends_clear() {
            return self.idle().raised(Flag::Ready);
        }
        let mut next = self.tidy();
        next.modes = modes_at_rise(next.modes);
        next
    }

    #[tactic(auto, using(crate::proofs::Frames::light_pen_seen), unfolding(rules::specs::Blanking::light_pen_ends))]
    fn light_pen_ended(self) -> Gdp
        ensures { Makes light_pen_ends self result }
    {
        if is_light_pen_open(self.signals) {
            return self.light_pen_ends().raised(Flag::LightPen);
        }
        self
    }

    #[tactic(auto, using(crate::proofs::Bytes::vb_put), unfolding(crate::specs::Flat::flat, rules::specs::Blanking::risen))]
    fn risen(self) -> Gdp
        ensures { named self ≡ true → result ≡ flat (risen (state_of self)) }
    {
        let mut next = self.clear_ended().light_pen_ended().raised(Flag::Vb);
        next.signals = with_vb(next.signals, true);
        next
    }

    // The picture changes whole, at the rise that ends a clear.
    #[tactic(auto, using(crate::proofs::Uses::paints), unfolding(rules::specs::Cycles::lights))]
    fn clear_picture(self, pic: &mut [u8])
        ensures { bit_at 1 self.signals ≡ false → pic.new ≡ picture_vb (state_of self) true pic.old }
    {
        if self.ends_clear() {
            set_all(pic, is_fill(self.modes) & bit_at(self.ctrl1, 1));
        }
    }

    // Sets the VB level. The picture is lent for a clear's end; the present level changes nothing. Refused with 1 or 2.
    pub fn set_vb(self, level: bool, pic: &mut [u8]) -> Result<Reply, Refusal>
        ensures { Blanks self level pic.old (as_answer self result) pic.new }
    {
        self.checked()?;
        self.check_picture(pic.len())?;
        if is_vb_high(self.signals) {
            if level {
                return accepted(0, self.tidy());
            }
            return accepted(0, self.tidy().fallen());
        }
        if level {
            self.clear_picture(pic);
            return accepted(0, self.risen());
        }
        accepted(0, self.tidy())
    }
}
