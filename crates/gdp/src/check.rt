// Refusal 1, which every call gives: bytes that stand for no state, or for one that the processor cannot be in; refusal 2; and
// whether a command runs, for refusal 6.
ghost use Rattle.std.specs.Prelude.{◌≡◌, true, not, eqb, [], ◌∷◌};
ghost use Rattle.parts.specs.Format.{bytes};
ghost use Rattle.parts.specs.Command.{kind, lettering};
ghost use Rattle.parts.specs.Refusal.{lowest};
ghost use Rattle.parts.specs.Working.Outcomes.{outcome_number};
ghost use Rattle.rules.specs.Figure.{cycles};
ghost use Rattle.rules.specs.Refusals.{bad_regs, busy};
ghost use Rattle.gdp.specs.Flat.{work_in, format_of, regs_of, state_of};
ghost use Rattle.gdp.specs.Calls.{flawed};
ghost use Rattle.gdp.specs.Working.Check.{stray, bad_step};

use crate::bits::{
    Work, format_of, is_no_format, is_stray_light_pen, is_stray_work, is_vb_high, work_number,
};
use crate::state::Gdp;
use motion::character::character_of;
use motion::vector::line_of;
use parts::command::{is_letter, is_line};
use parts::format::bytes_of;
use parts::refusal::Refusal;
use picture::dot::bit_at;

impl Gdp {
    #[tactic(auto, unfolding(rules::specs::Refusals::bad_regs))]
    fn is_bad_regs(self) -> bool
        ensures { result ≡ bad_regs (regs_of self) }
    {
        (4095 < self.x)
            | (4095 < self.y)
            | (127 < self.ctrl1)
            | (15 < self.ctrl2)
            | bit_at(self.xlp, 1)
    }

    // What is cheap to test: a number that names nothing, a register out of its range, VB high inside an open frame.
    #[tactic(auto, using(crate::proofs::Flaws::stray_sorted))]
    pub(crate) fn is_stray(self) -> bool
        ensures { result ≡ stray self }
    {
        if self.is_bad_regs() | is_no_format(self.modes) | is_stray_light_pen(self.signals) {
            return true;
        }
        is_stray_work(self.modes, is_vb_high(self.signals))
    }

    // The cycles of a character, 48 for each P times Q, or of the block 0B, 16 for each.
    fn letter_cycles(self) -> u16
        ensures { lettering (kind self.code) ≡ true → result ≡ cycles (regs_of self) self.code }
    {
        let b = character_of(self.csize);
        if self.code == 0x0B {
            return 16 * b.p * b.q;
        }
        48 * b.p * b.q
    }

    pub(crate) fn is_stepping(self) -> bool
        ensures { result ≡ eqb (work_in self.modes) 1 }
    {
        work_number(self.modes) == Work::Steps as u8
    }

    // A stepping command that cannot have come so far. It tests the code, since a `Kind` would be made only to be told apart again, which
    // is no plainer. Short, so that it is compiled into its callers and costs them no call.
    #[tactic(auto, using(crate::proofs::Uses::bad_steps), unfolding(drawing::specs::Figure::cycles_of))]
    pub(crate) fn is_bad_step(self) -> bool
        ensures { result ≡ bad_step (regs_of self) self.code self.done }
    {
        if is_letter(self.code) {
            return self.letter_cycles() <= self.done;
        }
        if is_line(self.code) {
            let l = line_of(self.code, self.deltax, self.deltay);
            return l.long < self.done;
        }
        (self.code != 0x0F) | (1 <= self.done)
    }

    // Compiled into `read` and `write`, the calls made most, where a call of it takes some 20 instructions more on x86-64, and into
    // `checked`, which the others share but for `grant`: it is long.
    #[tactic(auto, using(crate::proofs::Uses::flaws))]
    #[inline(always)]
    pub(crate) fn is_bad(self) -> bool
        ensures { result ≡ flawed self }
    {
        if self.is_stray() {
            return true;
        }
        if self.is_stepping() {
            return self.is_bad_step();
        }
        false
    }

    #[tactic(auto, unfolding(parts::specs::Refusal::lowest, parts::specs::Refusal::refusal_number))]
    pub(crate) fn checked(self) -> Result<(), Refusal>
        ensures { outcome_number result ≡ lowest ((1, flawed self) ∷ []) }
    {
        if self.is_bad() {
            return Err(Refusal::BadState);
        }
        Ok(())
    }

    // Refusal 2, by the picture's length.
    #[tactic(auto, unfolding(parts::specs::Refusal::lowest, parts::specs::Refusal::refusal_number))]
    pub(crate) fn check_picture(self, picture: usize) -> Result<(), Refusal>
        ensures { outcome_number result ≡ lowest ((2, not (eqb picture (bytes (format_of self)))) ∷ []) }
    {
        if picture != bytes_of(format_of(self.modes)) {
            return Err(Refusal::BadPicture);
        }
        Ok(())
    }

    #[tactic(auto, using(crate::proofs::Bytes::busy_at), unfolding(rules::specs::Refusals::busy, crate::specs::Flat::state_of))]
    pub(crate) fn is_busy(self) -> bool
        ensures { result ≡ busy (state_of self) }
    {
        work_number(self.modes) != Work::Idle as u8
    }
}
