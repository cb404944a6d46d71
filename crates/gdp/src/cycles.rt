// Granted write cycles.
ghost use Rattle.std.specs.Prelude.{◌≡◌, true, false, cond, ◌+◌, ◌≤◌, leb, length};
ghost use Rattle.picture.specs.Screen.{Screen};
ghost use Rattle.motion.specs.Character.{body_cycles};
ghost use Rattle.motion.specs.Working.Cells.{Sized};
ghost use Rattle.parts.specs.declared.command.Kind.{Kind};
ghost use Rattle.parts.specs.Command.{kind, lettering};
ghost use Rattle.parts.specs.Working.Outcomes.{outcome_number};
ghost use Rattle.drawing.specs.Figure.{Cells};
ghost use Rattle.drawing.specs.Run.{Ran};
ghost use Rattle.drawing.specs.Working.Cycle.{Granted};
ghost use Rattle.rules.specs.Figure.{lie, tables, glyph, figure};
ghost use Rattle.rules.specs.Cycles.{tip};
ghost use Rattle.gdp.specs.Flat.{work_in, format_of, regs_of, state_of, named};
ghost use Rattle.gdp.specs.Calls.{as_answer, Grants};
ghost use Rattle.gdp.specs.Working.Check.{stray};
ghost use Rattle.gdp.specs.Working.Steps.{run_of, memory_number, flat_answer, rests_at, HasTable};

use crate::bits::{Flag, format_of};
use crate::state::{Gdp, Reply, accepted};
use drawing::letters::draw_body;
use drawing::strokes::draw_vector;
use drawing::tip::{Run, Tip};
use motion::character::{Body, Letter, Lie, block_of, character_of};
use motion::glyph::{glyph, solid_glyph};
use motion::position::Spot;
use motion::vector::{Vector, line_of};
use parts::command::Kind;
use parts::format::window_of;
use parts::refusal::Refusal;
use picture::dot::bit_at;

// A card whose bytes are not stray and whose command steps. The lent picture and table stay beside it, as C lends them: see `Tip` of
// `drawing` for what a picture in a struct costs.
#[derive(Clone, Copy)]
struct Running {
    card: Gdp,
    ghost plain: { stray card ≡ false },
    ghost steps: { work_in card.modes ≡ 1 },
}

impl Gdp {
    // The tip of the pen or eraser over the format's window.
    fn tip(self) -> Tip
        ensures { result ≡ tip (format_of self) (regs_of self) }
    {
        let f = format_of(self.modes);
        let w = window_of(f, bit_at(self.ctrl1, 3));
        Tip {
            window: w,
            down: bit_at(self.ctrl1, 0),
            lit: bit_at(self.ctrl1, 1),
        }
    }

    // The command's next cycles, so many of them.
    fn run(self, used: u16) -> Run
        ensures { result ≡ run_of self used }
    {
        Run {
            at: Spot {
                x: self.x,
                y: self.y,
            },
            from: self.done,
            count: used,
        }
    }

    // Refusals 2 and 3, by the lengths of picture and table.
    #[tactic(auto, unfolding(parts::specs::Refusal::lowest, parts::specs::Refusal::refusal_number))]
    fn check_memory(self, picture: usize, table: usize) -> Result<(), Refusal>
        ensures { outcome_number result ≡ memory_number self picture table }
    {
        self.check_picture(picture)?;
        if table != 480 {
            return Err(Refusal::BadTable);
        }
        Ok(())
    }

    // The refusals of a command that steps, its cycles at hand: 1 where it cannot have come so far, then 2 and 3.
    #[tactic(auto, unfolding(parts::specs::Refusal::lowest, parts::specs::Refusal::refusal_number))]
    fn check_step(self, cycles: u16, picture: usize, table: usize) -> Result<(), Refusal>
        ensures { outcome_number result ≡ cond (leb cycles self.done) 1 (memory_number self picture table) }
    {
        if cycles <= self.done {
            return Err(Refusal::BadState);
        }
        self.check_memory(picture, table)
    }

    // How characters and blocks lie.
    fn lie(self) -> Lie
        ensures { result ≡ lie (regs_of self) }
    {
        Lie {
            turned: bit_at(self.ctrl2, 3),
            tilted: bit_at(self.ctrl2, 2),
        }
    }

    // A run of a character or block: its generator is handed the part of the table that is its glyph; 0A and 0B have every dot.
    fn draw_letter(self, letter: Letter, used: u16, pic: &mut [u8], table: &[u8]) -> Spot
        requires screen { Screen (tip (format_of self) (regs_of self)).window (length pic.old) }
        requires granted { (body_cycles letter.body ≤ 20000) × HasTable self.code table.now × Granted (Cells letter.lie letter.body) (run_of self used) }
        ensures { Ran (tip (format_of self) (regs_of self)) (Cells letter.lie letter.body) (glyph (tables table.now) self.code) (run_of self used) result pic.old pic.new }
    {
        let t = self.tip();
        let run = self.run(used);
        let solid = solid_glyph();
        let part = if (self.code == 0x0A) | (self.code == 0x0B) {
            &solid
        } else {
            glyph(table, self.code)
        };
        // Called at one place, so that it is compiled into it: at two, a grant of one cycle took 49 instructions more.
        draw_body(pic, t, letter, part, run)
    }

    // The body of the running character or block. That the code is a letter's is asked here and of the two that hand it on: as a type it
    // would be taken apart again at once, which is no plainer.
    fn body(self) -> Body
        requires { lettering (kind self.code) ≡ true }
        ensures { (figure (regs_of self) self.code ≡ Cells (lie (regs_of self)) result) × Sized result × (body_cycles result ≤ 12288) }
    {
        if self.code == 0x0B {
            block_of(self.csize)
        } else {
            character_of(self.csize)
        }
    }

    fn letter(self) -> Letter
        requires { lettering (kind self.code) ≡ true }
        ensures { (figure (regs_of self) self.code ≡ Cells result.lie result.body) × (body_cycles result.body ≤ 12288) }
    {
        Letter {
            lie: self.lie(),
            body: self.body(),
        }
    }

    // Grants n write cycles: those used are the value. Refused with 1, 2 or 3.
    pub fn grant(self, n: u16, pic: &mut [u8], table: &[u8]) -> Result<Reply, Refusal>
        ensures { Grants self n pic.old table.now (as_answer self result) pic.new }
    {
        if self.is_stray() {
            return Err(Refusal::BadState);
        }
        if self.is_stepping() {
            return Running { card: self }.grant(n, pic, table);
        }
        self.check_memory(pic.len(), table.len())?;
        accepted(0, self.tidy())
    }
}

impl Running {
    // After a run: X and Y at its place; with the last cycle ready rises.
    #[tactic(auto, using(crate::proofs::Flaws::plain_named), unfolding(crate::proofs::Uses::rest))]
    fn after_run(self, used: u16, left: u16, s: Spot) -> Result<Reply, Refusal>
        requires { self.card.done + used ≤ 65535 }
        ensures { as_answer self.card result ≡ flat_answer (rests_at (state_of self.card) self.card.code self.card.done used left s) }
    {
        let mut card = self.card;
        card.x = s.x;
        card.y = s.y;
        if used == left {
            return accepted(used, card.idle().raised(Flag::Ready));
        }
        card.done = card.done + used;
        accepted(used, card.stepping())
    }

    // A character or block. This and the next two share how they begin and end; a closure for what is drawn between would be handed all
    // that they have at hand, which is no plainer.
    fn grant_body(
        self,
        letter: Letter,
        n: u16,
        pic: &mut [u8],
        table: &[u8],
    ) -> Result<Reply, Refusal>
        requires letter { lettering (kind self.card.code) ≡ true }
        requires body { (figure (regs_of self.card) self.card.code ≡ Cells letter.lie letter.body) × (body_cycles letter.body ≤ 12288) }
        ensures { Grants self.card n pic.old table.now (as_answer self.card result) pic.new }
    {
        let card = self.card;
        let cycles = letter.body.columns * letter.body.rows;
        card.check_step(cycles, pic.len(), table.len())?;
        let left = cycles - card.done;
        let used = n.min(left);
        let s = card.draw_letter(letter, used, pic, table);
        self.after_run(used, left, s)
    }

    // A vector.
    fn grant_line(self, n: u16, pic: &mut [u8], table: &[u8]) -> Result<Reply, Refusal>
        requires { kind self.card.code ≡ Kind.Vector }
        ensures { Grants self.card n pic.old table.now (as_answer self.card result) pic.new }
    {
        let card = self.card;
        let l = line_of(card.code, card.deltax, card.deltay);
        card.check_step(l.long + 1, pic.len(), table.len())?;
        let left = l.long + 1 - card.done;
        let used = n.min(left);
        let s = draw_vector(
            pic,
            card.tip(),
            card.ctrl2,
            Vector { line: l },
            card.run(used),
        );
        self.after_run(used, left, s)
    }

    // 0F: one cycle and no dot.
    fn grant_pause(self, n: u16, pic: &mut [u8], table: &[u8]) -> Result<Reply, Refusal>
        requires { kind self.card.code ≡ Kind.OneCycle }
        ensures { Grants self.card n pic.old table.now (as_answer self.card result) pic.new }
    {
        let card = self.card;
        card.check_step(1, pic.len(), table.len())?;
        let used = n.min(1);
        let s = Spot {
            x: card.x,
            y: card.y,
        };
        self.after_run(used, 1, s)
    }

    // By the kind of command: its line or body is found once, for refusal 1 and for the drawing.
    fn grant(self, n: u16, pic: &mut [u8], table: &[u8]) -> Result<Reply, Refusal>
        ensures { Grants self.card n pic.old table.now (as_answer self.card result) pic.new }
    {
        match Kind::from(self.card.code) {
            Kind::NoCycle => Err(Refusal::BadState),
            Kind::OneCycle => self.grant_pause(n, pic, table),
            Kind::Vector => self.grant_line(n, pic, table),
            Kind::Character | Kind::Block => self.grant_body(self.card.letter(), n, pic, table),
        }
    }
}
