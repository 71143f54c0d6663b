//! Movements of the printed form, and the indicator that they turn on.
ghost use Rattle.std.specs.Prelude.{◌≡◌, ◌<◌, ◌≤◌, ◌++◌, OnErr, OnOk};
ghost use Rattle.rpg_paper.specs.Form.{way_of};
ghost use Rattle.rpg_paper.specs.Paper.{IsPage};
ghost use Rattle.rpg_text.specs.Texts.{trimmed};
ghost use Rattle.rpg_program.specs.Lines as lines;
ghost use Rattle.rpg_memory.specs.Memory.{with_line_placed, standing_of};

use crate::indicators::{turn_off, turn_on};
use crate::memory::Memory;
use rpg_program::rows::Overflow;
use rpg_store::store::Store;
use std::alloc::AllocError;

impl<'a, S: Store + Drop> Memory<'a, S> {
    /// Returns the page of its program, and the indicator that a full page turns on.
    fn overflow(&self) -> Overflow
        ensures own { result ≡ self.now.program.overflow }
        ensures page { IsPage result.page }
    {
        self.rows().overflow
    }

    /// Moves the form on by some lines.
    #[tactic(auto, unfolding(rpg_program::specs::Lines::after_movement))]
    pub fn space(&mut self, spaces: u8)
        requires spaces { spaces ≤ 3 }
        requires few { self.old.world.paper.here.page < 1000 }
        ensures { self.new ≡ record self.old { world = lines.after_space self.old.program.overflow spaces self.old.world } }
    {
        let overflow = self.overflow();
        if self.form.space(overflow.page, spaces) {
            turn_on(&mut self.on, overflow.indicator);
            self.has_turned_on = true;
        }
    }

    /// Moves the form to a line; 0 means no skip.
    #[tactic(auto, unfolding(rpg_program::specs::Lines::after_movement))]
    pub fn skip(&mut self, line: u8)
        requires line { line ≤ 112 }
        requires few { self.old.world.paper.here.page < 1000 }
        ensures { self.new ≡ record self.old { world = lines.after_skip self.old.program.overflow line self.old.world } }
    {
        let overflow = self.overflow();
        if line != 0 && self.form.skip(overflow.page, line) {
            turn_on(&mut self.on, overflow.indicator);
            self.has_turned_on = true;
        }
    }

    /// Turns the overflow indicator off, if overflow output was done and no movement since has turned it on.
    pub fn settle(&mut self)
        ensures { self.new ≡ record self.old { world = lines.settled self.old.program.overflow self.old.world } }
    {
        let overflow = self.overflow();
        if self.was_overflow && !self.has_turned_on {
            turn_off(&mut self.on, overflow.indicator);
        }
        self.was_overflow = false;
    }

    /// Begins to watch movements, at the end of an overflow output.
    pub fn watch_movements(&mut self)
        ensures { self.new ≡ record self.old { world = lines.movements_watched self.old.world } }
    {
        self.was_overflow = true;
        self.has_turned_on = false;
    }

    /// Places a line of text where the form is.
    pub fn place(&mut self, text: &[u8], print: &mut Vec<u8>) -> Result<(), AllocError>
        ensures bytes { OnOk result (print.new.items ≡ print.old.items ++ way_of (standing_of self.old) ++ trimmed text.now) }
        ensures placed { OnOk result (self.new ≡ with_line_placed self.old) }
        ensures same { OnErr result (self.new ≡ self.old) }
        ensures same_bytes { OnErr result (print.new.items ≡ print.old.items) }
    {
        match self.form.place(text, print) {
            Ok(()) => Ok(()),
            Err(_) => Err(AllocError),
        }
    }
}
