// A target is a bank of one channel. Enter and sleep, facts and alive differ in a word each, and a function for two would have longer clauses
// than they have lines.
ghost use Rattle.std.specs.Prelude.{◌≡◌, ◌+◌, ◌≤◌, true, [], ◌∷◌, length};
ghost use Rattle.bank.specs.Effects.{memory, reached};
ghost use Rattle.targets.specs.Targets.{channel};
ghost use Rattle.std.proofs.Common.{rules};

use crate::target::Target;
use bank::{Bank, Facts, NoAnswer, Space, is_inside};
use flash::{Landing, Replacing};
use power::Power;

impl<L: Landing> Target<L> {
    // The bytes of a memory.
    fn bytes(&self, space: Space) -> &[u8]
        ensures { result.now ≡ memory space (channel L.Landing.rule self.now) }
    {
        match space {
            Space::Flash => self.flash.bytes(),
            Space::Eeprom => self.eeprom.bytes(),
        }
    }

    // Whether it is awake and has the range.
    fn reaches(&self, space: Space, start: usize, count: usize) -> bool
        ensures answer { result ≡ reached space start count (channel L.Landing.rule self.now) }
        ensures within { result ≡ true → start + count ≤ length (memory space (channel L.Landing.rule self.now)) }
    {
        self.power.awake && is_inside(self.bytes(space).len(), start, count)
    }
}

impl<L: Landing> Bank for Target<L> {
    ghost channels = { λ t. channel L.Landing.rule t ∷ [] };

    ghost sound = { Prim.search rules };

    fn count(&self) -> usize {
        1
    }

    fn facts(&self, channel: usize) -> Option<Facts> {
        match channel {
            0 => Some(self.facts),
            _ => None,
        }
    }

    fn alive(&self, channel: usize) -> Option<bool> {
        match channel {
            0 => Some(self.power.awake),
            _ => None,
        }
    }

    fn enter(&mut self, channel: usize) -> Result<(), NoAnswer> {
        if channel != 0 || !self.power.set_awake(true) {
            return Err(NoAnswer);
        }
        Ok(())
    }

    fn sleep(&mut self, channel: usize) -> Result<(), NoAnswer> {
        if channel != 0 || !self.power.set_awake(false) {
            return Err(NoAnswer);
        }
        Ok(())
    }

    fn read(
        &self,
        channel: usize,
        space: Space,
        start: usize,
        buffer: &mut [u8],
    ) -> Result<(), NoAnswer> {
        if channel != 0 || !self.reaches(space, start, buffer.len()) {
            return Err(NoAnswer);
        }
        buffer.copy_from_slice(&self.bytes(space)[start..start + buffer.len()]);
        Ok(())
    }

    fn write(
        &mut self,
        channel: usize,
        space: Space,
        start: usize,
        values: &[u8],
    ) -> Result<(), NoAnswer> {
        if channel != 0 || !self.reaches(space, start, values.len()) {
            return Err(NoAnswer);
        }
        let units = self.power.spend(values.len());
        match space {
            Space::Flash => self.flash.land::<L>(start, &values[..units]),
            Space::Eeprom => self.eeprom.land::<Replacing>(start, &values[..units]),
        }
        (units == values.len()).then_some(()).ok_or(NoAnswer)
    }

    #[tactic(auto, using(crate::proofs::Fronts::blank_units))]
    fn erase(&mut self, channel: usize, start: usize, count: usize) -> Result<(), NoAnswer> {
        if channel != 0 || !self.reaches(Space::Flash, start, count) {
            return Err(NoAnswer);
        }
        let units = self.power.spend(count);
        self.flash.blank_out(start, units);
        (units == count).then_some(()).ok_or(NoAnswer)
    }

    fn supply(&mut self, channel: usize, units: u32) -> Result<(), NoAnswer> {
        if channel != 0 {
            return Err(NoAnswer);
        }
        self.power = Power::new(units);
        Ok(())
    }
}
