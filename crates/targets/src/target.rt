ghost use Rattle.std.specs.Prelude.{◌≡◌};

use crate::memory::Memory;
use bank::{Facts, MAX_EEPROM_SIZE, MAX_FLASH_SIZE};
use flash::Landing;
use power::Power;
use std::marker::PhantomData;

// One motor controller, whose flash lands by the rule `L`. Nobody prints or compares 37 KB.
#[derive(Drop)]
pub struct Target<L> {
    pub(crate) facts: Facts,
    pub(crate) flash: Memory<MAX_FLASH_SIZE>,
    pub(crate) eeprom: Memory<MAX_EEPROM_SIZE>,
    pub(crate) power: Power,
    pub(crate) landing: PhantomData<L>,
    ghost flash_size: { flash.size ≡ facts.flash_size },
    ghost eeprom_size: { eeprom.size ≡ facts.eeprom_size },
}

impl<L: Landing> Target<L> {
    ghost use Rattle.bank.specs.Facts.{facts_of};
    ghost use Rattle.targets.specs.Targets.{channel, new_channel};

    // A new target with these facts: every byte FF, no supply, asleep.
    pub fn new(facts: Facts) -> Target<L>
        ensures { channel L.Landing.rule result ≡ new_channel (facts_of facts) L.Landing.rule }
    {
        Target {
            facts,
            flash: Memory::blank(facts.flash_size),
            eeprom: Memory::blank(facts.eeprom_size),
            power: Power::new(0),
            landing: PhantomData,
        }
    }
}
