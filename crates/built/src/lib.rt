// The four targets that are built in, one of each mode, as they are when new.
#![tactic(auto)]

ghost use Rattle.std.specs.Prelude.{◌≡◌};
ghost use Rattle.bank.specs.Facts.{facts_of};
ghost use Rattle.bank.specs.declared.mode.Mode.TheVariants.{AtmBLB, AtmSK, SiC2, SiLBLB};
ghost use Rattle.built.specs.Built.{built, built_facts};
ghost use Rattle.flash.specs.Rules.{clearing, replacing};
ghost use Rattle.targets.specs.Targets.{channel, new_channel};

use bank::{Facts, Mode};
use flash::{Clearing, Landing, Replacing};
use targets::Target;

// The facts of the built target of a mode.
fn built_facts(mode: Mode) -> Facts
    ensures { facts_of result ≡ built_facts mode }
{
    let (page_size, eeprom_size, identity) = match mode {
        Mode::SiC2 => (512, 0, [0x0A, 0x00, 0x03]),
        Mode::SiLBLB => (512, 0, [0xF3, 0x30, 0x31]),
        Mode::AtmBLB => (64, 512, [0x93, 0x07, 0x31]),
        Mode::AtmSK => (64, 512, [0x93, 0x07, 0x32]),
    };
    Facts {
        mode,
        flash_size: 8_192,
        page_size,
        eeprom_size,
        identity,
    }
}

// A new target with the facts of the built one of a mode.
fn new_built<L: Landing>(mode: Mode) -> Target<L>
    ensures { channel L.Landing.rule result ≡ new_channel (built_facts mode) L.Landing.rule }
{
    Target::new(built_facts(mode))
}

// These four name the generic function. A trait with a type for each mode was tried, for one, and proves; it would take twice the lines.

// A new target of mode 0, SiC2.
pub fn sic2() -> Target<Clearing>
    ensures { channel clearing result ≡ built SiC2 }
{
    new_built(Mode::SiC2)
}

// A new target of mode 1, SiLBLB.
pub fn silblb() -> Target<Clearing>
    ensures { channel clearing result ≡ built SiLBLB }
{
    new_built(Mode::SiLBLB)
}

// A new target of mode 2, AtmBLB.
pub fn atmblb() -> Target<Replacing>
    ensures { channel replacing result ≡ built AtmBLB }
{
    new_built(Mode::AtmBLB)
}

// A new target of mode 3, AtmSK.
pub fn atmsk() -> Target<Replacing>
    ensures { channel replacing result ≡ built AtmSK }
{
    new_built(Mode::AtmSK)
}
