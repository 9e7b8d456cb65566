// The modes in which those commands are valid that are not valid in all. Each names a fact of the protocol, for a guard: patterns of command
// and mode together would have a `_` in ten arms.
ghost use Rattle.std.specs.Prelude.{◌≡◌};
ghost use Rattle.commands.specs.Commands.{erases_all, erases_pages, has_c2, has_eeprom};

use bank::Mode;

// Whether all flash can be erased at once.
pub(crate) fn erases_all(mode: Mode) -> bool
    ensures { result ≡ erases_all mode }
{
    matches!(mode, Mode::SiC2 | Mode::AtmSK)
}

// Whether single pages can be erased.
pub(crate) fn erases_pages(mode: Mode) -> bool
    ensures { result ≡ erases_pages mode }
{
    matches!(mode, Mode::SiC2 | Mode::SiLBLB)
}

// Whether there is a C2 clock line.
pub(crate) fn has_c2(mode: Mode) -> bool
    ensures { result ≡ has_c2 mode }
{
    mode == Mode::SiC2
}

// Whether there may be EEPROM.
pub(crate) fn has_eeprom(mode: Mode) -> bool
    ensures { result ≡ has_eeprom mode }
{
    matches!(mode, Mode::AtmBLB | Mode::AtmSK)
}
