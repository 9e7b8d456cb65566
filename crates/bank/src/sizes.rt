// The bounds of a target's sizes.
ghost use Rattle.std.specs.Prelude.{◌≡◌};
ghost use Rattle.bank.specs.Sizes.{eeprom_most, pages_fit};

use crate::mode::Mode;

// The most flash that a target can have, in bytes.
pub const MAX_FLASH_SIZE: usize = 32_768;

// The most pages of flash.
const MAX_PAGES: usize = 256;

// The most EEPROM, in bytes.
pub const MAX_EEPROM_SIZE: usize = 4_096;

// Whether `flash_size` bytes are 1 to 256 whole pages of `page_size` bytes, and not too many.
pub(crate) fn pages_fit(flash_size: usize, page_size: usize) -> bool
    ensures { result ≡ pages_fit flash_size page_size }
{
    page_size > 0
        && flash_size % page_size == 0
        && flash_size <= MAX_FLASH_SIZE
        && (1..=MAX_PAGES).contains(&(flash_size / page_size))
}

// The most EEPROM that a target of a mode can have.
pub(crate) fn eeprom_most(mode: Mode) -> usize
    ensures { result ≡ eeprom_most mode }
{
    match mode {
        Mode::SiC2 | Mode::SiLBLB => 0,
        Mode::AtmBLB | Mode::AtmSK => MAX_EEPROM_SIZE,
    }
}
