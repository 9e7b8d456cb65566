ghost use Rattle.std.specs.Prelude.{◌≡◌, true, length};
ghost use Rattle.bank.specs.Sizes.{sizes_fit};
ghost use Rattle.byte_rows.specs.Bytes.{Bytes};

use crate::mode::Mode;
use crate::sizes::{eeprom_most, pages_fit};
use crate::space::Space;

// What is fixed about a target: its mode, the sizes of its flash, of a page of it and of its EEPROM, and what it answers when asked
// who it is.
#[derive(Clone, Copy, Debug, PartialEq, Eq)]
pub struct Facts {
    pub mode: Mode,
    pub flash_size: usize,
    pub page_size: usize,
    pub eeprom_size: usize,
    pub identity: [u8; 3],
    ghost fit: { sizes_fit mode flash_size page_size eeprom_size ≡ true },
    ghost three: { length identity ≡ 3 },
    ghost bytes: { Bytes identity },
}

impl Facts {
    ghost use Rattle.std.specs.Option.{option_map};
    ghost use Rattle.bank.specs.Facts.{facts_of, fitting, size_of};

    // These facts, where their sizes are within their bounds. The parameters are the fields, which only then make a `Facts`.
    pub fn new(
        mode: Mode,
        flash_size: usize,
        page_size: usize,
        eeprom_size: usize,
        identity: [u8; 3],
    ) -> Option<Facts>
        ensures { option_map facts_of result ≡ fitting (record { mode = mode; flash_size = flash_size; page_size = page_size; eeprom_size = eeprom_size; identity = identity }) }
    {
        if pages_fit(flash_size, page_size) && eeprom_size <= eeprom_most(mode) {
            Some(Facts {
                mode,
                flash_size,
                page_size,
                eeprom_size,
                identity,
            })
        } else {
            None
        }
    }

    // How many bytes a memory has.
    pub fn size_of(self, space: Space) -> usize
        ensures { result ≡ size_of space (facts_of self) }
    {
        match space {
            Space::Flash => self.flash_size,
            Space::Eeprom => self.eeprom_size,
        }
    }
}
