ghost use Rattle.std.specs.Prelude.{◌≡◌, IfOk};
ghost use Rattle.std.specs.Option.{option_map};
ghost use Rattle.powerfail_lines.specs.Lines.{asked_of, requested, space_of};

use crate::request::Request;
use bank::Space;
use hex_text::{byte_of, bytes_of};
use std::alloc::{AllocError, Global};

// The memory that a letter stands for. No `TryFrom`: both types are of other crates.
fn space_of(letter: u8) -> Option<Space>
    ensures { result ≡ space_of letter }
{
    match letter {
        b'f' => Some(Space::Flash),
        b'e' => Some(Space::Eeprom),
        _ => None,
    }
}

// What a line asks for: a letter for the memory, the supply as two digits after a blank, and the block as bytes.
pub fn parse(heap: Global, line: &[u8]) -> Result<Option<Request>, AllocError>
    ensures { IfOk result (λ o. option_map asked_of o ≡ requested line.now) }
{
    let [letter, b' ', high, low, text @ ..] = line else {
        return Ok(None);
    };
    let (Some(space), Some(units)) = (space_of(*letter), byte_of(*high, *low)) else {
        return Ok(None);
    };
    let block = bytes_of(heap, text)?;
    Ok(block.map(|block| Request {
        space,
        units,
        block,
    }))
}
