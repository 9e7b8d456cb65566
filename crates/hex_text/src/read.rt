ghost use Rattle.std.specs.Prelude.{◌≡◌, IfOk, vec_items};
ghost use Rattle.std.specs.Option.{option_map};
ghost use Rattle.hex_text.specs.Hex.{byte_value, bytes_spelled, digit_value};

use std::alloc::{AllocError, Global};

// What a digit counts, capital or small. A function of its own for its contract.
fn value_of(digit: u8) -> Option<u32>
    ensures { result ≡ digit_value digit }
{
    char::from(digit).to_digit(16)
}

// The byte that two digits spell. The `as` loses nothing: both count less than 16.
pub fn byte_of(high: u8, low: u8) -> Option<u8>
    ensures { result ≡ byte_value high low }
{
    Some((value_of(high)? * 16 + value_of(low)?) as u8)
}

// The bytes that a text spells, each as two digits after one blank; None where the text is anything else.
pub fn bytes_of(heap: Global, text: &[u8]) -> Result<Option<Vec<u8>>, AllocError>
    ensures { IfOk result (λ o. option_map vec_items o ≡ bytes_spelled text.now) }
{
    let mut bytes = Vec::new(heap);
    for chunk in text.chunks(3) {
        let [b' ', high, low] = chunk else {
            return Ok(None);
        };
        let Some(byte) = byte_of(*high, *low) else {
            return Ok(None);
        };
        bytes.push(byte)?;
    }
    Ok(Some(bytes))
}
