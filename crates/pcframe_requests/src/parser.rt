ghost use Rattle.std.specs.Prelude.{◌≡◌, drop, IfOk};
ghost use Rattle.hex_text.specs.Hex.{bytes_spelled};
ghost use Rattle.pcframe_requests.specs.Laws.{RequestLaws};
ghost use Rattle.pcframe_requests.specs.Requests.{asked, asked_by, head_spelled, packing_of, request_as, trimmed, unpacking_of};

use crate::request::Request;
use hex_text::{byte_of, bytes_of};
use std::alloc::{AllocError, Global};

// How many characters COMMAND and ADDRESS take, each after a blank.
const HEAD: usize = 8;

// COMMAND and ADDRESS in front of a text: a blank and two digits, a blank and four digits.
fn head_of(text: &[u8]) -> Option<(u8, u16)>
    ensures { result ≡ head_spelled text.now }
{
    let [b' ', c1, c0, b' ', a3, a2, a1, a0, ..] = text else {
        return None;
    };
    let command = byte_of(*c1, *c0)?;
    let high = byte_of(*a3, *a2)?;
    let low = byte_of(*a1, *a0)?;
    Some((command, u16::from_be_bytes([high, low])))
}

// What the text behind a `p` asks for.
fn packing(heap: Global, text: &[u8]) -> Result<Option<Request>, AllocError>
    ensures { IfOk result (λ q. request_as q ≡ packing_of (head_spelled text.now) (bytes_spelled (drop 8 text.now))) }
{
    let Some((command, address)) = head_of(text) else {
        return Ok(None);
    };
    let Some(param) = bytes_of(heap, &text[HEAD..])? else {
        return Ok(None);
    };
    Ok(Some(Request::Pack {
        command,
        address,
        param,
    }))
}

// What the text behind a `u` asks for.
fn unpacking(heap: Global, text: &[u8]) -> Result<Option<Request>, AllocError>
    ensures { IfOk result (λ q. request_as q ≡ unpacking_of (bytes_spelled text.now)) }
{
    Ok(bytes_of(heap, text)?.map(Request::Unpack))
}

// What a trimmed line asks for.
fn request_of(heap: Global, line: &[u8]) -> Result<Option<Request>, AllocError>
    ensures { IfOk result (λ q. request_as q ≡ asked_by line.now) }
{
    match line {
        [b'p', text @ ..] => packing(heap, text),
        [b'u', text @ ..] => unpacking(heap, text),
        _ => Ok(None),
    }
}

// A line without the carriage return that may end it.
fn trim(line: &[u8]) -> &[u8]
    ensures { result.now ≡ trimmed line.now }
{
    match line {
        [text @ .., b'\r'] => text,
        _ => line,
    }
}

// What a line asks for.
#[tactic(auto, using(crate::proofs::Asking::request_laws))]
pub fn parse(heap: Global, line: &[u8]) -> Result<Option<Request>, AllocError>
    ensures value { IfOk result (λ q. request_as q ≡ asked line.now) }
    ensures laws { RequestLaws line.now }
{
    request_of(heap, trim(line))
}
