ghost use Rattle.std.specs.Prelude.{◌≡◌, IfOk, string_bytes};
ghost use Rattle.wire.specs.Fields.{reply_fields_of, fields_of};
ghost use Rattle.pcframe_lines.specs.Laws.{LineLaws};
ghost use Rattle.pcframe_lines.specs.Lines.{answered, hex_line, packed_line, report, unpacked_line};

use crate::acks::AckByte;
use hex_text::{Address, Hex, HexBytes};
use pcframe_requests::{Request, parse};
use std::alloc::{AllocError, Global};
use wire::{Message, Reply, pack, unpack};

// The longest frame that a PC sends: 256 parameter bytes and 7 others.
const LONGEST_COMMAND: usize = 263;

// A reply taken apart, as it is answered.
fn report_of(heap: Global, reply: Reply<'_>) -> Result<String, AllocError>
    ensures { IfOk result (λ s. string_bytes s ≡ report (reply_fields_of reply.entry)) }
{
    let command = Hex(reply.message.command);
    let address = Address(reply.message.address);
    let ack = AckByte(reply.ack);
    let param = HexBytes(reply.message.param);
    format!(in heap; "command {command} address {address} ACK {ack} parameter{param}")
}

// Bytes with a blank between each two.
fn hex_line(heap: Global, bytes: &[u8]) -> Result<String, AllocError>
    ensures { IfOk result (λ s. string_bytes s ≡ hex_line bytes.now) }
{
    match bytes {
        [] => Ok(String::new(heap)),
        [first, rest @ ..] => format!(in heap; "{}{}", Hex(*first), HexBytes(rest)),
    }
}

// What is answered to a command.
fn packed(heap: Global, message: Message<'_>) -> Result<String, AllocError>
    ensures { IfOk result (λ s. string_bytes s ≡ packed_line (fields_of message.entry)) }
{
    let mut frame = [0; LONGEST_COMMAND];
    match pack(message, &mut frame) {
        Ok(len) => hex_line(heap, &frame[..len]),
        Err(refusal) => refusal.to_string(heap),
    }
}

// What is answered to the bytes of a reply.
fn unpacked_as(heap: Global, bytes: &[u8]) -> Result<String, AllocError>
    ensures { IfOk result (λ s. string_bytes s ≡ unpacked_line bytes.now) }
{
    match unpack(bytes) {
        Ok(reply) => report_of(heap, reply),
        Err(refusal) => refusal.to_string(heap),
    }
}

// What is answered to a line.
#[tactic(auto, using(crate::proofs::Answering::line_laws))]
pub fn answer(heap: Global, line: &[u8]) -> Result<String, AllocError>
    ensures text { IfOk result (λ s. string_bytes s ≡ answered line.now) }
    ensures laws { LineLaws line.now }
{
    match parse(heap, line)? {
        Some(
            Request::Pack {
                command,
                address,
                param,
            },
        ) => packed(
            heap,
            Message {
                command,
                address,
                param: &param,
            },
        ),
        Some(Request::Unpack(bytes)) => unpacked_as(heap, &bytes),
        None => String::from_str(heap, "?"),
    }
}
