ghost use Rattle.std.specs.Prelude.{◌≡◌, ◌≤◌, length};
ghost use Rattle.std.specs.Option.{option_map};
ghost use Rattle.wire.specs.Fields.{fields_of};
ghost use Rattle.wire.specs.Laws.{Commands, Replies};
ghost use Rattle.wire.specs.Reading.{command_result, crc_right, command_in, reply_result, shaped_fields, unpacked};

use crate::layout::{COMMAND, Form, REPLY, count_of};
use crate::message::{Message, Reply};
use crate::refusal::Refusal;
use crate::unread::Unread;
use crc16::checksum;

// Takes apart the bytes of a frame of the given form; None where they do not have its shape. The CRC is not looked at.
#[tactic(auto, using(crate::proofs::Laws::commands, crate::proofs::Laws::replies, crate::proofs::Shapes::fields_met))]
fn take_apart(bytes: &[u8], form: Form) -> Option<Message<'_>>
    ensures value { option_map fields_of result ≡ shaped_fields form.start form.overhead bytes.now }
    ensures commands { Commands bytes.now }
    ensures replies { Replies bytes.now }
{
    let [first, command, high, low, len, rest @ ..] = bytes else {
        return None;
    };
    let count = count_of(*len);
    if *first != form.start || bytes.len() != count + form.overhead {
        return None;
    }
    Some(Message {
        command: *command,
        address: u16::from_be_bytes([*high, *low]),
        param: &rest[..count],
    })
}

// The last two bytes are the CRC of the bytes before them. Whoever asks has a frame, which has at least eight.
fn crc_right(bytes: &[u8]) -> bool
    requires { 2 ≤ length bytes.now }
    ensures { result ≡ crc_right bytes.now }
{
    let [body @ .., high, low] = bytes else {
        unreachable!()
    };
    checksum(body) == u16::from_be_bytes([*high, *low])
}

// The interface's end: the command that the bytes of a whole frame carry, or why they are not read as one.
pub fn read_command(bytes: &[u8]) -> Result<Message<'_>, Unread>
    ensures result { command_result result ≡ command_in bytes.now }
    ensures laws { Commands bytes.now }
{
    let message = take_apart(bytes, COMMAND).ok_or(Unread::NoFrame)?;
    if crc_right(bytes) {
        Ok(message)
    } else {
        Err(Unread::Damaged {
            command: message.command,
            address: message.address,
        })
    }
}

// The PC's end: takes the bytes of a reply apart. The parameter is a part of them.
pub fn unpack(bytes: &[u8]) -> Result<Reply<'_>, Refusal>
    ensures result { reply_result result ≡ unpacked bytes.now }
    ensures laws { Replies bytes.now }
{
    let message = take_apart(bytes, REPLY).ok_or(Refusal::NotAReply)?;
    if !crc_right(bytes) {
        return Err(Refusal::WrongCrc);
    }
    Ok(Reply {
        message,
        ack: bytes[bytes.len() - 3],
    })
}
