ghost use Rattle.std.specs.Prelude.{◌≡◌, ℕ, ◌+◌, ◌≤◌, length, take, Some, Ok, option_to_list};
ghost use Rattle.crc16.specs.Crc.{crc_of};
ghost use Rattle.wire.specs.Codes.{ack_code};
ghost use Rattle.wire.specs.Fields.{fields_of};
ghost use Rattle.wire.specs.Frames.{big_endian, command_frame, frame, header, overhead_with, reply_frame, start_with};
ghost use Rattle.wire.specs.Packing.{buffer_after, write_result, written_at};
ghost use Rattle.wire.specs.Reading.{command_in, intact, unpacked};

use crate::ack::Ack;
use crate::layout::{Form, HEADER, MAX_PARAM, len_of};
use crate::message::Message;
use crate::refusal::Refusal;
use crc16::checksum;

// Copies `part` into `out` from place `at` on.
fn put(out: &mut [u8], at: usize, part: &[u8])
    requires { at + length part.now ≤ length out.old }
    ensures { out.new ≡ written_at out.old at part.now }
{
    out[at..at + part.len()].copy_from_slice(part);
}

// The length of a frame of the given form with `count` parameter bytes, if it fits into `space` bytes.
fn frame_len(count: usize, form: Form, space: usize) -> Result<usize, Refusal>
    ensures { result ≡ write_result count form.overhead space }
{
    if count == 0 || count > MAX_PARAM {
        return Err(Refusal::ParamCount);
    }
    if space < count + form.overhead {
        return Err(Refusal::ShortBuffer);
    }
    Ok(count + form.overhead)
}

// What stands before the parameter. Of a form it only needs START.
fn header_of(start: u8, message: Message<'_>) -> [u8; HEADER]
    requires { length message.param.now ≤ 256 }
    ensures { result ≡ header start (fields_of message.entry) }
{
    let [high, low] = message.address.to_be_bytes();
    [
        start,
        message.command,
        high,
        low,
        len_of(message.param.len()),
    ]
}

// Appends the CRC of the first `end` bytes to them.
fn append_crc(out: &mut [u8], end: usize)
    requires { end + 2 ≤ length out.old }
    ensures { out.new ≡ written_at out.old end (big_endian (crc_of (take end out.old))) }
{
    let crc = checksum(&out[..end]);
    put(out, end, &crc.to_be_bytes());
}

// Writes the frame of a reply with the given ACK, or of a command where there is none, to the front of `out`. The ACK is the byte that it is
// in a frame.
fn put_frame(message: Message<'_>, ack: Option<u8>, out: &mut [u8]) -> Result<usize, Refusal>
    ensures result { result ≡ write_result (length message.entry.param.now) (overhead_with ack) (length out.old) }
    ensures buffer { out.new ≡ buffer_after result (frame (start_with ack) (fields_of message.entry) (option_to_list ack)) out.old }
{
    let form = Form::with(ack);
    let ack = ack.as_slice();
    let count = message.param.len();
    let len = frame_len(count, form, out.len())?;
    put(out, 0, &header_of(form.start, message));
    put(out, HEADER, message.param);
    put(out, HEADER + count, ack);
    append_crc(out, HEADER + count + ack.len());
    Ok(len)
}

// The PC's end: writes the frame of a command to the front of `out`, keeps the rest, and tells the frame's length, as a
// writer's `write` does.
pub fn pack(message: Message<'_>, out: &mut [u8]) -> Result<usize, Refusal>
    ensures result { result ≡ write_result (length message.entry.param.now) 7 (length out.old) }
    ensures buffer { out.new ≡ buffer_after result (command_frame (fields_of message.entry)) out.old }
    ensures front { (n : ℕ) → result ≡ Ok n → take n out.new ≡ command_frame (fields_of message.entry) }
    ensures read_back { (n : ℕ) → result ≡ Ok n → command_in (take n out.new) ≡ Some (intact (fields_of message.entry)) }
{
    put_frame(message, None, out)
}

// The interface's end: writes the frame of a reply to the front of `out`, keeps the rest, and tells the frame's length.
pub fn write_reply(message: Message<'_>, ack: Ack, out: &mut [u8]) -> Result<usize, Refusal>
    ensures result { result ≡ write_result (length message.entry.param.now) 8 (length out.old) }
    ensures buffer { out.new ≡ buffer_after result (reply_frame (record { fields = fields_of message.entry; ack = ack_code ack })) out.old }
    ensures read_back { (n : ℕ) → result ≡ Ok n → unpacked (take n out.new) ≡ Ok (record { fields = fields_of message.entry; ack = ack_code ack }) }
{
    put_frame(message, Some(ack.into()), out)
}
