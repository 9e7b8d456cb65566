ghost use Rattle.std.specs.Prelude.{◌≡◌, Some};
ghost use Rattle.wire.specs.Codes.{refusal_number, refusal_text};

use std::error::Error;
use std::fmt;

// Why a call was refused. A refused call has altered nothing.
#[derive(Clone, Copy, Debug, PartialEq, Eq)]
pub enum Refusal {
    // a byte came while a reply waits to be collected
    ReplyWaiting = 21,
    // no reply waits to be collected
    NoReply = 22,
    // the caller's buffer is shorter than what goes into it
    ShortBuffer = 23,
    // the bank has no such channel
    NoChannel = 24,
    // no parameter byte, or more than 256
    ParamCount = 25,
    // too short for a reply, begun otherwise, or not as long as its PARAM_LEN says
    NotAReply = 26,
    // the CRC is not that of the bytes before it
    WrongCrc = 27,
}

// Its number: `as` tells an enum's own.
impl From<Refusal> for u8 {
    ghost from_gives = { λ refusal number. number ≡ refusal_number refusal };

    fn from(refusal: Refusal) -> u8 {
        refusal as u8
    }
}

// As every program answers it: `!` and its number.
impl fmt::Display for Refusal {
    ghost output = { λ refusal. Some (refusal_text refusal) };

    fn fmt<W: fmt::Write>(&self, f: &mut fmt::Formatter<W>) -> fmt::Result {
        let number = u8::from(*self);
        write!(f, "!{number}")
    }
}

impl Error for Refusal {}
