ghost use Rattle.std.specs.Prelude.{◌≡◌, Some};
ghost use Rattle.wire.specs.Codes.{ack_code, ack_decoded, ack_name};

use std::fmt;

// What the interface says of a command, the ACK of its reply. It is the error of a command too: one without `Ok` would repeat five codes.
#[derive(Clone, Copy, Debug, PartialEq, Eq)]
pub enum Ack {
    Ok = 0x00,
    InvalidCommand = 0x02,
    InvalidCrc = 0x03,
    InvalidChannel = 0x08,
    InvalidParam = 0x09,
    GeneralError = 0x0F,
}

// The byte that stands for it in a reply: `as` tells an enum's own.
impl From<Ack> for u8 {
    ghost from_gives = { λ ack code. code ≡ ack_code ack };

    fn from(ack: Ack) -> u8 {
        ack as u8
    }
}

// A reply's byte that stands for no acknowledgement. Not shown to anyone, so it has no text. Each crate has an error of
// its own for the numbers that it reads.
#[derive(Clone, Copy, Debug, PartialEq, Eq)]
pub struct UnknownAck(pub u8);

// What a reply's byte stands for, if it stands for anything.
impl TryFrom<u8> for Ack {
    type Error = UnknownAck;

    ghost try_from_gives = { λ code ack. ack ≡ ack_decoded code };

    fn try_from(code: u8) -> Result<Self, UnknownAck> {
        match code {
            0x00 => Ok(Ack::Ok),
            0x02 => Ok(Ack::InvalidCommand),
            0x03 => Ok(Ack::InvalidCrc),
            0x08 => Ok(Ack::InvalidChannel),
            0x09 => Ok(Ack::InvalidParam),
            0x0F => Ok(Ack::GeneralError),
            _ => Err(UnknownAck(code)),
        }
    }
}

// Its name in words.
impl fmt::Display for Ack {
    ghost output = { λ ack. Some (ack_name ack) };

    fn fmt<W: fmt::Write>(&self, f: &mut fmt::Formatter<W>) -> fmt::Result {
        f.write_str(match self {
            Ack::Ok => "ok",
            Ack::InvalidCommand => "invalid command",
            Ack::InvalidCrc => "invalid CRC",
            Ack::InvalidChannel => "invalid channel",
            Ack::InvalidParam => "invalid parameter",
            Ack::GeneralError => "general error",
        })
    }
}
