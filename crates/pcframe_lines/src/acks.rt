ghost use Rattle.std.specs.Prelude.{Some};
ghost use Rattle.pcframe_lines.specs.Lines.{ack_text};

use hex_text::Hex;
use std::fmt;
use wire::Ack;

// An ACK byte, shown as two digits and its name, in brackets, where it has one.
#[derive(Clone, Copy, Debug, PartialEq, Eq)]
pub(crate) struct AckByte(pub u8);

impl fmt::Display for AckByte {
    ghost output = { λ a. Some (ack_text a.0) };

    fn fmt<W: fmt::Write>(&self, f: &mut fmt::Formatter<W>) -> fmt::Result {
        let code = Hex(self.0);
        match Ack::try_from(self.0) {
            Ok(ack) => write!(f, "{code} ({ack})"),
            Err(_) => write!(f, "{code}"),
        }
    }
}
