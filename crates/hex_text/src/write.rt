ghost use Rattle.std.specs.Prelude.{◌≡◌, ◌<◌, Some};
ghost use Rattle.hex_text.specs.Hex.{hex_address, hex_byte, hex_bytes, hex_digit};

use std::fmt;

// A byte, shown as two digits. As two characters, since `{:02X}` works out a width and a radix anew for every byte.
#[derive(Clone, Copy, Debug, PartialEq, Eq)]
pub struct Hex(pub u8);

impl fmt::Display for Hex {
    ghost output = { λ h. Some (hex_byte h.0) };

    fn fmt<W: fmt::Write>(&self, f: &mut fmt::Formatter<W>) -> fmt::Result {
        write!(f, "{}{}", digit(self.0 / 16), digit(self.0 % 16))
    }
}

// An address, shown as four digits. One type for both would need a trait to say how many digits a number has.
#[derive(Clone, Copy, Debug, PartialEq, Eq)]
pub struct Address(pub u16);

impl fmt::Display for Address {
    ghost output = { λ a. Some (hex_address a.0) };

    #[tactic(auto, using(crate::proofs::Printing::address_text))]
    fn fmt<W: fmt::Write>(&self, f: &mut fmt::Formatter<W>) -> fmt::Result {
        let address = self.0;
        write!(f, "{address:04X}")
    }
}

// Bytes, shown with a blank before each.
#[derive(Clone, Copy, Debug, PartialEq, Eq)]
pub struct HexBytes<'a>(pub &'a [u8]);

impl fmt::Display for HexBytes<'_> {
    ghost output = { λ h. Some (hex_bytes h.0.now) };

    fn fmt<W: fmt::Write>(&self, f: &mut fmt::Formatter<W>) -> fmt::Result {
        for &byte in self.0 {
            write!(f, " {}", Hex(byte))?;
        }
        Ok(())
    }
}

// The digit of a number below 16, a capital letter from ten on.
fn digit(n: u8) -> char
    requires { n < 16 }
    ensures { result ≡ hex_digit n }
{
    char::from_digit(u32::from(n), 16)
        .unwrap_or('0')
        .to_ascii_uppercase()
}
