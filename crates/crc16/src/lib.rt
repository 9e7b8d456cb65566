// CRC-16/XMODEM, the checksum of every frame: polynomial 0x1021, start 0x0000, highest bit first, no final inversion.
#![tactic(auto)]

ghost use Rattle.std.specs.Prelude.{◌≡◌, ℕ, List, ◌≢◌};
ghost use Rattle.crc16.specs.Altered.{Altered};
ghost use Rattle.byte_rows.specs.Bytes.{Bytes};
ghost use Rattle.crc16.specs.Crc.{crc_from, crc_of, crc_step, shifts};

mod table;

use table::TABLE;

// The register after eight more bits: its upper half goes through the table, its lower half moves up.
#[tactic(auto, using(crate::proofs::Register::table_shifts), unfolding(crate::specs::Crc::shift, crate::specs::Crc::shifts))]
fn eight_bits(register: u16) -> u16
    ensures { result ≡ shifts 8 register }
{
    TABLE[usize::from(register >> 8)] ^ (register << 8)
}

// The register after one more byte.
pub fn step(crc: u16, byte: u8) -> u16
    ensures { result ≡ crc_step crc byte }
{
    eight_bits(crc ^ (u16::from(byte) << 8))
}

// The register after `bytes`, begun at `crc`. No bytes that differ from them in one place, or in two neighbouring ones, bring
// it to the same.
fn after(crc: u16, bytes: &[u8]) -> u16
    ensures value { result ≡ crc_from crc bytes.now }
    ensures neighbours { (ys : List ℕ) → Bytes ys → Altered bytes.now ys → result ≢ crc_from crc ys }
{
    bytes.iter().fold(crc, |crc, byte| step(crc, *byte))
}

// The checksum of `bytes`. No bytes that differ from them in one place, or in two neighbouring ones, have the same.
pub fn checksum(bytes: &[u8]) -> u16
    ensures value { result ≡ crc_of bytes.now }
    ensures neighbours { (ys : List ℕ) → Bytes ys → Altered bytes.now ys → result ≢ crc_of ys }
{
    after(0, bytes)
}

#[cfg(test)]
mod tests {
    use super::*;

    // The check value by which this checksum is known.
    #[test]
    fn digits(rt: HostRuntime) {
        assert_eq!(rt; checksum(b"123456789"), 0x31C3);
    }
}
