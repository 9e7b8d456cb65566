// Bytes and addresses as hexadecimal text, and back.
#![tactic(auto)]

mod read;
mod write;

pub use read::{byte_of, bytes_of};
pub use write::{Address, Hex, HexBytes};
