use bank::Space;

// A block to write at the start of a memory, with a supply of so many units.
#[derive(Debug, PartialEq, Eq, Drop)]
pub struct Request {
    pub space: Space,
    pub units: u8,
    pub block: Vec<u8>,
}
