// Why bytes were not read as a command. Not shown to anyone, so it has no text.
#[derive(Clone, Copy, Debug, PartialEq, Eq)]
pub enum Unread {
    // too short for a command, begun otherwise, or not as long as its PARAM_LEN says
    NoFrame,
    // a whole frame, but its CRC differs: a reply repeats these two, and nothing else of it is of use
    Damaged { command: u8, address: u16 },
}
