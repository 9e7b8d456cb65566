// What a frame carries besides its START, PARAM_LEN and CRC. The parameter is lent.

// What a command and a reply have in common.
#[derive(Clone, Copy, Debug, PartialEq, Eq)]
pub struct Message<'a> {
    pub command: u8,
    pub address: u16,
    pub param: &'a [u8],
}

// A reply as the PC gets it; its ACK may be any byte.
#[derive(Clone, Copy, Debug, PartialEq, Eq)]
pub struct Reply<'a> {
    pub message: Message<'a>,
    pub ack: u8,
}
