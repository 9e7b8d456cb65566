// What a line asks for.

#[derive(Debug, PartialEq, Eq, Drop)]
pub enum Request {
    // the frame of a command
    Pack {
        command: u8,
        address: u16,
        param: Vec<u8>,
    },
    // the contents of a reply
    Unpack(Vec<u8>),
}
