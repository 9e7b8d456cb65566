use bank::Mode;

// What is told of a command that was done: the parameter of its reply.
#[derive(Clone, Copy, Debug, PartialEq, Eq)]
pub enum Answer {
    // there is nothing to tell
    Done,
    ProtocolVersion,
    // the name of an interface with so many channels
    InterfaceName(usize),
    InterfaceVersion,
    Channel(u8),
    Page(u8),
    InMode(Mode),
    // who a target is: its identity and its mode
    Target([u8; 3], Mode),
    // so many bytes that were read, counted as PARAM_LEN counts, at the front of a buffer
    Bytes(u8),
}
