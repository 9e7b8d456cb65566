use bank::{Mode, Space};

// A command with what its parameter says.
#[derive(Clone, Copy, Debug, PartialEq, Eq)]
pub enum Command {
    TestAlive,
    ProtocolVersion,
    InterfaceName,
    InterfaceVersion,
    Exit,
    SetMode(Mode),
    // select a channel and put its target to sleep: device reset, and C2 clock line low
    Reset(u8),
    // select a channel and connect to its target
    InitFlash(u8),
    EraseAll,
    ErasePage(u8),
    // so many bytes, counted as PARAM_LEN counts: 0 means 256
    Read(Space, u8),
    // the parameter itself
    Write(Space),
}
