ghost use Rattle.std.specs.Prelude.{◌≡◌};

use bank::Mode;

// What the interface remembers from one command to the next. Channel and cursor are no part of the connection: the protocol keeps both when
// one ends.
#[derive(Clone, Copy, Debug, PartialEq, Eq)]
pub struct Session {
    // the selected channel
    pub channel: usize,
    pub mode: Mode,
    // where a read or a write without an address of its own begins
    pub cursor: usize,
    // whether it is connected to the target of the selected channel
    pub connected: bool,
}

impl Session {
    ghost use Rattle.session.specs.Sessions.{start};

    // As it is at the start.
    pub fn new() -> Session
        ensures { result ≡ start }
    {
        Session {
            channel: 0,
            mode: Mode::SiC2,
            cursor: 0,
            connected: false,
        }
    }
}
