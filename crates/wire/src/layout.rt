ghost use Rattle.std.specs.Prelude.{◌≡◌, ◌≤◌};
ghost use Rattle.wire.specs.Frames.{overhead_with, param_count, param_len, start_with};

// The most parameter bytes of a frame.
pub const MAX_PARAM: usize = 256;

// How many bytes stand before the parameter: START, COMMAND, ADDRESS high and low, PARAM_LEN.
pub(crate) const HEADER: usize = 5;

// What tells a command from a reply.
#[derive(Clone, Copy, Debug, PartialEq, Eq)]
pub(crate) struct Form {
    // the first byte
    pub start: u8,
    // how many bytes there are besides the parameter
    pub overhead: usize,
    ghost least: { 7 ≤ overhead },
    ghost most: { overhead ≤ 8 },
}

// What a PC sends: besides its parameter it has the header and the CRC.
pub(crate) const COMMAND: Form = Form {
    start: 0x2F,
    overhead: 7,
};

// What the interface sends: it has an ACK before its CRC, too.
pub(crate) const REPLY: Form = Form {
    start: 0x2E,
    overhead: 8,
};

impl Form {
    // That of a reply, which has an ACK, or of a command, which has none.
    pub(crate) fn with(ack: Option<u8>) -> Form
        ensures start { result.start ≡ start_with ack }
        ensures overhead { result.overhead ≡ overhead_with ack }
    {
        if ack.is_some() { REPLY } else { COMMAND }
    }
}

// How many parameter bytes PARAM_LEN announces. No `From`: the byte has no type of its own, and 0 stands for 256.
pub fn count_of(len: u8) -> usize
    ensures { result ≡ param_count len }
{
    match len {
        0 => MAX_PARAM,
        n => usize::from(n),
    }
}

// PARAM_LEN for 1 to 256 parameter bytes. The `as` loses nothing; `try_from` would hide that 256 is meant.
pub(crate) fn len_of(count: usize) -> u8
    requires { count ≤ 256 }
    ensures { result ≡ param_len count }
{
    match count {
        MAX_PARAM => 0,
        n => n as u8,
    }
}
