// What a parameter says: nothing where it has not the count or the value that its command takes.
ghost use Rattle.std.specs.Prelude.{◌≡◌};
ghost use Rattle.commands.specs.Commands.{bare, byte_in, channel_in, mode_in, with_data};

use crate::command::Command;
use bank::{MAX_CHANNELS, Mode};
use wire::MAX_PARAM;

// The byte of a parameter that is one byte.
pub(crate) fn byte_in(param: &[u8]) -> Option<u8>
    ensures { result ≡ byte_in param.now }
{
    match param {
        [byte] => Some(*byte),
        _ => None,
    }
}

// The channel that a parameter names.
pub(crate) fn channel_in(param: &[u8]) -> Option<u8>
    ensures { result ≡ channel_in param.now }
{
    byte_in(param).filter(|channel| usize::from(*channel) < MAX_CHANNELS)
}

// The mode that a parameter names.
pub(crate) fn mode_in(param: &[u8]) -> Option<Mode>
    ensures { result ≡ mode_in param.now }
{
    Mode::try_from(byte_in(param)?).ok()
}

// A command that has nothing to tell.
pub(crate) fn bare(command: Command, param: &[u8]) -> Option<Command>
    ensures { result ≡ bare command param.now }
{
    match param {
        [0x00] => Some(command),
        _ => None,
    }
}

// A command whose parameter is its data.
pub(crate) fn with_data(command: Command, param: &[u8]) -> Option<Command>
    ensures { result ≡ with_data command param.now }
{
    match param.len() {
        1..=MAX_PARAM => Some(command),
        _ => None,
    }
}
