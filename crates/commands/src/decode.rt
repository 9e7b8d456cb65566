ghost use Rattle.std.specs.Prelude.{◌≡◌};
ghost use Rattle.commands.specs.Commands.{decoded};

use crate::command::Command;
use crate::parameter::{bare, byte_in, channel_in, mode_in, with_data};
use crate::validity::{erases_all, erases_pages, has_c2, has_eeprom};
use bank::{Mode, Space};
use wire::{Ack, Message};

impl Command {
    // The command of a frame, in a mode. A byte that is no command, or none that is valid in the mode, comes before a parameter that the
    // command does not take.
    pub fn decode(mode: Mode, message: Message<'_>) -> Result<Command, Ack>
        ensures { result ≡ decoded mode message.entry.command message.entry.param.now }
    {
        let param = message.param;
        let command = match message.command {
            0x30 => bare(Command::TestAlive, param),
            0x31 => bare(Command::ProtocolVersion, param),
            0x32 => bare(Command::InterfaceName, param),
            0x33 => bare(Command::InterfaceVersion, param),
            0x34 => bare(Command::Exit, param),
            0x35 => channel_in(param).map(Command::Reset),
            0x37 => channel_in(param).map(Command::InitFlash),
            0x38 if erases_all(mode) => bare(Command::EraseAll, param),
            0x39 if erases_pages(mode) => byte_in(param).map(Command::ErasePage),
            0x3A => byte_in(param).map(|len| Command::Read(Space::Flash, len)),
            0x3B => with_data(Command::Write(Space::Flash), param),
            0x3C if has_c2(mode) => channel_in(param).map(Command::Reset),
            0x3D if has_eeprom(mode) => byte_in(param).map(|len| Command::Read(Space::Eeprom, len)),
            0x3E if has_eeprom(mode) => with_data(Command::Write(Space::Eeprom), param),
            0x3F => mode_in(param).map(Command::SetMode),
            _ => return Err(Ack::InvalidCommand),
        };
        command.ok_or(Ack::InvalidParam)
    }
}
