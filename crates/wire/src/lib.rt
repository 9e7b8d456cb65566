// The frames of the 4-way interface: what a PC sends, what the interface answers, and both ends of each.
#![tactic(auto)]

mod ack;
mod layout;
mod message;
mod read;
mod refusal;
mod unread;
mod write;

pub use ack::{Ack, UnknownAck};
pub use layout::{MAX_PARAM, count_of};
pub use message::{Message, Reply};
pub use read::{read_command, unpack};
pub use refusal::Refusal;
pub use unread::Unread;
pub use write::{pack, write_reply};

// Examples as the protocol prints them, and the edges.
#[cfg(test)]
mod tests {
    use super::*;

    const TEST_ALIVE: Message<'static> = Message {
        command: 0x30,
        address: 0x0000,
        param: &[0x00],
    };

    // The frame of a command; the byte behind it stays.
    #[test]
    fn command_as_printed(rt: HostRuntime) {
        let mut buffer = [0xAA; 9];
        assert!(rt; pack(TEST_ALIVE, &mut buffer).is_ok());
        assert!(rt; buffer == [0x2F, 0x30, 0x00, 0x00, 0x01, 0x00, 0xCF, 0xD4, 0xAA]);
    }

    // One byte short: refused, and the buffer stays.
    #[test]
    fn short_buffer(rt: HostRuntime) {
        let mut buffer = [0xAA; 7];
        assert_eq!(rt; pack(TEST_ALIVE, &mut buffer), Err(Refusal::ShortBuffer));
        assert_eq!(rt; u8::from(Refusal::ShortBuffer), 23);
        assert!(rt; buffer == [0xAA; 7]);
    }

    // No parameter comes before the short buffer.
    #[test]
    fn no_parameter(rt: HostRuntime) {
        let none = Message {
            command: 0x30,
            address: 0x0000,
            param: &[],
        };
        assert_eq!(rt; pack(none, &mut [0xAA; 1]), Err(Refusal::ParamCount));
        assert_eq!(rt; u8::from(Refusal::ParamCount), 25);
    }

    #[test]
    fn reply_as_printed(rt: HostRuntime) {
        let mut buffer = [0xAA; 9];
        assert!(rt; write_reply(TEST_ALIVE, Ack::Ok, &mut buffer).is_ok());
        assert!(rt; buffer == [0x2E, 0x30, 0x00, 0x00, 0x01, 0x00, 0x00, 0x44, 0xC2]);
    }

    // The command is read, and one altered bit of its CRC damages it.
    #[test]
    fn command_read(rt: HostRuntime) {
        let intact = read_command(&[0x2F, 0x30, 0x00, 0x00, 0x01, 0x00, 0xCF, 0xD4]);
        assert_eq!(rt; intact, Ok(TEST_ALIVE));
        let damaged = read_command(&[0x2F, 0x30, 0x00, 0x00, 0x01, 0x00, 0xCF, 0xD5]);
        assert_eq!(rt;
            damaged,
            Err(Unread::Damaged {
                command: 0x30,
                address: 0x0000
            })
        );
    }

    // PARAM_LEN 00 at both ends: 263 bytes of a command, 264 of a reply.
    #[test]
    fn longest_frames(rt: HostRuntime) {
        let message = Message {
            command: 0x3B,
            address: 0x1FC0,
            param: &[0x5A; 256],
        };
        let mut command = [0; 263];
        assert!(rt; pack(message, &mut command).is_ok());
        assert_eq!(rt; command[4], 0x00);
        assert_eq!(rt; read_command(&command), Ok(message));
        let mut reply = [0; 264];
        assert!(rt; write_reply(message, Ack::GeneralError, &mut reply).is_ok());
        assert_eq!(rt; unpack(&reply), Ok(Reply { message, ack: 0x0F }));
    }
}
