// A bank of targets, as the interface sees it: 1 to 8 channels, each one motor controller.
#![tactic(auto)]

ghost use Rattle.std.specs.Prelude.{◌≡◌, true, false, is_ok, List, length, Some, None};
ghost use Rattle.std.specs.Option.{option_map};
ghost use Rattle.bank.specs.Channels.{Channel, SoundBank, alter, ask};
ghost use Rattle.bank.specs.Effects.{entered, erased, powered, program_answered, put_to_sleep, reached, read_into, supplied, written};
ghost use Rattle.bank.specs.Facts.{facts_of};
ghost use Rattle.bank.specs.declared.space.Space.TheVariants.{Flash};

mod answer;
mod facts;
mod mode;
mod sizes;
mod space;

pub use answer::NoAnswer;
pub use facts::Facts;
pub use mode::{Mode, UnknownMode};
pub use sizes::{MAX_EEPROM_SIZE, MAX_FLASH_SIZE};
pub use space::{Space, is_inside};

// The most channels that a bank has.
pub const MAX_CHANNELS: usize = 8;

// What every sort of bank does. No answer (`None`, `NoAnswer`) comes from a channel outside the list. A call that is not answered alters
// nothing, save a write or an erase whose units end first. Channels that a call does not name never alter. Channel, memory and address are
// three parameters, since a bank of banks renumbers the channel alone; start and count are two, since their sum may be no number.
pub trait Bank {
    ghost channels: { Self → List Channel };

    // How many channels there are.
    fn count(&self) -> usize
        ensures { result ≡ length (channels self.now) };

    // What is fixed about a channel.
    fn facts(&self, channel: usize) -> Option<Facts>
        ensures { option_map facts_of result ≡ ask None (λ c. Some c.facts) (channels self.now) channel };

    // Whether a channel is awake.
    fn alive(&self, channel: usize) -> Option<bool>
        ensures { result ≡ ask None (λ c. Some c.awake) (channels self.now) channel };

    // Wakes a channel that has supply. Without supply no answer comes.
    fn enter(&mut self, channel: usize) -> Result<(), NoAnswer>
        ensures answer { is_ok result ≡ ask false powered (channels self.old) channel }
        ensures after { channels self.new ≡ alter entered (channels self.old) channel };

    // Puts a channel that has supply to sleep. Without supply no answer comes.
    fn sleep(&mut self, channel: usize) -> Result<(), NoAnswer>
        ensures answer { is_ok result ≡ ask false powered (channels self.old) channel }
        ensures after { channels self.new ≡ alter put_to_sleep (channels self.old) channel };

    // Reads as many bytes as the buffer has, from the address `start` on. No answer comes from a channel that is asleep or has no such
    // range; an empty range is none.
    fn read(
        &self,
        channel: usize,
        space: Space,
        start: usize,
        buffer: &mut [u8],
    ) -> Result<(), NoAnswer>
        ensures answer { is_ok result ≡ ask false (reached space start (length buffer.old)) (channels self.now) channel }
        ensures bytes { buffer.new ≡ ask buffer.old (read_into space start buffer.old) (channels self.now) channel };

    // Lands the values from the address `start` upward, a unit of supply for each. When the units end first, the lowest bytes have landed
    // and no answer comes. At supply 0, also after the last byte, the channel falls asleep.
    fn write(
        &mut self,
        channel: usize,
        space: Space,
        start: usize,
        values: &[u8],
    ) -> Result<(), NoAnswer>
        ensures answer { is_ok result ≡ ask false (program_answered space start (length values.now)) (channels self.old) channel }
        ensures after { channels self.new ≡ alter (written space start values.now) (channels self.old) channel };

    // Sets bytes of flash to FF from the address `start` upward, a unit of supply for each, and ends as a write does.
    fn erase(&mut self, channel: usize, start: usize, count: usize) -> Result<(), NoAnswer>
        ensures answer { is_ok result ≡ ask false (program_answered Flash start count) (channels self.old) channel }
        ensures after { channels self.new ≡ alter (erased start count) (channels self.old) channel };

    // Gives a channel another supply, and puts it to sleep.
    fn supply(&mut self, channel: usize, units: u32) -> Result<(), NoAnswer>
        ensures answer { is_ok result ≡ ask false (λ _. true) (channels self.old) channel }
        ensures after { channels self.new ≡ alter (supplied units) (channels self.old) channel };

    ghost sound: { (b : Self) → SoundBank (channels b) };
}
