// Attempts to write a block into a target whose power may fail, and a look at what it then holds.
#![tactic(auto)]

ghost use Rattle.std.specs.Prelude.{◌≡◌, false, is_ok, length};
ghost use Rattle.attempts.specs.Attempts.{Retry, roused};
ghost use Rattle.bank.specs.Channels.{alter, ask};
ghost use Rattle.bank.specs.Effects.{program_answered, reached, read_into, written};

use bank::{Bank, NoAnswer, Space};

// Gives a channel a new supply and wakes it. Where no answer comes to either, none comes to what is asked of the channel next.
#[tactic(auto, using(bank::proofs::Channels::alter_alter))]
fn rouse<B: Bank>(bank: &mut B, channel: usize, units: u32)
    ensures { B.Bank.channels bank.new ≡ alter (roused units) (B.Bank.channels bank.old) channel }
{
    let _ = bank.supply(channel, units);
    let _ = bank.enter(channel);
}

// One attempt at a block: gives a channel a new supply, wakes it and writes. An answer says that the memory is what the whole block,
// landed once before the first of the attempts at it, would have left, however many of them were torn.
pub fn attempt<B: Bank>(
    bank: &mut B,
    channel: usize,
    space: Space,
    start: usize,
    values: &[u8],
    units: u32,
) -> Result<(), NoAnswer>
    ensures answer { is_ok result ≡ ask false (program_answered space start (length values.now)) (alter (roused units) (B.Bank.channels bank.old) channel) channel }
    ensures after { B.Bank.channels bank.new ≡ alter (written space start values.now) (alter (roused units) (B.Bank.channels bank.old) channel) channel }
    ensures retry { Retry space start values.now }
{
    rouse(bank, channel, units);
    bank.write(channel, space, start, values)
}

// Sets a channel's supply to one unit, wakes it and reads as many bytes of its memory as the buffer has.
pub fn look<B: Bank>(
    bank: &mut B,
    channel: usize,
    space: Space,
    start: usize,
    buffer: &mut [u8],
) -> Result<(), NoAnswer>
    ensures answer { is_ok result ≡ ask false (reached space start (length buffer.old)) (alter (roused 1) (B.Bank.channels bank.old) channel) channel }
    ensures after { B.Bank.channels bank.new ≡ alter (roused 1) (B.Bank.channels bank.old) channel }
    ensures bytes { buffer.new ≡ ask buffer.old (read_into space start buffer.old) (alter (roused 1) (B.Bank.channels bank.old) channel) channel }
{
    rouse(bank, channel, 1);
    bank.read(channel, space, start, buffer)
}
