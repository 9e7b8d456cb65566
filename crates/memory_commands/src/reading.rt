ghost use Rattle.std.specs.Prelude.{◌≡◌, []};
ghost use Rattle.commands.specs.declared.command.Command.TheVariants.{Read};
ghost use Rattle.session.specs.Outcomes.{told};
ghost use Rattle.session.specs.RuleTable.{performed};

use crate::ranges::range;
use bank::{Bank, Space};
use session::{Answer, Session};
use wire::{Ack, MAX_PARAM, count_of};

// Reads as many bytes of a memory as PARAM_LEN would count, to the front of the buffer. The cursor is then behind the last one, unless
// no answer came.
#[tactic(auto, using(crate::proofs::Fetching::read_bytes, std::proofs::lemmas::List::take_at))]
pub fn read<B: Bank>(
    session: &mut Session,
    bank: &B,
    space: Space,
    address: u16,
    len: u8,
    buffer: &mut [u8; MAX_PARAM],
) -> Result<Answer, Ack>
    ensures answer { told result buffer.new ≡ (performed (Read space len) address [] session.old (B.Bank.channels bank.now)).answer }
    ensures session { session.new ≡ (performed (Read space len) address [] session.old (B.Bank.channels bank.now)).session }
{
    let count = count_of(len);
    let start = range(session, bank, space, address, count)?;
    bank.read(session.channel, space, start, &mut buffer[..count])
        .map_err(|_| Ack::GeneralError)?;
    session.cursor = start + count;
    Ok(Answer::Bytes(len))
}
