ghost use Rattle.std.specs.Prelude.{◌≡◌, ℕ, List};
ghost use Rattle.commands.specs.declared.command.Command.TheVariants.{Write};
ghost use Rattle.session.specs.Outcomes.{told};
ghost use Rattle.session.specs.RuleTable.{performed};

use crate::ranges::range;
use bank::{Bank, Space};
use session::{Answer, Session};
use wire::Ack;

// Writes the values into a memory. The cursor is then behind the last one, unless no answer came.
pub fn write<B: Bank>(
    session: &mut Session,
    bank: &mut B,
    space: Space,
    address: u16,
    values: &[u8],
) -> Result<Answer, Ack>
    ensures answer { (buffer : List ℕ) → told result buffer ≡ (performed (Write space) address values.now session.old (B.Bank.channels bank.old)).answer }
    ensures session { session.new ≡ (performed (Write space) address values.now session.old (B.Bank.channels bank.old)).session }
    ensures channels { B.Bank.channels bank.new ≡ (performed (Write space) address values.now session.old (B.Bank.channels bank.old)).channels }
{
    let start = range(session, bank, space, address, values.len())?;
    bank.write(session.channel, space, start, values)
        .map_err(|_| Ack::GeneralError)?;
    session.cursor = start + values.len();
    Ok(Answer::Done)
}
