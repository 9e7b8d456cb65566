// Which target a command works on, and where in its memories.
ghost use Rattle.std.specs.Prelude.{◌≡◌, ℕ, ◌+◌, ◌^◌, ◌<◌, if◌then◌else◌, not, Ok, Err};
ghost use Rattle.commands.specs.Commands.{or_invalid_param};
ghost use Rattle.session.specs.Doing.{facts_at, start_of};
ghost use Rattle.session.specs.RuleTable.{facts_result, has_range};
ghost use Rattle.wire.specs.declared.ack.Ack.TheVariants.{GeneralError, InvalidParam};

use bank::{Bank, Facts, Mode, Space, is_inside};
use session::Session;
use wire::Ack;

// The address that stands for the cursor.
const CURSOR_ADDRESS: u16 = 0xFFFF;

// Where a read or a write begins. Mode 0 has no cursor.
fn start_of(session: &Session, address: u16) -> usize
    ensures { result ≡ start_of address session.now }
{
    if address == CURSOR_ADDRESS && session.mode != Mode::SiC2 {
        session.cursor
    } else {
        usize::from(address)
    }
}

// The facts of the connected target.
pub(crate) fn target<B: Bank>(session: &Session, bank: &B) -> Result<Facts, Ack>
    ensures { facts_result result ≡ (if not session.now.connected then Err GeneralError
        else or_invalid_param (facts_at (B.Bank.channels bank.now) session.now.channel)) }
{
    if !session.connected {
        return Err(Ack::GeneralError);
    }
    bank.facts(session.channel).ok_or(Ack::InvalidParam)
}

// Where a range of the connected target begins, if it is inside.
pub(crate) fn range<B: Bank>(
    session: &Session,
    bank: &B,
    space: Space,
    address: u16,
    count: usize,
) -> Result<usize, Ack>
    ensures start { result ≡ (if not session.now.connected then Err GeneralError
        else if has_range space (start_of address session.now) count (facts_at (B.Bank.channels bank.now) session.now.channel)
        then Ok (start_of address session.now)
        else Err InvalidParam) }
    ensures end { (start : ℕ) → result ≡ Ok start → start + count < 2 ^ 64 }
{
    let facts = target(session, bank)?;
    let start = start_of(session, address);
    if is_inside(facts.size_of(space), start, count) {
        Ok(start)
    } else {
        Err(Ack::InvalidParam)
    }
}
