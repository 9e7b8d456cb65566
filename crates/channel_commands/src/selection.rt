// Commands that select a channel.
ghost use Rattle.std.specs.Prelude.{◌≡◌, ℕ, List, [], length, if◌then◌else◌, is_ok, nat_lt, Ok, Err};
ghost use Rattle.commands.specs.declared.command.Command.TheVariants.{InitFlash, Reset};
ghost use Rattle.session.specs.Outcomes.{told};
ghost use Rattle.session.specs.RuleTable.{performed};
ghost use Rattle.session.specs.Sessions.{selecting};
ghost use Rattle.wire.specs.declared.ack.Ack.TheVariants.{InvalidChannel};

use bank::Bank;
use session::{Answer, Session};
use wire::Ack;

// Selects a channel that the bank has, which ends the connection.
fn select<B: Bank>(session: &mut Session, bank: &B, channel: u8) -> Result<(), Ack>
    ensures answer { result ≡ (if nat_lt channel (length (B.Bank.channels bank.now)) then Ok tt else Err InvalidChannel) }
    ensures session { session.new ≡ (if is_ok result then selecting channel session.old else session.old) }
{
    let channel = usize::from(channel);
    if channel >= bank.count() {
        return Err(Ack::InvalidChannel);
    }
    session.channel = channel;
    session.connected = false;
    Ok(())
}

// Device reset, and C2 clock line low: selects a channel that the bank has, and puts its target to sleep.
pub fn reset<B: Bank>(session: &mut Session, bank: &mut B, channel: u8) -> Result<Answer, Ack>
    ensures answer { (buffer : List ℕ) → told result buffer ≡ (performed (Reset channel) 0 [] session.old (B.Bank.channels bank.old)).answer }
    ensures session { session.new ≡ (performed (Reset channel) 0 [] session.old (B.Bank.channels bank.old)).session }
    ensures channels { B.Bank.channels bank.new ≡ (performed (Reset channel) 0 [] session.old (B.Bank.channels bank.old)).channels }
{
    select(session, bank, channel)?;
    bank.sleep(session.channel).map_err(|_| Ack::GeneralError)?;
    Ok(Answer::Channel(channel))
}

// Init flash: selects a channel that the bank has, and connects to its target, which has to be of the session's mode, and then to answer.
pub fn init_flash<B: Bank>(session: &mut Session, bank: &mut B, channel: u8) -> Result<Answer, Ack>
    ensures answer { (buffer : List ℕ) → told result buffer ≡ (performed (InitFlash channel) 0 [] session.old (B.Bank.channels bank.old)).answer }
    ensures session { session.new ≡ (performed (InitFlash channel) 0 [] session.old (B.Bank.channels bank.old)).session }
    ensures channels { B.Bank.channels bank.new ≡ (performed (InitFlash channel) 0 [] session.old (B.Bank.channels bank.old)).channels }
{
    select(session, bank, channel)?;
    let facts = bank.facts(session.channel).ok_or(Ack::GeneralError)?;
    if facts.mode != session.mode {
        return Err(Ack::GeneralError);
    }
    bank.enter(session.channel).map_err(|_| Ack::GeneralError)?;
    session.connected = true;
    session.cursor = 0;
    Ok(Answer::Target(facts.identity, facts.mode))
}
