// Commands about the interface itself.
ghost use Rattle.std.specs.Prelude.{◌≡◌, ℕ, List, [], ◌∷◌, map, Ok};
ghost use Rattle.bank.specs.Effects.{put_to_sleep};
ghost use Rattle.session.specs.Doing.{alive_tested, exited};
ghost use Rattle.session.specs.Outcomes.{told};
ghost use Rattle.session.specs.Sessions.{in_mode};
ghost use Rattle.bank.specs.Modes.{mode_number};

use bank::{Bank, Mode};
use session::{Answer, Session};
use wire::Ack;

// Puts every target that has supply to sleep. A bank is called by number; after a `for_each` nothing is known of it.
#[tactic(auto, using(bank::proofs::Channels::front_all, bank::proofs::Channels::front_more))]
fn sleep_all<B: Bank>(bank: &mut B)
    ensures { B.Bank.channels bank.new ≡ map put_to_sleep (B.Bank.channels bank.old) }
{
    for channel in 0..bank.count() {
        // A target without supply does not answer, and stays as it is.
        let _ = bank.sleep(channel);
    }
}

// Test alive: fails only when connected to a target that is asleep.
pub fn test_alive<B: Bank>(session: &Session, bank: &B) -> Result<Answer, Ack>
    ensures { (buffer : List ℕ) → told result buffer ≡ (alive_tested session.now (B.Bank.channels bank.now)).answer }
{
    if session.connected && bank.alive(session.channel) != Some(true) {
        return Err(Ack::GeneralError);
    }
    Ok(Answer::Done)
}

// Exit: restarts the session. In mode 0 it first puts every target that has supply to sleep.
pub fn exit<B: Bank>(session: &mut Session, bank: &mut B) -> Result<Answer, Ack>
    ensures answer { (buffer : List ℕ) → told result buffer ≡ (exited session.old (B.Bank.channels bank.old)).answer }
    ensures session { session.new ≡ (exited session.old (B.Bank.channels bank.old)).session }
    ensures channels { B.Bank.channels bank.new ≡ (exited session.old (B.Bank.channels bank.old)).channels }
{
    if session.mode == Mode::SiC2 {
        sleep_all(bank);
    }
    *session = Session::new();
    Ok(Answer::Done)
}

// Set mode: sets it, and ends the connection.
pub fn set_mode(session: &mut Session, mode: Mode) -> Result<Answer, Ack>
    ensures answer { (buffer : List ℕ) → told result buffer ≡ Ok (mode_number mode ∷ []) }
    ensures session { session.new ≡ in_mode mode session.old }
{
    session.mode = mode;
    session.connected = false;
    Ok(Answer::InMode(mode))
}
