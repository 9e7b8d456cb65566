ghost use Rattle.std.specs.Prelude.{◌≡◌, ℕ, List, []};
ghost use Rattle.commands.specs.declared.command.Command.TheVariants.{EraseAll, ErasePage};
ghost use Rattle.session.specs.Outcomes.{told};
ghost use Rattle.session.specs.RuleTable.{performed};

use crate::ranges::target;
use bank::{Bank, is_inside};
use session::{Answer, Session};
use wire::Ack;

// Erases all flash.
pub fn erase_all<B: Bank>(session: &Session, bank: &mut B) -> Result<Answer, Ack>
    ensures answer { (buffer : List ℕ) → told result buffer ≡ (performed EraseAll 0 [] session.now (B.Bank.channels bank.old)).answer }
    ensures channels { B.Bank.channels bank.new ≡ (performed EraseAll 0 [] session.now (B.Bank.channels bank.old)).channels }
{
    let facts = target(session, bank)?;
    bank.erase(session.channel, 0, facts.flash_size)
        .map_err(|_| Ack::GeneralError)?;
    Ok(Answer::Done)
}

// Erases a page of flash.
#[tactic(auto, using(crate::proofs::Pages::start_few))]
pub fn erase_page<B: Bank>(session: &Session, bank: &mut B, page: u8) -> Result<Answer, Ack>
    ensures answer { (buffer : List ℕ) → told result buffer ≡ (performed (ErasePage page) 0 [] session.now (B.Bank.channels bank.old)).answer }
    ensures channels { B.Bank.channels bank.new ≡ (performed (ErasePage page) 0 [] session.now (B.Bank.channels bank.old)).channels }
{
    let facts = target(session, bank)?;
    let start = usize::from(page) * facts.page_size;
    if !is_inside(facts.flash_size, start, facts.page_size) {
        return Err(Ack::InvalidParam);
    }
    bank.erase(session.channel, start, facts.page_size)
        .map_err(|_| Ack::GeneralError)?;
    Ok(Answer::Page(page))
}
