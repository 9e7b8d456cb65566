ghost use Rattle.std.specs.Prelude.{Some, []};
ghost use Rattle.std.specs.Option.{option_map_or};
ghost use Rattle.powerfail_lines.specs.Lines.{outcome_line};

use hex_text::HexBytes;
use std::fmt;

// What came of an attempt on a channel: whether it was answered, whether the target was awake after it, and the bytes that the memory
// then holds at the block's place, if it has such a place.
#[derive(Clone, Copy, Debug, PartialEq, Eq)]
pub struct Outcome<'a> {
    pub channel: usize,
    pub answered: bool,
    pub awake: bool,
    pub held: Option<&'a [u8]>,
}

impl fmt::Display for Outcome<'_> {
    ghost output = { λ o. Some (outcome_line o.channel o.answered o.awake (option_map_or (λ b. b.now) o.held [])) };

    fn fmt<W: fmt::Write>(&self, f: &mut fmt::Formatter<W>) -> fmt::Result {
        let answer = if self.answered {
            "answered"
        } else {
            "no answer"
        };
        let state = if self.awake { "awake" } else { "asleep" };
        let held = HexBytes(self.held.unwrap_or(&[]));
        write!(f, "{} {answer} {state}{held}", self.channel)
    }
}
