// Two banks as one: the first's channels, then the second's, cut after the eighth.
#![tactic(auto)]

ghost use Rattle.std.specs.Prelude.{◌≡◌, length};
ghost use Rattle.pair.specs.Places.{paired, placed};
ghost use Rattle.pair.specs.PlacesLemmas.{paired_sound};

mod place;

use bank::{Bank, Facts, MAX_CHANNELS, NoAnswer, Space};
use place::Place;

// Any two banks. Banks are not printed or compared.
#[derive(Drop)]
pub struct Pair<A, B> {
    pub first: A,
    pub second: B,
}

impl<A: Bank, B: Bank> Pair<A, B> {
    // Which bank answers for a channel: none past the eighth.
    fn locate(&self, channel: usize) -> Option<Place>
        ensures { result ≡ placed (length (A.Bank.channels self.now.first)) channel }
    {
        let firsts = self.first.count();
        if channel >= MAX_CHANNELS {
            None
        } else if channel < firsts {
            Some(Place::First(channel))
        } else {
            Some(Place::Second(channel - firsts))
        }
    }
}

// Hands a call on to the bank that answers for the channel, under that bank's own number for it. `$outside` is said past the eighth. A
// closure takes one type of bank, so each call would have to be written twice, and no `dyn Bank` can be made of a type parameter.
macro_rules! hand_on {
    ($pair:ident, $channel:ident, $call:ident($($argument:expr),*), $outside:expr) => {
        match $pair.locate($channel) {
            Some(Place::First(i)) => $pair.first.$call(i $(, $argument)*),
            Some(Place::Second(i)) => $pair.second.$call(i $(, $argument)*),
            None => $outside,
        }
    };
}

#[tactic(auto, using(crate::proofs::Pairs::handed_on))]
impl<A: Bank, B: Bank> Bank for Pair<A, B> {
    ghost channels = { λ p. paired (A.Bank.channels p.first) (B.Bank.channels p.second) };

    ghost sound = { λ b.
        paired_sound (A.Bank.channels b.first) (B.Bank.channels b.second)
        (A.Bank.sound b.first) (B.Bank.sound b.second) };

    fn count(&self) -> usize {
        MAX_CHANNELS.min(self.first.count() + self.second.count())
    }

    fn facts(&self, channel: usize) -> Option<Facts> {
        hand_on!(self, channel, facts(), None)
    }

    fn alive(&self, channel: usize) -> Option<bool> {
        hand_on!(self, channel, alive(), None)
    }

    fn enter(&mut self, channel: usize) -> Result<(), NoAnswer> {
        hand_on!(self, channel, enter(), Err(NoAnswer))
    }

    fn sleep(&mut self, channel: usize) -> Result<(), NoAnswer> {
        hand_on!(self, channel, sleep(), Err(NoAnswer))
    }

    fn read(
        &self,
        channel: usize,
        space: Space,
        start: usize,
        buffer: &mut [u8],
    ) -> Result<(), NoAnswer> {
        hand_on!(self, channel, read(space, start, buffer), Err(NoAnswer))
    }

    fn write(
        &mut self,
        channel: usize,
        space: Space,
        start: usize,
        values: &[u8],
    ) -> Result<(), NoAnswer> {
        hand_on!(self, channel, write(space, start, values), Err(NoAnswer))
    }

    fn erase(&mut self, channel: usize, start: usize, count: usize) -> Result<(), NoAnswer> {
        hand_on!(self, channel, erase(start, count), Err(NoAnswer))
    }

    fn supply(&mut self, channel: usize, units: u32) -> Result<(), NoAnswer> {
        hand_on!(self, channel, supply(units), Err(NoAnswer))
    }
}
