// The power of a target: how many bytes it can still program, and whether it is awake.
#![tactic(auto)]

ghost use Rattle.std.specs.Prelude.{nat_lt, if◌then◌else◌, false, ◌&&◌, ◌≡◌, min, ◌-◌, ◌<◌, ◌^◌};

// Supply counts the bytes that a target can still program before its power fails. Without supply it is asleep. Written whole at
// each change.
#[derive(Clone, Copy, Debug, PartialEq, Eq)]
pub struct Power {
    pub supply: u32,
    pub awake: bool,
    ghost units: { supply < 2 ^ 32 },
    ghost asleep: { supply ≡ 0 → awake ≡ false },
}

impl Power {
    // A new supply, asleep.
    pub fn new(supply: u32) -> Power
        ensures supply { result.supply ≡ supply }
        ensures awake { result.awake ≡ false }
    {
        Power {
            supply,
            awake: false,
        }
    }

    // Wakes or puts to sleep, if there is supply, and tells whether there is: a fact, which is no failure here, so a `bool`.
    pub fn set_awake(&mut self, awake: bool) -> bool
        ensures answer { result ≡ nat_lt 0 self.old.supply }
        ensures supply { self.new.supply ≡ self.old.supply }
        ensures awake { self.new.awake ≡ (if nat_lt 0 self.old.supply then awake else self.old.awake) }
    {
        let supply = self.supply;
        if supply == 0 {
            return false;
        }
        *self = Power { supply, awake };
        true
    }

    // Uses a unit for each of `count` bytes, as far as there are units, and tells how many bytes that is for. Falls asleep when no unit
    // is left.
    pub fn spend(&mut self, count: usize) -> usize
        ensures answer { result ≡ min count self.old.supply }
        ensures supply { self.new.supply ≡ self.old.supply - count }
        ensures awake { self.new.awake ≡ (self.old.awake && nat_lt 0 (self.old.supply - count)) }
    {
        // Neither `as` loses anything, and `try_from` would branch for what cannot come.
        let units = count.min(self.supply as usize);
        let supply = self.supply - units as u32;
        *self = Power {
            supply,
            awake: self.awake && supply > 0,
        };
        units
    }
}
