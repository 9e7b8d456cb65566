// Worked cases of banks and targets. There is no code here but the tests.
#![tactic(auto)]

#[cfg(test)]
mod tests {
    use attempts::{attempt, look};
    use bank::{Bank, NoAnswer, Space};
    use built::{atmblb, atmsk, sic2, silblb};
    use flash::{Clearing, Replacing};
    use pair::Pair;
    use std::process::Abort;
    use targets::Target;

    type Clearings = Pair<Target<Clearing>, Target<Clearing>>;

    type Replacings = Pair<Target<Replacing>, Target<Replacing>>;

    // One target of each mode.
    fn four() -> Pair<Clearings, Replacings> {
        Pair {
            first: Pair {
                first: sic2(),
                second: silblb(),
            },
            second: Pair {
                first: atmblb(),
                second: atmsk(),
            },
        }
    }

    // The whole flash erased with so many units, over 00 in its last two bytes: what comes of it, and what they then hold.
    fn erased<B: Bank>(
        rt: &impl Abort,
        bank: &mut B,
        units: u32,
        answer: Result<(), NoAnswer>,
        left: [u8; 2],
    ) {
        let mut held = [0xAA; 2];
        assert!(rt; attempt(bank, 0, Space::Flash, 8190, &[0x00, 0x00], 2).is_ok());
        assert!(rt; bank.supply(0, units).is_ok());
        assert!(rt; bank.enter(0).is_ok());
        assert_eq!(rt; bank.erase(0, 0, 8192), answer);
        assert!(rt; look(bank, 0, Space::Flash, 8190, &mut held).is_ok());
        assert_eq!(rt; held, left);
    }

    #[test]
    fn erase_torn_at_the_last_byte(rt: HostRuntime) {
        erased(&rt, &mut atmblb(), 8191, Err(NoAnswer), [0xFF, 0x00]);
        erased(&rt, &mut atmblb(), 8192, Ok(()), [0xFF, 0xFF]);
    }

    // Eight channels, the eighth one of mode 2, with EEPROM, the sixth one of mode 0, without it; and no way to a ninth.
    fn eight<B: Bank>(rt: &impl Abort, bank: &mut B) {
        assert_eq!(rt; bank.count(), 8);
        assert!(rt; attempt(bank, 7, Space::Eeprom, 0, &[0x01], 1).is_ok());
        assert!(rt; attempt(bank, 5, Space::Eeprom, 0, &[0x01], 1).is_err());
        assert!(rt; bank.supply(8, 1).is_err());
        assert_eq!(rt; bank.alive(8), None);
    }

    // Two pairs as one bank: of nine targets, eight are in reach.
    fn of_two<A: Bank + Drop, B: Bank + Drop>(rt: &impl Abort, first: A, second: B) {
        eight(rt, &mut Pair { first, second });
    }

    #[test]
    fn nine_targets_in_a_pair_of_pairs(rt: HostRuntime) {
        let five = Pair {
            first: four(),
            second: sic2(),
        };
        of_two(&rt, five, four());
    }
}
