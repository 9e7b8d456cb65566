ghost use Rattle.std.specs.Prelude.{◌≡◌};
ghost use Rattle.bank.specs.Modes.{mode_decoded, mode_number};

// The sort of controller, by the protocol it is programmed with. Its number stands for it on the wire.
#[derive(Clone, Copy, Debug, PartialEq, Eq)]
pub enum Mode {
    SiC2 = 0,
    SiLBLB = 1,
    AtmBLB = 2,
    AtmSK = 3,
}

// A number that no mode has. Not shown to anyone, so it has no text. Each crate has an error of its own for the numbers that it reads.
#[derive(Clone, Copy, Debug, PartialEq, Eq)]
pub struct UnknownMode(pub u8);

// The number that stands for it on the wire: `as` tells an enum's own.
impl From<Mode> for u8 {
    ghost from_gives = { λ mode number. number ≡ mode_number mode };

    fn from(mode: Mode) -> u8 {
        mode as u8
    }
}

// The mode of a number, if one has it.
impl TryFrom<u8> for Mode {
    type Error = UnknownMode;

    ghost try_from_gives = { λ number mode. mode ≡ mode_decoded number };

    fn try_from(number: u8) -> Result<Mode, UnknownMode> {
        match number {
            0 => Ok(Mode::SiC2),
            1 => Ok(Mode::SiLBLB),
            2 => Ok(Mode::AtmBLB),
            3 => Ok(Mode::AtmSK),
            _ => Err(UnknownMode(number)),
        }
    }
}
