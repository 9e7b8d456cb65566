// Landing rules: what a flash byte holds after a value was programmed over what it held.
ghost use Rattle.std.specs.Prelude.{◌≡◌, ℕ};
ghost use Rattle.flash.specs.Rules.{Idempotent, OnBlank, OnBytes, clearing, replacing};
ghost use Rattle.flash.specs.RulesLemmas.{clearing_on_bytes, clearing_onblank, clearing_idempotent};
ghost use Rattle.std.proofs.Common.{rules};

// A rule with its two laws: a value landing on FF gives the value, and the same value landing twice gives what it gave the
// first time. The law `onbytes` only says of the rule what `land` says by its types: bytes land as bytes.
pub trait Landing {
    ghost rule: { ℕ → ℕ → ℕ };

    fn land(old: u8, value: u8) -> u8
        ensures { result ≡ rule old value };

    ghost onbytes: { OnBytes rule };

    ghost onblank: { OnBlank rule };

    ghost idempotent: { Idempotent rule };
}

// Programming turns ones into zeros, and never zeros into ones.
#[derive(Clone, Copy, Debug)]
pub struct Clearing;

impl Landing for Clearing {
    ghost rule = { clearing };

    ghost onbytes = { clearing_on_bytes };

    ghost onblank = { clearing_onblank };

    ghost idempotent = { clearing_idempotent };

    fn land(old: u8, value: u8) -> u8 {
        old & value
    }
}

// Programming sets the value.
#[derive(Clone, Copy, Debug)]
pub struct Replacing;

impl Landing for Replacing {
    ghost rule = { replacing };

    ghost onbytes = { Prim.search rules };

    ghost onblank = { Prim.search rules };

    ghost idempotent = { Prim.search rules };

    fn land(_old: u8, value: u8) -> u8 {
        value
    }
}
