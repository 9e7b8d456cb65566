ghost use Rattle.std.specs.Prelude.{◌≡◌, ◌+◌, ◌≤◌, true};
ghost use Rattle.bank.specs.Effects.{inside};

// The two memories of a target.
#[derive(Clone, Copy, Debug, PartialEq, Eq)]
pub enum Space {
    Flash,
    Eeprom,
}

// Whether a range is inside a memory of `size` bytes. An empty one is not.
pub fn is_inside(size: usize, start: usize, count: usize) -> bool
    ensures answer { result ≡ inside size start count }
    ensures within { result ≡ true → start + count ≤ size }
{
    count > 0 && start <= size && count <= size - start
}
