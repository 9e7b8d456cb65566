// Flash memory: landing rules, landing a block, blanking a block.
#![tactic(auto)]

ghost use Rattle.std.specs.Prelude.{◌≡◌, take};
ghost use Rattle.flash.specs.Blocks.{Exact, Retried, blank, blanked, landed};
ghost use Rattle.flash.specs.Rules.{replacing};

mod landing;

pub use landing::{Clearing, Landing, Replacing};

// The front of the values, as many as there is room for.
fn with_room(values: &[u8], room: usize) -> &[u8]
    ensures { result.now ≡ take room values.now }
{
    &values[..values.len().min(room)]
}

// Lands a block in a memory by the rule `L`, from the address `start` upward. Values past the end of the memory land nowhere.
// Landed after tries of the same block that were torn, it leaves what it would have left at once. By index, since after an adapter of
// `iter_mut` nothing is known of what it lent; over the values that have room, since a zip of places and values can end at either, and the
// compiler then makes no copy of it.
pub fn land_block<L: Landing>(memory: &mut [u8], start: usize, values: &[u8])
    ensures lands { memory.new ≡ landed L.Landing.rule start values.now memory.old }
    ensures retry { Retried L.Landing.rule start values.now memory.old memory.new }
    ensures exact { Exact start values.now memory.old memory.new }
{
    let landing = with_room(values, memory.len().saturating_sub(start));
    for (i, value) in landing.iter().enumerate() {
        memory[start + i] = L::land(memory[start + i], *value);
    }
}

// Sets `count` bytes of a memory to FF, from the address `start` upward. Past the end of the memory there is nothing to set.
// Blanked after tries of the same block that were torn, it leaves what it would have left at once. For `fill` the range would have to be cut
// at both ends; and one function for landing and blanking would take any iterator, and a contract about what iterators yield.
pub fn blank_block(memory: &mut [u8], start: usize, count: usize)
    ensures blanks { memory.new ≡ blanked start count memory.old }
    ensures retry { Retried replacing start (blank count) memory.old memory.new }
{
    for i in (start..memory.len()).take(count) {
        memory[i] = 0xFF;
    }
}
