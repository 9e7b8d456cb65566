// A memory: its bytes, and what landing and blanking leaves in it.
ghost use Rattle.std.specs.Prelude.{◌≡◌, ◌≤◌, length, take};
ghost use Rattle.byte_rows.specs.Bytes.{Bytes};
ghost use Rattle.flash.specs.Blocks.{blank, blanked, landed};

use flash::{Landing, blank_block, land_block};

// A memory of `size` bytes: the front of an array that has room for the most that one can have, since a device has no heap.
// No Debug and no `==`: nobody prints or compares so many bytes.
#[derive(Drop)]
pub(crate) struct Memory<const MOST: usize> {
    pub(crate) size: usize,
    pub(crate) cells: [u8; MOST],
    ghost room: { size ≤ length cells },
    ghost bytes: { Bytes (take size cells) },
}

impl<const MOST: usize> Memory<MOST> {
    ghost use Rattle.targets.specs.Memories.{bytes_in};

    // A blank memory.
    pub(crate) fn blank(size: usize) -> Memory<MOST>
        requires { size ≤ MOST }
        ensures size { result.size ≡ size }
        ensures bytes { bytes_in result ≡ blank size }
    {
        Memory {
            size,
            cells: [0xFF; MOST],
        }
    }

    // Its bytes.
    pub(crate) fn bytes(&self) -> &[u8]
        ensures { result.now ≡ bytes_in self.now }
    {
        &self.cells[..self.size]
    }

    // Lands a block by the rule `L`.
    pub(crate) fn land<L: Landing>(&mut self, start: usize, values: &[u8])
        ensures size { self.new.size ≡ self.old.size }
        ensures bytes { bytes_in self.new ≡ landed L.Landing.rule start values.now (bytes_in self.old) }
    {
        land_block::<L>(&mut self.cells[..self.size], start, values);
    }

    // Sets bytes to FF. As a block to land it would need a slice of FF as long as any count.
    pub(crate) fn blank_out(&mut self, start: usize, count: usize)
        ensures size { self.new.size ≡ self.old.size }
        ensures bytes { bytes_in self.new ≡ blanked start count (bytes_in self.old) }
    {
        blank_block(&mut self.cells[..self.size], start, count);
    }
}
