//! Which nodes reach which, as it is kept.
ghost use Rattle.std.specs.Prelude.{◌≡◌, ◌*◌, length};
ghost use Rattle.jr_flow.specs.Rows.{width_of};

use crate::rows::{has, width_of, word_at};

/// Which nodes of a graph reach which.
#[derive(Drop)]
pub struct Reach {
    pub(crate) size: u32,
    /// For each number that has a bit, a row of bits: the nodes that it reaches.
    pub(crate) words: Vec<u64>,
    ghost whole: { length words.items ≡ 64 * width_of size * width_of size },
}

impl Reach {
    ghost use Rattle.std.specs.Prelude.{IsTrue, ◌↔◌, ◌<◌, ◌/◌, ◌%◌, ℕ};
    ghost use Rattle.std.specs.Int.{bit_at};
    ghost use Rattle.jr_flow.specs.Pairs.{Comes};

    /// Whether there is such a path from one node to another. There is none from or to a number
    /// that is no node.
    pub fn comes(&self, from: u32, to: u32) -> bool
        ensures { IsTrue result ↔ Comes self.now from to }
    {
        if from >= self.size {
            return false;
        }
        if to >= self.size {
            return false;
        }
        has(&self.words, width_of(self.size), from as usize, to as usize)
    }

    /// To which of the 64 nodes from `64 * word` on there is such a path, by a bit each. Of a number
    /// that is no node the bit says nothing.
    pub fn word(&self, from: u32, word: u32) -> u64
        ensures { (to : ℕ) → to / 64 ≡ word → (Comes self.now from to ↔ ((from < self.now.size)
            × (to < self.now.size) × (bit_at result (to % 64) ≡ 1))) }
    {
        if from >= self.size {
            return 0;
        }
        let width = width_of(self.size);
        if word as usize >= width {
            return 0;
        }
        word_at(&self.words, width, from as usize, word as usize)
    }
}
