//! Rows of bits: each row has `width` words, and they stand one behind the other.
ghost use Rattle.std.specs.Prelude.{◌≡◌, ◌↔◌, ◌+◌, ◌*◌, ◌/◌, ◌^◌, ◌<◌, ◌≤◌};
ghost use Rattle.std.specs.Prelude.{IsTrue, length, slice_index};
ghost use Rattle.jr_flow.specs.Rows.{width_of, Has, added, Puts, Merges, Moves};

/// How many words have a bit for each number below the size.
pub(crate) fn width_of(size: u32) -> usize
    ensures width { result ≡ width_of size }
    ensures few { result ≤ 2 ^ 26 }
{
    (size as usize + 63) / 64
}

/// Whether the row has the bit for the column.
pub(crate) fn has(words: &[u64], width: usize, row: usize, column: usize) -> bool
    requires { row * width + column / 64 < length words.now }
    ensures { IsTrue result ↔ Has words.now width row column }
{
    (words[row * width + column / 64] >> (column % 64)) & 1 == 1
}

/// The word of a row.
pub(crate) fn word_at(words: &[u64], width: usize, row: usize, word: usize) -> u64
    requires { row * width + word < length words.now }
    ensures { result ≡ slice_index words.now (row * width + word) }
{
    words[row * width + word]
}

/// Sets the bit for the column in the row.
pub(crate) fn put(words: &mut [u64], width: usize, row: usize, column: usize)
    requires row { row * width + column / 64 < length words.old }
    requires column { column / 64 < width }
    ensures { Puts width row column words.old words.new }
{
    words[row * width + column / 64] |= 1u64 << (column % 64);
}

/// Adds the bits of one word to another, and answers whether some were new.
fn merge_word(words: &mut [u64], from: usize, to: usize) -> bool
    requires from { from < length words.old }
    requires to { to < length words.old }
    ensures word { words.new ≡ added words.old to (slice_index words.old from) }
    ensures moves { Moves words.old words.new result }
{
    let before = words[to];
    let after = before | words[from];
    words[to] = after;
    after != before
}

/// Adds the bits of one row to another, and answers whether some were new.
pub(crate) fn merge(words: &mut [u64], width: usize, from: usize, to: usize) -> bool
    requires from { from * width + width ≤ length words.old }
    requires to { to * width + width ≤ length words.old }
    ensures merges { Merges width from to width words.old words.new }
    ensures moves { Moves words.old words.new result }
{
    let mut changed = false;
    for k in 0..width {
        let told = merge_word(words, from * width + k, to * width + k);
        changed = changed | told;
    }
    changed
}
