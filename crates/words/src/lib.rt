// Words of a byte slice, bits of a mask, numbers of two words, sums and products held at the limit, words zeroed and compared.
#![tactic(auto)]

ghost use Rattle.std.specs.Prelude.{◌≡◌, ◌+◌, ◌<◌, ◌≤◌, length};
ghost use Rattle.semantics.specs.Lists.{same};
ghost use Rattle.semantics.specs.Files.{word_at, has_bit, ones_below, arity};
ghost use Rattle.semantics.specs.Outcome.{zeros};
ghost use Rattle.words.specs.Arrays.{zeros_then};

mod halves;
mod pairs;
mod totals;

pub use pairs::{Pair, from_words, lower_word, upper_word};
pub use totals::{exact_mul, held_add, held_mul, held_mul_pair};

// A byte as an index.
pub fn index(x: u8) -> usize
    ensures { (result ≡ x) × (result < 256) }
{
    usize::from(x)
}

// A word as an index (by `as`: Rust has no `From<u32>` for `usize`).
pub fn word_index(word: u32) -> usize
    ensures { (result ≡ word) × (result < 4294967296) }
{
    word as usize
}

// The 4-byte number at an offset, little-endian.
pub fn word(s: &[u8], at: usize) -> u32
    requires { at + 4 ≤ length s.now }
    ensures { result ≡ word_at s.now at }
{
    u32::from_le_bytes([s[at], s[at + 1], s[at + 2], s[at + 3]])
}

// Whether a table with this mask has the attribute.
pub fn has_bit(mask: u32, bit: u32) -> bool
    requires { bit < 32 }
    ensures { result ≡ has_bit mask bit }
{
    (mask >> bit) % 2 == 1
}

// The ones of the mask below a bit: the place of that attribute's column.
pub fn ones_below(mask: u32, bit: u32) -> u32
    requires { bit < 32 }
    ensures { result ≡ ones_below mask bit }
{
    (mask % (1 << bit)).count_ones()
}

// The ones of the mask: the number of attributes.
pub fn ones(mask: u32) -> u32
    ensures { result ≡ arity mask }
{
    mask.count_ones()
}

// Zeroes the first n words.
pub fn clear_first(words: &mut [u32], n: usize)
    requires { n ≤ length words.old }
    ensures { words.new ≡ zeros_then n words.old }
{
    words[..n].fill(0);
}

// Zeroes all words.
pub fn clear(words: &mut [u32])
    ensures { words.new ≡ zeros words.old }
{
    words.fill(0);
}

// Whether both have the same words, in the same places.
pub fn same_words(a: &[u32], b: &[u32]) -> bool
    ensures { result ≡ same a.now b.now }
{
    a == b
}
