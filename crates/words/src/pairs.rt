// A number of 64 bits as two words.
ghost use Rattle.std.specs.Prelude.{◌≡◌, ◌/◌, ◌%◌};
ghost use Rattle.words.specs.WordPairs.{two_words, number_of};

// The two words of a number.
#[derive(Clone, Copy, Debug, PartialEq, Eq)]
pub struct Pair {
    pub lower: u32,
    pub upper: u32,
}

// The lower word of a number,
pub fn lower_word(x: u64) -> u32
    ensures { result ≡ x % 4294967296 }
{
    (x % 4294967296) as u32
}

// its upper one,
pub fn upper_word(x: u64) -> u32
    ensures { result ≡ x / 4294967296 }
{
    (x >> 32) as u32
}

// and the number that has these two.
pub fn from_words(lower: u32, upper: u32) -> u64
    ensures { result ≡ two_words lower upper }
{
    (u64::from(upper) << 32) + u64::from(lower)
}

// A number as its two words,
impl From<u64> for Pair {
    ghost from_gives = { λ x p. number_of p ≡ x };

    fn from(x: u64) -> Pair {
        Pair {
            lower: lower_word(x),
            upper: upper_word(x),
        }
    }
}

// and two words as their number.
impl From<Pair> for u64 {
    ghost from_gives = { λ p x. x ≡ number_of p };

    fn from(p: Pair) -> u64 {
        from_words(p.lower, p.upper)
    }
}
