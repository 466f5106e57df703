// What both engines say of a file, side by side.
ghost use Rattle.std.specs.Prelude.{◌≡◌};
ghost use Rattle.accept.specs.Comparing.{same_numbers, comparison_of, Compares};

use capi::pigrozd_answer;
use capi_slow::pigrozd_slow_answer;

// Same: both answers and both outputs are equal. Skipped: they need not be, since the join says 10 or the slow engine 15. Differ: they
// need to be and are not, which never happens.
#[derive(Clone, Copy, Debug, PartialEq, Eq)]
pub enum Comparison {
    Same,
    Skipped,
    Differ,
}

// Both answers, and what comes of their comparison.
#[derive(Clone, Copy)]
pub struct Compared {
    pub joined: pigrozd_answer,
    pub slow: pigrozd_slow_answer,
    pub comparison: Comparison,
}

// Whether number, detail and rows are equal.
fn same_numbers(joined: pigrozd_answer, slow: pigrozd_slow_answer) -> bool
    ensures { result ≡ same_numbers joined slow }
{
    (joined.number, joined.detail, joined.rows) == (slow.number, slow.detail, slow.rows)
}

// The comparison of two answers and the outputs that they left. The answers are C's, so 10 and 15 are told by their numbers.
fn comparison_of(
    joined: pigrozd_answer,
    slow: pigrozd_slow_answer,
    one: &[u32],
    other: &[u32],
) -> Comparison
    ensures { result ≡ comparison_of joined slow one.now other.now }
{
    match (joined.number, slow.number) {
        (10, _) | (_, 15) => Comparison::Skipped,
        _ if same_numbers(joined, slow) && one == other => Comparison::Same,
        _ => Comparison::Differ,
    }
}

// Joins a file with both engines, with outputs that hold the same before, and compares what they give. They never differ.
pub(crate) fn compare(
    file: &[u8],
    scratch: &mut [u32],
    one: &mut [u32],
    other: &mut [u32],
) -> Compared
    requires { one.old ≡ other.old }
    ensures { Compares file.now scratch.old one.old scratch.new one.new
        other.new result }
{
    let joined = capi::pigrozd_join(file, scratch, &mut *one);
    let slow = capi_slow::pigrozd_slow_join(file, &mut *other);
    let comparison = comparison_of(joined, slow, one, other);
    Compared {
        joined,
        slow,
        comparison,
    }
}
