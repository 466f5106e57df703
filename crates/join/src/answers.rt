// The answer of a join that is not refused.

// OUT, and the four counts.
#[derive(Clone, Copy, Debug, PartialEq, Eq)]
pub struct Joined {
    pub rows: usize,
    pub entries: u64,
    pub lookups: u64,
    pub comparisons: u64,
    pub visits: u64,
}
