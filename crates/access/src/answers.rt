// What result number n is given by.

// The row number of each table with the copy of that row, by table number: 0 past the last table.
#[derive(Clone, Copy, Debug, PartialEq, Eq)]
pub struct ResultRows {
    pub rows: [u32; 16],
    pub copies: [u32; 16],
}
