//! Columns of rows, as the sums and the transform read them.

/// Rows of one width, end to end, and the column of theirs to begin with.
#[derive(Clone, Copy)]
pub struct Columns<'a> {
    /// The rows.
    pub rows: &'a [u8],
    /// How many bytes each has.
    pub width: usize,
    /// The first column.
    pub first: usize,
}
