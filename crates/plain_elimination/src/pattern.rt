// Places of a square matrix.

/// A place of a matrix, counted from 0.
#[derive(Clone, Copy)]
pub struct Spot {
    pub row: u32,
    pub column: u32,
}

/// The places of a matrix of this size that may hold anything but exact zero.
#[derive(Drop)]
pub struct Pattern {
    pub size: u32,
    pub places: Vec<Spot>,
}
