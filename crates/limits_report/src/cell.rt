// What is computed of the orders of a spectrum.
use distortion_bounds::Squares;
use sqlite_items::Items;

/// What is computed of one order at a node.
#[derive(Clone, Copy)]
pub enum Cell {
    /// The node isn't live in the network of the order.
    Dead,
    /// It is: its squares, where they could be computed.
    Live(Option<Squares>),
}

/// What is computed of one order: a cell for each site of a study, by its number from 0.
#[derive(Drop)]
pub struct OrderCells {
    pub order: u32,
    pub cells: Items<Cell>,
}
