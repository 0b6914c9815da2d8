// What all orders of a spectrum are together at one site.
ghost use Rattle.std.specs.Prelude.{◌≡◌, ◌++◌, [], IfOk, IfSome, OnOk};
ghost use Rattle.std.specs.List.{AllByRecursion};
ghost use Rattle.limits_report.specs.Cells.{cell_at, live_squares, all_orders, column_of};
ghost use Rattle.distortion_bounds.specs.Squares.{AreSquares};
ghost use Rattle.limits_report.specs.Fit.{IsFitCell, AreFitCells};
ghost use Rattle.limits_report.specs.Gathering.{Gathers};

use crate::cell::{Cell, OrderCells};
use distortion_bounds::{Squares, total};
use sqlite_items::Items;
use std::alloc::{AllocError, Global};

/// The cell of a number, from 0.
#[tactic(auto, using(crate::proofs::Fits::fit_at))]
pub(crate) fn cell_at(cells: &[Cell], number: u32) -> Cell
    requires { AllByRecursion IsFitCell cells.now }
    ensures value { result ≡ cell_at cells.now number }
    ensures fit { IsFitCell result }
{
    match cells.get(number as usize) {
        Some(cell) => *cell,
        None => Cell::Dead,
    }
}

/// Puts the cells of a number, over the orders, at the end.
pub(crate) fn push_column(
    table: &[OrderCells],
    number: u32,
    column: &mut Items<Cell>,
) -> Result<(), AllocError>
    requires { AllByRecursion AreFitCells table.now }
    ensures { OnOk result (column.new ≡ column.old ++ column_of number table.now) }
{
    match table {
        [] => Ok(()),
        [cells, rest @ ..] => {
            column.push(cell_at(cells.cells.as_slice(), number))?;
            push_column(rest, number, column)
        }
    }
}

/// Puts the squares of the cells that are live at the end; false where one has none.
#[tactic(auto, using(crate::proofs::Fits::gathers_more))]
fn push_squares(cells: &[Cell], list: &mut Items<Squares>) -> Result<bool, AllocError>
    ensures { IfOk result (Gathers (live_squares cells.now) list.old list.new) }
{
    match cells {
        [] => Ok(true),
        [Cell::Dead, rest @ ..] => push_squares(rest, list),
        [Cell::Live(None), _rest @ ..] => Ok(false),
        [Cell::Live(Some(squares)), rest @ ..] => {
            list.push(*squares)?;
            push_squares(rest, list)
        }
    }
}

/// What the orders are together: the sums of their squares, of none 0; absent where one is absent or a sum is out of range.
#[tactic(auto, unfolding(crate::specs::Cells::all_orders), using(crate::proofs::Fits::gathered, crate::proofs::Fits::not_gathered))]
pub(crate) fn all_orders(alloc: Global, cells: &[Cell]) -> Result<Option<Squares>, AllocError>
    requires { AllByRecursion IsFitCell cells.now }
    ensures value { IfOk result (λ squares. squares ≡ all_orders cells.now) }
    ensures fit { IfOk result (λ squares. IfSome squares AreSquares) }
{
    let mut list = Items::new(alloc);
    let whole = push_squares(cells, &mut list)?;
    if whole {
        Ok(total(list.as_slice()))
    } else {
        Ok(None)
    }
}
