// How the solution of an order ends.
use plain_elimination::Failure;

/// The answer of a solver.
#[derive(Clone, Copy)]
pub enum Solved {
    /// The voltages of the order are known.
    Done,
    /// The first branch, counted from 0, at which the matrix of the order has no value.
    OutOfRange(u32),
    /// The first place in the list of injections, counted from 1, at which an interval, or the sum at its node, has no value.
    InjectionOutOfRange(u32),
    /// Why solving ended without a value.
    Failed(Failure),
}
