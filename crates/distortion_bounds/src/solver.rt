// The solution of an order of a network.
ghost use Rattle.std.specs.Prelude.{◌≡◌, ◌<◌, ◌≤◌, ◌^◌, Ok, All, IfOk, IfSome, length, map};
ghost use Rattle.exact_algebra.specs.Complex.{Complex};
ghost use Rattle.network_theory.specs.Live.{Live};
ghost use Rattle.net_branch.specs.Exact.{exact_network};
ghost use Rattle.net_branch.specs.LiveNodes.{AreLive};
ghost use Rattle.net_branch.specs.Whole.{IsWholeNetwork};
ghost use Rattle.node_injection.specs.Injected.{exact_injection, injected};
ghost use Rattle.admittance_box.specs.BoxMatrix.{box_matrix};
ghost use Rattle.admittance_box.specs.Pattern.{IsPattern};
ghost use Rattle.plain_elimination.specs.Rectangles.{solve_rectangles};
ghost use Rattle.distortion_bounds.specs.Solved.{IsSolvedFor, HoldsVoltageSquare, HoldsCurrentSquare};
ghost use Rattle.distortion_bounds.specs.Solver.{HasLiveNode, last_live, micro_orders, new_solver, or_answer, solved_rows, order_solution, answer_of, solution_of, voltage_squares, current_squares};
ghost use Rattle.distortion_bounds.specs.Squares.{AreSquares};
ghost use Rattle.distortion_bounds.specs.declared.solved.Solved.TheVariants.{Done};

use crate::column::set_right_sides;
use crate::solved::Solved;
use crate::squares::{Squares, squares_of};
use admittance_box::{Assembly, Fill, find_place};
use complex_interval::Enclosure;
use net_branch::{Network, NodeId, live};
use node_injection::NodeInjection;
use plain_elimination::{Column, Matrix};
use sparse_rows::SparseBench;
use std::alloc::{AllocError, Global};
use std::marker::Model;

const MILLION: u32 = 1_000_000;

/// A solver of the orders of a network, which contracts see as the network, the ordering of its live nodes, and what the last solve
/// found: after `Done` its order and the voltages of the live nodes as rectangles. All its memory is taken when it is made.
#[derive(Drop)]
pub struct OrderSolver<E: Enclosure> {
    assembly: Assembly<E>,
    matrix: Matrix<E>,
    bench: SparseBench<E>,
    column: Column<E>,
    order: Option<u32>,
}

impl<E: Enclosure> Model for OrderSolver<E> {
    ghost use Rattle.std.specs.Option.{option_map};
    ghost use Rattle.distortion_bounds.specs.Solver.{Solver, IsReady};

    ghost Value = { Solver };

    ghost view = { λ s. record {
      network = s.assembly.low;
      ordering = s.assembly.ordering;
      found = option_map (λ order. record { order = order; volts = s.column }) s.order;
    } };

    ghost invariant = { λ s. IsReady s.assembly s.matrix s.bench s.column s.order };
}

// The greatest number of a live node, by one value for each node.
fn greatest_live(network: &Network, marks: &[bool]) -> u32
    requires whole { IsWholeNetwork network.now }
    requires marks { AreLive network.now marks.now }
    requires some { HasLiveNode (exact_network network.now) }
    ensures value { result ≡ last_live (exact_network network.now) }
    ensures live { Live (exact_network network.now) result }
{
    let mut greatest = 0;
    for node in 0..network.nodes {
        if marks[node as usize] {
            greatest = node;
        }
    }
    greatest
}

// The solution of the matrix of an order, with these right sides, in their place; or the answer in place of it.
fn solve_filled<E: Enclosure>(
    assembly: &mut Assembly<E>,
    matrix: &mut Matrix<E>,
    bench: &mut SparseBench<E>,
    column: &mut Column<E>,
    order: u32,
) -> Result<(), Solved>
    requires few { order ≤ 50 }
    requires size { matrix.old.size ≡ length assembly.old.ordering }
    requires pattern { IsPattern assembly.old.ordering assembly.old.low.branches bench.old.size bench.old.places }
    requires sides { length column.old ≡ length assembly.old.ordering }
    ensures stated { or_answer result (λ _. Ok column.new)
        ≡ solved_rows E.SCALE column.old (box_matrix E.SCALE assembly.old.low assembly.old.high assembly.old.ordering (micro_orders order) (micro_orders order)) }
    ensures assembly { assembly.new ≡ assembly.old }
    ensures matrix { matrix.new.size ≡ matrix.old.size }
    ensures bench { bench.new ≡ bench.old }
    ensures sides { length column.new ≡ length column.old }
{
    let at = order * MILLION;
    match assembly.fill(at, at, matrix) {
        Fill::OutOfRange(branch) => Err(Solved::OutOfRange(branch)),
        Fill::Filled => match bench.solve(matrix, column) {
            Ok(()) => Ok(()),
            Err(failure) => Err(Solved::Failed(failure)),
        },
    }
}

// The solution of an order for these injections, in the column; or the answer in place of it.
fn solve_order<E: Enclosure>(
    assembly: &mut Assembly<E>,
    matrix: &mut Matrix<E>,
    bench: &mut SparseBench<E>,
    column: &mut Column<E>,
    order: u32,
    injections: &[NodeInjection],
) -> Result<(), Solved>
    requires few { order ≤ 50 }
    requires count { length injections.now < 2 ^ 32 }
    requires alone { assembly.old.high ≡ assembly.old.low }
    requires size { matrix.old.size ≡ length assembly.old.ordering }
    requires pattern { IsPattern assembly.old.ordering assembly.old.low.branches bench.old.size bench.old.places }
    requires sides { length column.old ≡ length assembly.old.ordering }
    ensures stated { or_answer result (λ _. Ok column.new) ≡ order_solution E.SCALE assembly.old.low assembly.old.ordering order (map exact_injection injections.now) }
    ensures assembly { assembly.new ≡ assembly.old }
    ensures matrix { matrix.new.size ≡ matrix.old.size }
    ensures bench { bench.new ≡ bench.old }
    ensures sides { length column.new ≡ length column.old }
{
    match set_right_sides(assembly.ordering(), injections, column) {
        Ok(()) => solve_filled(assembly, matrix, bench, column, order),
        Err(answer) => Err(answer),
    }
}

impl<E: Enclosure> OrderSolver<E> {
    /// A solver of a network of which some node is live, with the live node of the greatest number driven.
    pub fn new(alloc: Global, network: &Network) -> Result<OrderSolver<E>, AllocError>
        requires whole { IsWholeNetwork network.now }
        requires some { HasLiveNode (exact_network network.now) }
        ensures { IfOk result (λ s. s ≡ new_solver (exact_network network.now)) }
    {
        let marks = live(alloc, network)?;
        let driven = NodeId {
            number: greatest_live(network, marks.as_slice()),
        };
        let assembly = Assembly::new(alloc, network, driven)?;
        let matrix = Matrix::new(alloc, assembly.size())?;
        let bench = SparseBench::new(alloc, &assembly.pattern(alloc)?)?;
        let column = Column::new(alloc, assembly.size())?;
        Ok(OrderSolver {
            assembly,
            matrix,
            bench,
            column,
            order: None,
        })
    }

    /// Solves an order, of 2 to 50, for currents that are injected into live nodes: the nodal equations over the box of this one order,
    /// with at each node the sum of its injections, in the order of the list. After `Done` the exact state of the order for the exact
    /// injections exists and is the only one, and its voltages are held. Else, in this order: `InjectionOutOfRange`, `OutOfRange`,
    /// `Failed`; there is then no solution. It takes no memory.
    pub fn solve(&mut self, order: u32, injections: &[NodeInjection]) -> Solved
        requires from { 2 ≤ order }
        requires to { order ≤ 50 }
        requires count { length injections.now < 2 ^ 32 }
        requires live { All (λ at. Live self.old.network at.node.number) injections.now }
        ensures answer { result ≡ answer_of (order_solution E.SCALE self.old.network self.old.ordering order (map exact_injection injections.now)) }
        ensures solution { self.new ≡ record self.old { found = solution_of order (order_solution E.SCALE self.old.network self.old.ordering order (map exact_injection injections.now)) } }
        ensures truth { result ≡ Done → IsSolvedFor E.SCALE self.new order (injected (map exact_injection injections.now)) }
    {
        self.order = None;
        let solved = solve_order(
            &mut self.assembly,
            &mut self.matrix,
            &mut self.bench,
            &mut self.column,
            order,
            injections,
        );
        match solved {
            Ok(()) => {
                self.order = Some(order);
                Solved::Done
            }
            Err(answer) => answer,
        }
    }

    /// The squares of the voltage of a node at the order of the last solve. None exactly where there was none, it wasn't `Done`, or the
    /// node isn't live. It takes no memory.
    pub fn voltage(&self, node: NodeId) -> Option<Squares>
        ensures value { result ≡ voltage_squares self.now.ordering self.now.found node.number }
        ensures fit { IfSome result AreSquares }
        ensures holds { HoldsVoltageSquare E.SCALE self.now node.number result }
    {
        self.order?;
        let place = find_place(self.assembly.ordering(), node.number)?;
        Some(squares_of(self.column.get(place)))
    }

    /// The squares of the current from a node into the element of this owner's number, at the order of the last solve. None exactly where
    /// there was none, it wasn't `Done`, the node isn't live, or a step has no value. It takes no memory.
    pub fn current(&mut self, owner: u32, node: NodeId) -> Option<Squares>
        ensures value { result ≡ current_squares E.SCALE self.old.network self.old.ordering self.old.found owner node.number }
        ensures fit { IfSome result AreSquares }
        ensures holds { HoldsCurrentSquare E.SCALE self.old owner node.number result }
        ensures same { self.new ≡ self.old }
    {
        let order = self.order?;
        find_place(self.assembly.ordering(), node.number)?;
        let at = order * MILLION;
        let current = self.assembly.current(at, at, owner, node, &self.column)?;
        Some(squares_of(current))
    }
}
