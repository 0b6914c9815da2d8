// What is computed of each order of a spectrum: the solution of the order, and the squares at each site.
ghost use Rattle.std.specs.Prelude.{◌≡◌, ◌+◌, ◌≤◌, ◌<◌, ◌^◌, [], ◌∷◌, ◌++◌, length, map, true, false, not, IfOk, IfSome, OnOk, get_or};
ghost use Rattle.std.specs.List.{AllByRecursion, filter, list_any, range_with_len};
ghost use Rattle.net_branch.specs.Exact.{exact_network};
ghost use Rattle.net_branch.specs.Whole.{IsWholeNetwork};
ghost use Rattle.node_injection.specs.Injected.{exact_injection};
ghost use Rattle.study_model.specs.Lawful.{IsLawful};
ghost use Rattle.study_networks.specs.Networks.{AreNetworksOf};
ghost use Rattle.spectrum_reader.specs.Lawful.{IsLawfulSpectrum};
ghost use Rattle.distortion_bounds.specs.Squares.{AreSquares};
ghost use Rattle.limits_report.specs.Fit.{IsFitCell, AreFitCells};
ghost use Rattle.limits_report.specs.Marks.{AreMarks};
ghost use Rattle.limits_report.specs.Sites.{sites_of};
ghost use Rattle.limits_report.specs.Table.{occurs, network_at, is_unfed, solver_of, squares_at, cell_of, site_cell, cells_with, cells_of, orders_of, table_of};
ghost use Rattle.limits_report.specs.Truth.{IsTrueSite, IsTrueSolver, IsTrueOrder};

use crate::cell::{Cell, OrderCells};
use crate::site::{Site, Subject, sites_of};
use complex_interval::Enclosure;
use distortion_bounds::{OrderSolver, Squares};
use harmonic_injection::{inject, sequence_of_order};
use net_branch::{Network, NodeId, live};
use node_injection::NodeInjection;
use spectrum_reader::{MAX_ORDER, MIN_ORDER, Spectrum};
use sqlite_items::Items;
use std::alloc::{AllocError, Global};
use study_model::{Sequence, Study};
use study_networks::StudyNetworks;

/// Whether some row of the spectrum is of the order.
fn occurs(spectrum: &Spectrum, order: u32) -> bool
    ensures { result ≡ occurs spectrum.now.rows order }
{
    spectrum
        .rows
        .as_slice()
        .iter()
        .any(|row| row.order == order)
}

/// The network that an order sees.
fn network_at<'a>(study: &Study, networks: &'a StudyNetworks, order: u32) -> &'a Network
    requires networks { AreNetworksOf study.now networks.now }
    ensures exact { exact_network result.now ≡ network_at study.now order }
    ensures whole { IsWholeNetwork result.now }
{
    let _study = study;
    match networks {
        StudyNetworks::Phases(network) => network,
        StudyNetworks::Sequences(networks) => match sequence_of_order(order) {
            Sequence::Positive => &networks.positive,
            Sequence::Zero => &networks.zero,
        },
    }
}

/// Whether a node is live, by one value for each node.
fn is_marked(marks: &[bool], node: u32) -> bool
    ensures { result ≡ get_or marks.now node false }
{
    match marks.get(node as usize) {
        Some(mark) => *mark,
        None => false,
    }
}

/// Whether some injection is at a node that isn't live.
fn is_unfed(marks: &[bool], injections: &[NodeInjection]) -> bool
    ensures { result ≡ list_any (λ at. not (get_or marks.now at.node.number false)) injections.now }
{
    injections
        .iter()
        .any(|at| !is_marked(marks, at.node.number))
}

/// Squares at a node, where it is live.
fn cell_of(live: bool, squares: Option<Squares>) -> Cell
    ensures { result ≡ cell_of live squares }
{
    if live {
        Cell::Live(squares)
    } else {
        Cell::Dead
    }
}

/// The squares of what is said at a site.
fn squares_at<E: Enclosure>(solver: &mut OrderSolver<E>, site: &Site) -> Option<Squares>
    ensures value { result ≡ squares_at E.SCALE solver.old site.now.subject site.now.node }
    ensures fit { IfSome result AreSquares }
    ensures truth { IsTrueSite E.SCALE solver.old site.now }
    ensures same { solver.new ≡ solver.old }
{
    let node = NodeId { number: site.node };
    match site.subject {
        Subject::Voltage(_number, _bus) => solver.voltage(node),
        Subject::Current(point) => solver.current(point.element, node),
    }
}

/// Puts the cells of sites.
fn push_cells<E: Enclosure>(
    solver: &mut OrderSolver<E>,
    marks: &[bool],
    sites: &[Site],
    cells: &mut Items<Cell>,
) -> Result<(), AllocError>
    requires { AreMarks solver.old.network marks.now }
    ensures cells { OnOk result (cells.new ≡ cells.old ++ map (site_cell E.SCALE solver.old) sites.now) }
    ensures fit { OnOk result (AllByRecursion IsFitCell (map (site_cell E.SCALE solver.old) sites.now)) }
    ensures truth { OnOk result (AllByRecursion (IsTrueSite E.SCALE solver.old) sites.now) }
{
    match sites {
        [] => Ok(()),
        [site, rest @ ..] => {
            let squares = squares_at(solver, site);
            cells.push(cell_of(is_marked(marks, site.node), squares))?;
            push_cells(solver, marks, rest, cells)
        }
    }
}

/// Puts the cells of sites where there is no solution.
fn push_without_squares(
    marks: &[bool],
    sites: &[Site],
    cells: &mut Items<Cell>,
) -> Result<(), AllocError>
    ensures { OnOk result (cells.new ≡ cells.old ++ map (λ site. cell_of (get_or marks.now site.node false) None) sites.now) }
{
    match sites {
        [] => Ok(()),
        [site, rest @ ..] => {
            cells.push(cell_of(is_marked(marks, site.node), None))?;
            push_without_squares(marks, rest, cells)
        }
    }
}

/// The cells of an order after these injections were solved, each at a live node.
fn solved_cells<E: Enclosure>(
    alloc: Global,
    network: &Network,
    marks: &[bool],
    injections: &[NodeInjection],
    sites: &[Site],
    order: u32,
) -> Result<OrderCells, AllocError>
    requires whole { IsWholeNetwork network.now }
    requires marks { AreMarks (exact_network network.now) marks.now }
    requires some { 0 < length injections.now }
    requires few { length injections.now < 2 ^ 32 }
    requires fed { is_unfed (exact_network network.now) (map exact_injection injections.now) ≡ false }
    requires low { 2 ≤ order }
    requires high { order ≤ 50 }
    ensures cells { IfOk result (λ cells. cells ≡ cells_with E.SCALE (solver_of E.SCALE (exact_network network.now) order (map exact_injection injections.now)) order sites.now) }
    ensures fit { OnOk result (AreFitCells (cells_with E.SCALE (solver_of E.SCALE (exact_network network.now) order (map exact_injection injections.now)) order sites.now)) }
    ensures truth { OnOk result (IsTrueSolver E.SCALE (solver_of E.SCALE (exact_network network.now) order (map exact_injection injections.now)) order (map exact_injection injections.now) sites.now) }
{
    let mut solver = OrderSolver::<E>::new(alloc, network)?;
    let _answer = solver.solve(order, injections);
    let mut cells = Items::new(alloc);
    push_cells(&mut solver, marks, sites, &mut cells)?;
    Ok(OrderCells { order, cells })
}

/// The cells of an order of which some injection is at a node that isn't live: it has no solution.
fn unfed_cells(
    alloc: Global,
    marks: &[bool],
    sites: &[Site],
    order: u32,
) -> Result<OrderCells, AllocError>
    ensures { IfOk result (λ cells. cells ≡ record { order = order; cells = map (λ site. cell_of (get_or marks.now site.node false) None) sites.now }) }
{
    let mut cells = Items::new(alloc);
    push_without_squares(marks, sites, &mut cells)?;
    Ok(OrderCells { order, cells })
}

/// The cells of an order, for these injections.
fn cells_for<E: Enclosure>(
    alloc: Global,
    network: &Network,
    injections: &[NodeInjection],
    sites: &[Site],
    order: u32,
) -> Result<OrderCells, AllocError>
    requires whole { IsWholeNetwork network.now }
    requires some { 0 < length injections.now }
    requires few { length injections.now < 2 ^ 32 }
    requires low { 2 ≤ order }
    requires high { order ≤ 50 }
    ensures cells { IfOk result (λ cells. cells ≡ cells_with E.SCALE (solver_of E.SCALE (exact_network network.now) order (map exact_injection injections.now)) order sites.now) }
    ensures fit { OnOk result (AreFitCells (cells_with E.SCALE (solver_of E.SCALE (exact_network network.now) order (map exact_injection injections.now)) order sites.now)) }
    ensures truth { OnOk result (IsTrueSolver E.SCALE (solver_of E.SCALE (exact_network network.now) order (map exact_injection injections.now)) order (map exact_injection injections.now) sites.now) }
{
    let marks = live(alloc, network)?;
    if is_unfed(&marks, injections) {
        unfed_cells(alloc, &marks, sites, order)
    } else {
        solved_cells::<E>(alloc, network, &marks, injections, sites, order)
    }
}

/// The cells of an order of a spectrum.
#[tactic(auto, unfolding(crate::specs::Table::cells_of, crate::specs::Table::solver_at))]
fn cells_of<E: Enclosure>(
    alloc: Global,
    study: &Study,
    network: &Network,
    spectrum: &Spectrum,
    sites: &[Site],
    order: u32,
) -> Result<OrderCells, AllocError>
    requires study { IsLawful study.now }
    requires exact { exact_network network.now ≡ network_at study.now order }
    requires whole { IsWholeNetwork network.now }
    requires spectrum { IsLawfulSpectrum study.now spectrum.now.rows }
    requires sites { sites.now ≡ sites_of study.now }
    requires low { 2 ≤ order }
    requires high { order ≤ 50 }
    requires occurs { occurs spectrum.now.rows order ≡ true }
    requires scale { E.SCALE ≡ study.now.scale }
    ensures cells { IfOk result (λ cells. cells ≡ cells_of study.now spectrum.now.rows order) }
    ensures fit { OnOk result (AreFitCells (cells_of study.now spectrum.now.rows order)) }
    ensures truth { OnOk result (IsTrueOrder study.now spectrum.now.rows order) }
{
    let injections = inject(alloc, study, spectrum, order)?;
    cells_for::<E>(alloc, network, injections.as_slice(), sites, order)
}

/// Puts the cells of an order, where the spectrum has it.
fn push_order<E: Enclosure>(
    alloc: Global,
    study: &Study,
    networks: &StudyNetworks,
    spectrum: &Spectrum,
    sites: &[Site],
    order: u32,
    table: &mut Items<OrderCells>,
) -> Result<(), AllocError>
    requires study { IsLawful study.now }
    requires networks { AreNetworksOf study.now networks.now }
    requires spectrum { IsLawfulSpectrum study.now spectrum.now.rows }
    requires sites { sites.now ≡ sites_of study.now }
    requires low { 2 ≤ order }
    requires high { order ≤ 50 }
    requires scale { E.SCALE ≡ study.now.scale }
    ensures table { OnOk result (table.new ≡ table.old ++ map (cells_of study.now spectrum.now.rows) (filter (occurs spectrum.now.rows) (order ∷ []))) }
    ensures fit { OnOk result (AllByRecursion AreFitCells (map (cells_of study.now spectrum.now.rows) (filter (occurs spectrum.now.rows) (order ∷ [])))) }
    ensures truth { OnOk result (AllByRecursion (IsTrueOrder study.now spectrum.now.rows) (filter (occurs spectrum.now.rows) (order ∷ []))) }
{
    if !occurs(spectrum, order) {
        return Ok(());
    }
    let network = network_at(study, networks, order);
    let cells = cells_of::<E>(alloc, study, network, spectrum, sites, order)?;
    table.push(cells)
}

/// Puts the cells of the orders of the spectrum among so many numbers from here on.
fn push_orders<E: Enclosure>(
    alloc: Global,
    study: &Study,
    networks: &StudyNetworks,
    spectrum: &Spectrum,
    sites: &[Site],
    order: u32,
    left: u32,
    table: &mut Items<OrderCells>,
) -> Result<(), AllocError>
    requires study { IsLawful study.now }
    requires networks { AreNetworksOf study.now networks.now }
    requires spectrum { IsLawfulSpectrum study.now spectrum.now.rows }
    requires sites { sites.now ≡ sites_of study.now }
    requires low { 2 ≤ order }
    requires high { order + left ≤ 51 }
    requires scale { E.SCALE ≡ study.now.scale }
    ensures table { OnOk result (table.new ≡ table.old ++ map (cells_of study.now spectrum.now.rows) (filter (occurs spectrum.now.rows) (range_with_len order left))) }
    ensures fit { OnOk result (AllByRecursion AreFitCells (map (cells_of study.now spectrum.now.rows) (filter (occurs spectrum.now.rows) (range_with_len order left)))) }
    ensures truth { OnOk result (AllByRecursion (IsTrueOrder study.now spectrum.now.rows) (filter (occurs spectrum.now.rows) (range_with_len order left))) }
{
    if left == 0 {
        return Ok(());
    }
    push_order::<E>(alloc, study, networks, spectrum, sites, order, table)?;
    push_orders::<E>(
        alloc,
        study,
        networks,
        spectrum,
        sites,
        order + 1,
        left - 1,
        table,
    )
}

/// The cells of all orders of the spectrum, ascending.
#[tactic(auto, unfolding(crate::specs::Table::table_of))]
pub(crate) fn table_of<E: Enclosure>(
    alloc: Global,
    study: &Study,
    networks: &StudyNetworks,
    spectrum: &Spectrum,
) -> Result<Items<OrderCells>, AllocError>
    requires study { IsLawful study.now }
    requires networks { AreNetworksOf study.now networks.now }
    requires spectrum { IsLawfulSpectrum study.now spectrum.now.rows }
    requires scale { E.SCALE ≡ study.now.scale }
    ensures table { IfOk result (λ table. table ≡ table_of study.now spectrum.now.rows) }
    ensures fit { OnOk result (AllByRecursion AreFitCells (table_of study.now spectrum.now.rows)) }
    ensures truth { OnOk result (AllByRecursion (IsTrueOrder study.now spectrum.now.rows) (orders_of spectrum.now.rows)) }
{
    let sites = sites_of(alloc, study)?;
    let mut table = Items::new(alloc);
    let count = MAX_ORDER + 1 - MIN_ORDER;
    push_orders::<E>(
        alloc,
        study,
        networks,
        spectrum,
        sites.as_slice(),
        MIN_ORDER,
        count,
        &mut table,
    )?;
    Ok(table)
}
