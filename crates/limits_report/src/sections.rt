// The rows of a report on distortion, section by section, from what is computed of each order.
ghost use Rattle.std.specs.Prelude.{◌≡◌, ◌+◌, ◌*◌, ◌<◌, ◌^◌, ◌++◌, ◌∷◌, [], length, OnOk, IfOk};
ghost use Rattle.std.specs.List.{AllByRecursion};
ghost use Rattle.study_model.specs.Lawful.{IsLawful, IsLawfulPcc};
ghost use Rattle.limits_report.specs.Cells.{cell_at};
ghost use Rattle.limits_report.specs.Fit.{AreFitCells};
ghost use Rattle.limits_report.specs.Sites.{IsLawfulSubject};
ghost use Rattle.limits_report.specs.Sections.{rows_at, rows_from, rows_of, total_row, totals_from, section_of, points_from, body_rows};

use crate::cell::{Cell, OrderCells};
use crate::keep::keep;
use crate::lines::{row_of, total_row_of};
use crate::site::{Site, bus_sites, point_sites};
use crate::total::{all_orders, cell_at, push_column};
use scan_report::Row;
use spectrum_reader::Levels;
use sqlite_items::Items;
use std::alloc::{AllocError, Global};
use study_model::{Pcc, Study};

/// Puts the row of a site at an order, where its node is live in the network of the order.
fn push_row(
    study: &Study,
    levels: &Levels,
    cells: &OrderCells,
    number: u32,
    site: &Site,
    rows: &mut Items<Row>,
) -> Result<(), AllocError>
    requires study { IsLawful study.now }
    requires site { IsLawfulSubject study.now site.now.subject }
    requires fit { AreFitCells cells.now }
    ensures { OnOk result (rows.new ≡ rows.old ++ rows_at study.now levels.now.rows cells.now.order site.now (cell_at cells.now.cells number)) }
{
    match cell_at(cells.cells.as_slice(), number) {
        Cell::Dead => Ok(()),
        Cell::Live(squares) => {
            let row = row_of(
                study,
                levels,
                cells.order,
                &site.subject,
                site.phase,
                squares,
            );
            keep::<Row>(rows, row)
        }
    }
}

/// Puts the rows of an order at sites whose cells are numbered from here.
fn push_rows_from(
    study: &Study,
    levels: &Levels,
    cells: &OrderCells,
    number: u32,
    sites: &[Site],
    rows: &mut Items<Row>,
) -> Result<(), AllocError>
    requires study { IsLawful study.now }
    requires sites { AllByRecursion (λ site. IsLawfulSubject study.now site.subject) sites.now }
    requires fit { AreFitCells cells.now }
    requires few { number + length sites.now < 2 ^ 32 }
    ensures { OnOk result (rows.new ≡ rows.old ++ rows_from study.now levels.now.rows cells.now number sites.now) }
{
    match sites {
        [] => Ok(()),
        [site, rest @ ..] => {
            push_row(study, levels, cells, number, site, rows)?;
            push_rows_from(study, levels, cells, number + 1, rest, rows)
        }
    }
}

/// Puts the rows of all orders at sites whose cells are numbered from here.
fn push_rows(
    study: &Study,
    levels: &Levels,
    table: &[OrderCells],
    number: u32,
    sites: &[Site],
    rows: &mut Items<Row>,
) -> Result<(), AllocError>
    requires study { IsLawful study.now }
    requires sites { AllByRecursion (λ site. IsLawfulSubject study.now site.subject) sites.now }
    requires fit { AllByRecursion AreFitCells table.now }
    requires few { number + length sites.now < 2 ^ 32 }
    ensures { OnOk result (rows.new ≡ rows.old ++ rows_of study.now levels.now.rows table.now number sites.now) }
{
    match table {
        [] => Ok(()),
        [cells, rest @ ..] => {
            push_rows_from(study, levels, cells, number, sites, rows)?;
            push_rows(study, levels, rest, number, sites, rows)
        }
    }
}

/// Puts the row of what all orders are together at a site.
#[tactic(auto, using(crate::proofs::Fits::fit_column))]
fn push_total(
    alloc: Global,
    study: &Study,
    levels: &Levels,
    table: &[OrderCells],
    number: u32,
    site: &Site,
    rows: &mut Items<Row>,
) -> Result<(), AllocError>
    requires study { IsLawful study.now }
    requires site { IsLawfulSubject study.now site.now.subject }
    requires fit { AllByRecursion AreFitCells table.now }
    ensures { OnOk result (rows.new ≡ rows.old ++ total_row study.now levels.now.rows table.now number site.now ∷ []) }
{
    let mut column = Items::new(alloc);
    push_column(table, number, &mut column)?;
    let squares = all_orders(alloc, column.as_slice())?;
    keep::<Row>(
        rows,
        total_row_of(study, levels, &site.subject, site.phase, squares),
    )
}

/// Puts the rows of what all orders are together at sites whose cells are numbered from here.
fn push_totals_from(
    alloc: Global,
    study: &Study,
    levels: &Levels,
    table: &[OrderCells],
    number: u32,
    sites: &[Site],
    rows: &mut Items<Row>,
) -> Result<(), AllocError>
    requires study { IsLawful study.now }
    requires sites { AllByRecursion (λ site. IsLawfulSubject study.now site.subject) sites.now }
    requires fit { AllByRecursion AreFitCells table.now }
    requires few { number + length sites.now < 2 ^ 32 }
    ensures { OnOk result (rows.new ≡ rows.old ++ totals_from study.now levels.now.rows table.now number sites.now) }
{
    match sites {
        [] => Ok(()),
        [site, rest @ ..] => {
            push_total(alloc, study, levels, table, number, site, rows)?;
            push_totals_from(alloc, study, levels, table, number + 1, rest, rows)
        }
    }
}

/// Puts the rows of sites whose cells are numbered from here: by order, then those of all orders.
fn push_section(
    alloc: Global,
    study: &Study,
    levels: &Levels,
    table: &[OrderCells],
    number: u32,
    sites: &[Site],
    rows: &mut Items<Row>,
) -> Result<(), AllocError>
    requires study { IsLawful study.now }
    requires sites { AllByRecursion (λ site. IsLawfulSubject study.now site.subject) sites.now }
    requires fit { AllByRecursion AreFitCells table.now }
    requires few { number + length sites.now < 2 ^ 32 }
    ensures { OnOk result (rows.new ≡ rows.old ++ section_of study.now levels.now.rows table.now number sites.now) }
{
    push_rows(study, levels, table, number, sites, rows)?;
    push_totals_from(alloc, study, levels, table, number, sites, rows)
}

/// Puts the rows of points of common coupling.
#[tactic(auto, using(crate::proofs::Places::lawful_point, crate::proofs::Places::few_at, crate::proofs::Places::point_within))]
fn push_points_from(
    alloc: Global,
    study: &Study,
    levels: &Levels,
    table: &[OrderCells],
    number: u32,
    points: &[Pcc],
    rows: &mut Items<Row>,
) -> Result<(), AllocError>
    requires study { IsLawful study.now }
    requires points { AllByRecursion (IsLawfulPcc study.now) points.now }
    requires fit { AllByRecursion AreFitCells table.now }
    requires few { number + 3 * length points.now < 2 ^ 32 }
    ensures { OnOk result (rows.new ≡ rows.old ++ points_from study.now levels.now.rows table.now number points.now) }
{
    match points {
        [] => Ok(()),
        [point, rest @ ..] => {
            let sites = point_sites(alloc, study.model, point)?;
            push_section(alloc, study, levels, table, number, sites.as_slice(), rows)?;
            let next = number + sites.as_slice().len() as u32;
            push_points_from(alloc, study, levels, table, next, rest, rows)
        }
    }
}

/// The rows of a report before its summary.
#[tactic(auto, using(crate::proofs::Places::lawful_buses, crate::proofs::Places::few_sites))]
pub(crate) fn body_rows(
    alloc: Global,
    study: &Study,
    levels: &Levels,
    table: &[OrderCells],
) -> Result<Items<Row>, AllocError>
    requires study { IsLawful study.now }
    requires fit { AllByRecursion AreFitCells table.now }
    ensures { IfOk result (λ rows. rows ≡ body_rows study.now levels.now.rows table.now) }
{
    let sites = bus_sites(alloc, study)?;
    let mut rows = Items::new(alloc);
    push_section(alloc, study, levels, table, 0, sites.as_slice(), &mut rows)?;
    let number = sites.as_slice().len() as u32;
    push_points_from(
        alloc,
        study,
        levels,
        table,
        number,
        study.points.as_slice(),
        &mut rows,
    )?;
    Ok(rows)
}
