// The rows of a report on distortion, each from its squares and its limit.
ghost use Rattle.std.specs.Prelude.{◌≡◌, ◌≤◌, IfSome};
ghost use Rattle.distortion_bounds.specs.Squares.{AreSquares};
ghost use Rattle.ieee519_limits.specs.Verdicts.{AreOrdered};
ghost use Rattle.study_model.specs.Lawful.{IsLawful, IsLawfulPcc};
ghost use Rattle.limits_report.specs.Lines.{voltage_bounds, current_bounds, low_of, high_of, voltage_row, thd_row, current_row, tdd_row, row_of, total_row_of};
ghost use Rattle.limits_report.specs.Sites.{IsLawfulSubject};

use crate::site::Subject;
use distortion_bounds::{Squares, VOLTAGE_RHO, bounds, current_rho};
use element_parts::kv;
use ieee519_limits::{PercentBounds, current_limit, in_force, tdd_limit, verdict, voltage_limit};
use scan_report::{PhaseWord, Row};
use spectrum_reader::{Levels, level_of};
use study_model::{Bus, Pcc, Study};

/// The bounds of a voltage, in ten-thousandths of a percent of the nominal phase voltage.
#[tactic(auto, using(crate::proofs::Scales::within))]
fn voltage_bounds(study: &Study, squares: Option<Squares>) -> Option<PercentBounds>
    requires study { IsLawful study.now }
    requires fit { IfSome squares AreSquares }
    ensures value { result ≡ voltage_bounds study.now squares }
    ensures ordered { AreOrdered result }
{
    match squares {
        Some(squares) => bounds(squares, 3, VOLTAGE_RHO, study.scale),
        None => None,
    }
}

/// The bounds of a current at a point, in ten-thousandths of a percent of its demand current.
#[tactic(auto, using(crate::proofs::Scales::within))]
fn current_bounds(study: &Study, point: &Pcc, squares: Option<Squares>) -> Option<PercentBounds>
    requires study { IsLawful study.now }
    requires point { IsLawfulPcc study.now point.now }
    requires fit { IfSome squares AreSquares }
    ensures value { result ≡ current_bounds study.now point.now squares }
    ensures ordered { AreOrdered result }
{
    let rho = current_rho(kv(study, point.bus), study.mva, point.il);
    match squares {
        Some(squares) => bounds(squares, 1, rho, study.scale),
        None => None,
    }
}

fn low_of(bounds: Option<PercentBounds>) -> Option<u64>
    ensures { result ≡ low_of bounds }
{
    match bounds {
        Some(bounds) => Some(bounds.lo),
        None => None,
    }
}

fn high_of(bounds: Option<PercentBounds>) -> Option<u64>
    ensures { result ≡ high_of bounds }
{
    match bounds {
        Some(bounds) => Some(bounds.hi),
        None => None,
    }
}

/// The row of a voltage at a bus, by the planning level of the bus at the order or the standard's limit.
#[tactic(auto, unfolding(crate::specs::Lines::voltage_row))]
fn voltage_row(
    study: &Study,
    levels: &Levels,
    order: u32,
    number: u32,
    bus: &Bus,
    phase: PhaseWord,
    squares: Option<Squares>,
) -> Row
    requires study { IsLawful study.now }
    requires fit { IfSome squares AreSquares }
    ensures { result ≡ voltage_row study.now levels.now.rows order number bus.now phase squares }
{
    let bounds = voltage_bounds(study, squares);
    let limit = in_force(voltage_limit(bus.kv).each, level_of(levels, number, order));
    Row::Voltage {
        bus: bus.name,
        phase,
        order,
        lo: low_of(bounds),
        hi: high_of(bounds),
        limit,
        verdict: verdict(bounds, limit),
    }
}

/// The row of the total harmonic distortion at a bus, by the planning level of the bus for it or the standard's limit.
#[tactic(auto, unfolding(crate::specs::Lines::thd_row))]
fn thd_row(
    study: &Study,
    levels: &Levels,
    number: u32,
    bus: &Bus,
    phase: PhaseWord,
    squares: Option<Squares>,
) -> Row
    requires study { IsLawful study.now }
    requires fit { IfSome squares AreSquares }
    ensures { result ≡ thd_row study.now levels.now.rows number bus.now phase squares }
{
    let bounds = voltage_bounds(study, squares);
    let limit = in_force(voltage_limit(bus.kv).total, level_of(levels, number, 0));
    Row::Thd {
        bus: bus.name,
        phase,
        lo: low_of(bounds),
        hi: high_of(bounds),
        limit,
        verdict: verdict(bounds, limit),
    }
}

/// The row of a current at a point of common coupling.
#[tactic(auto, unfolding(crate::specs::Lines::current_row))]
fn current_row(
    study: &Study,
    order: u32,
    point: &Pcc,
    phase: PhaseWord,
    squares: Option<Squares>,
) -> Row
    requires study { IsLawful study.now }
    requires point { IsLawfulPcc study.now point.now }
    requires low { 2 ≤ order }
    requires high { order ≤ 50 }
    requires fit { IfSome squares AreSquares }
    ensures { result ≡ current_row study.now order point.now phase squares }
{
    let bounds = current_bounds(study, point, squares);
    let limit = current_limit(kv(study, point.bus), point.isc, point.il, order);
    Row::Current {
        point: point.name,
        phase,
        order,
        lo: low_of(bounds),
        hi: high_of(bounds),
        limit,
        verdict: verdict(bounds, limit),
    }
}

/// The row of the total demand distortion at a point of common coupling.
#[tactic(auto, unfolding(crate::specs::Lines::tdd_row))]
fn tdd_row(study: &Study, point: &Pcc, phase: PhaseWord, squares: Option<Squares>) -> Row
    requires study { IsLawful study.now }
    requires point { IsLawfulPcc study.now point.now }
    requires fit { IfSome squares AreSquares }
    ensures { result ≡ tdd_row study.now point.now phase squares }
{
    let bounds = current_bounds(study, point, squares);
    let limit = tdd_limit(kv(study, point.bus), point.isc, point.il);
    Row::Tdd {
        point: point.name,
        phase,
        lo: low_of(bounds),
        hi: high_of(bounds),
        limit,
        verdict: verdict(bounds, limit),
    }
}

/// The row of what is said at a node, at one order.
pub(crate) fn row_of(
    study: &Study,
    levels: &Levels,
    order: u32,
    subject: &Subject,
    phase: PhaseWord,
    squares: Option<Squares>,
) -> Row
    requires study { IsLawful study.now }
    requires subject { IsLawfulSubject study.now subject.now }
    requires low { 2 ≤ order }
    requires high { order ≤ 50 }
    requires fit { IfSome squares AreSquares }
    ensures { result ≡ row_of study.now levels.now.rows order subject.now phase squares }
{
    match subject {
        Subject::Voltage(number, bus) => {
            voltage_row(study, levels, order, *number, bus, phase, squares)
        }
        Subject::Current(point) => current_row(study, order, point, phase, squares),
    }
}

/// The row of what is said at a node, over all orders.
pub(crate) fn total_row_of(
    study: &Study,
    levels: &Levels,
    subject: &Subject,
    phase: PhaseWord,
    squares: Option<Squares>,
) -> Row
    requires study { IsLawful study.now }
    requires subject { IsLawfulSubject study.now subject.now }
    requires fit { IfSome squares AreSquares }
    ensures { result ≡ total_row_of study.now levels.now.rows subject.now phase squares }
{
    match subject {
        Subject::Voltage(number, bus) => thd_row(study, levels, *number, bus, phase, squares),
        Subject::Current(point) => tdd_row(study, point, phase, squares),
    }
}
