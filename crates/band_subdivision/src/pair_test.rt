// The interval test of boxes, for a pair of networks that is driven at a node.
ghost use Rattle.std.specs.Prelude.{◌≡◌, ◌≤◌, length};
ghost use Rattle.std.specs.Option.{option_map};
ghost use Rattle.exact_fraction.specs.Fraction.{ratio_of};
ghost use Rattle.complex_interval.specs.Rect.{rectangle_of};
ghost use Rattle.complex_interval.specs.Ends.{range_ends};
ghost use Rattle.admittance_box.specs.Pattern.{IsPattern};
ghost use Rattle.certified_inverse.specs.Sizes.{IsInRange};
ghost use Rattle.band_subdivision.specs.Boxes.{IsTestable};
ghost use Rattle.band_subdivision.specs.PairTest.{with_extra, value_with, with_last, last_enclosure, enclosure_with};
ghost use Rattle.band_subdivision.specs.ScanSpec.{HasLevels, nothing};
ghost use Rattle.band_subdivision.specs.Testing.{box_test, bench_for};

use crate::branchwise_part::{is_within_near, ohms_over_near};
use crate::interval_test::{bound_to_clear, bound_to_name, is_clear_of, ohms_of};
use crate::inverse_test::{is_within, ohms_over};
use crate::scan_spec::ScanSpec;
use crate::second_bench::SecondBench;
use admittance_box::{Assembly, Fill, order_range};
use certified_inverse::{InverseBench, InverseOutcome};
use complex_interval::{Enclosure, Rect};
use exact_fraction::Fraction;
use plain_elimination::Matrix;
use sparse_rows::SparseBench;
use std::marker::Model;

const NOTHING: Fraction = Fraction { num: 0, den: 1 };

/// A test of boxes: by the reduced admittance of the driven node, and where that doesn't pass, by what the method asks then: its
/// enclosed impedance, or an estimate of it. It works in one matrix and on one bench for each part.
#[derive(Drop)]
pub struct PairTest<E: Enclosure> {
    spec: ScanSpec,
    assembly: Assembly<E>,
    matrix: Matrix<E>,
    bench: SparseBench<E>,
    second: SecondBench<E>,
    extra: Fraction,
    susceptance: Option<E>,
}

impl<E: Enclosure> Model for PairTest<E> {
    ghost use Rattle.std.specs.Prelude.{◌≡◌};
    ghost use Rattle.std.specs.Option.{option_map};
    ghost use Rattle.exact_fraction.specs.Fraction.{ratio_of};
    ghost use Rattle.band_subdivision.specs.ScanSpec.{HasLevels};
    ghost use Rattle.band_subdivision.specs.Testing.{Testing, AreParts, bench_for};

    ghost Value = { Testing };

    ghost view = { λ t. record {
      spec = t.spec;
      low = t.assembly.low;
      high = t.assembly.high;
      driven = t.assembly.driven;
      ordering = t.assembly.ordering;
      extra = ratio_of t.extra;
    } };

    ghost invariant = { λ t. HasLevels t.spec
        × AreParts E.SCALE t.assembly.ordering t.assembly.low.branches t.matrix t.bench (ratio_of t.extra) (option_map E.ends t.susceptance)
        × (t.second ≡ bench_for E.SCALE t.spec.method t.assembly) };
}

impl<E: Enclosure> PairTest<E> {
    /// The test without an extra susceptance.
    pub fn new(
        spec: ScanSpec,
        assembly: Assembly<E>,
        matrix: Matrix<E>,
        bench: SparseBench<E>,
        second: SecondBench<E>,
    ) -> PairTest<E>
        requires levels { HasLevels spec }
        requires some { 1 ≤ length assembly.ordering }
        requires size { matrix.size ≡ length assembly.ordering }
        requires pattern { IsPattern assembly.ordering assembly.low.branches bench.size bench.places }
        requires second { second ≡ bench_for E.SCALE spec.method assembly }
        ensures { result ≡ record { spec = spec; low = assembly.low; high = assembly.high; driven = assembly.driven; ordering = assembly.ordering; extra = nothing } }
    {
        let susceptance = E::from_fraction(NOTHING);
        PairTest {
            spec,
            assembly,
            matrix,
            bench,
            second,
            extra: NOTHING,
            susceptance,
        }
    }

    /// What the scan was asked.
    pub fn spec(&self) -> ScanSpec
        ensures { result ≡ self.now.spec }
    {
        self.spec
    }

    /// Takes this extra susceptance in place of the one before.
    pub fn set_extra(&mut self, extra: Fraction)
        ensures { self.new ≡ record self.old { extra = ratio_of extra } }
    {
        self.extra = extra;
        self.susceptance = E::from_fraction(extra);
    }

    /// Whether the impedance is shown to be within the threshold over a box.
    pub fn is_clear(&mut self, lo: u32, hi: u32) -> bool
        requires { IsTestable self.old.spec.from lo hi }
        ensures value { result ≡ (box_test E.SCALE self.old).clear lo hi }
        ensures same { self.new ≡ self.old }
    {
        let levels = self.spec.levels(lo, hi);
        let y = admittance(
            &mut self.assembly,
            &mut self.matrix,
            &mut self.bench,
            self.susceptance,
            lo,
            hi,
        );
        if is_clear_of(bound_to_clear::<E>(&levels), y) {
            return true;
        }
        match &mut self.second {
            SecondBench::Nothing => false,
            SecondBench::OfInverse(bench) => {
                if hi - lo <= self.spec.locate {
                    let z = impedance(
                        bench,
                        &mut self.assembly,
                        &mut self.matrix,
                        self.susceptance,
                        lo,
                        hi,
                    );
                    is_within(E::SCALE, &levels, z)
                } else {
                    false
                }
            }
            SecondBench::OfDrops(bench) => {
                let found = bench.estimate(self.extra, lo, hi);
                is_within_near(&levels, found)
            }
        }
    }

    /// Where the impedance is shown to be above the threshold over a box: micro-ohms that it has at least.
    pub fn micro_ohms(&mut self, lo: u32, hi: u32) -> Option<i128>
        requires { IsTestable self.old.spec.from lo hi }
        ensures value { result ≡ (box_test E.SCALE self.old).above lo hi }
        ensures same { self.new ≡ self.old }
    {
        let levels = self.spec.levels(lo, hi);
        let y = admittance(
            &mut self.assembly,
            &mut self.matrix,
            &mut self.bench,
            self.susceptance,
            lo,
            hi,
        );
        let ohms = ohms_of(&levels, bound_to_name::<E>(&levels), y);
        if ohms.is_some() {
            return ohms;
        }
        match &mut self.second {
            SecondBench::Nothing => None,
            SecondBench::OfInverse(bench) => {
                if hi - lo <= self.spec.locate {
                    let z = impedance(
                        bench,
                        &mut self.assembly,
                        &mut self.matrix,
                        self.susceptance,
                        lo,
                        hi,
                    );
                    ohms_over(E::SCALE, &levels, z)
                } else {
                    None
                }
            }
            SecondBench::OfDrops(bench) => {
                let found = bench.estimate(self.extra, lo, hi);
                ohms_over_near(&levels, found)
            }
        }
    }
}

/// The reduced admittance of the driven node over a box, in per unit, with that of a further susceptance. None where a step has no
/// value.
fn admittance<E: Enclosure>(
    assembly: &mut Assembly<E>,
    matrix: &mut Matrix<E>,
    bench: &mut SparseBench<E>,
    susceptance: Option<E>,
    lo: u32,
    hi: u32,
) -> Option<Rect<E>>
    requires ordered { lo ≤ hi }
    requires some { 1 ≤ length assembly.old.ordering }
    requires size { matrix.old.size ≡ length assembly.old.ordering }
    requires pattern { IsPattern assembly.old.ordering assembly.old.low.branches bench.old.size bench.old.places }
    ensures value { option_map (rectangle_of E.ends) result ≡ value_with E.SCALE assembly.old.low assembly.old.high assembly.old.ordering (option_map E.ends susceptance) lo hi }
    ensures assembly { assembly.new ≡ assembly.old }
    ensures matrix { matrix.new.size ≡ matrix.old.size }
    ensures bench { bench.new ≡ bench.old }
{
    match assembly.fill(lo, hi, matrix) {
        Fill::OutOfRange(_) => None,
        Fill::Filled => match bench.reduce(matrix) {
            Ok(y) => add_extra(y, susceptance, lo, hi),
            Err(_) => None,
        },
    }
}

/// The enclosed impedance of the driven node over a box, with a further susceptance there.
fn impedance<E: Enclosure>(
    bench: &mut InverseBench<E>,
    assembly: &mut Assembly<E>,
    matrix: &mut Matrix<E>,
    susceptance: Option<E>,
    lo: u32,
    hi: u32,
) -> InverseOutcome
    requires ordered { lo ≤ hi }
    requires some { 1 ≤ length assembly.old.ordering }
    requires size { matrix.old.size ≡ length assembly.old.ordering }
    requires same { bench.old ≡ length assembly.old.ordering }
    ensures value { result ≡ enclosure_with E.SCALE assembly.old.low assembly.old.high assembly.old.ordering (option_map E.ends susceptance) lo hi }
    ensures sizes { IsInRange result }
    ensures assembly { assembly.new ≡ assembly.old }
    ensures matrix { matrix.new.size ≡ matrix.old.size }
    ensures bench { bench.new ≡ bench.old }
{
    match assembly.fill(lo, hi, matrix) {
        Fill::OutOfRange(_) => InverseOutcome::OutOfRange,
        Fill::Filled => enclosed(bench, matrix, susceptance, lo, hi),
    }
}

/// The enclosed impedance of the driven node.
fn enclosed<E: Enclosure>(
    bench: &mut InverseBench<E>,
    matrix: &mut Matrix<E>,
    susceptance: Option<E>,
    lo: u32,
    hi: u32,
) -> InverseOutcome
    requires ordered { lo ≤ hi }
    requires some { 1 ≤ matrix.old.size }
    requires size { bench.old ≡ matrix.old.size }
    ensures value { result ≡ last_enclosure E.SCALE (with_last E.SCALE (option_map E.ends susceptance) lo hi matrix.old.rows) }
    ensures sizes { IsInRange result }
    ensures matrix { matrix.new.size ≡ matrix.old.size }
    ensures bench { bench.new ≡ bench.old }
{
    let last = matrix.size() - 1;
    match add_extra(matrix.get(last, last), susceptance, lo, hi) {
        Some(sum) => {
            matrix.set(last, last, sum);
            bench.enclose(matrix, last)
        }
        None => InverseOutcome::OutOfRange,
    }
}

/// An admittance over a box of orders with that of a further susceptance. None where the susceptance, or a step, has no value.
fn add_extra<E: Enclosure>(y: Rect<E>, susceptance: Option<E>, lo: u32, hi: u32) -> Option<Rect<E>>
    requires { lo ≤ hi }
    ensures { option_map (rectangle_of E.ends) result ≡ with_extra E.SCALE (option_map E.ends susceptance) lo hi (rectangle_of E.ends y) }
{
    let order: E = order_range(lo, hi);
    let im = y.im.add(order.mul(susceptance?)?)?;
    Some(Rect { re: y.re, im })
}
