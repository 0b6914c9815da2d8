// The bench of the part that a method asks where elimination doesn't pass.
ghost use Rattle.std.specs.Prelude.{◌≡◌, IfOk};
ghost use Rattle.band_subdivision.specs.Testing.{bench_for};

use admittance_box::Assembly;
use branchwise_bench::BranchwiseBench;
use certified_inverse::InverseBench;
use complex_interval::Enclosure;
use std::alloc::{AllocError, Global};
use study_model::Method;

/// The bench of the second part of a test.
#[derive(Drop)]
pub enum SecondBench<E: Enclosure> {
    /// None: the test has no second part.
    Nothing,
    /// For the certified inverse.
    OfInverse(InverseBench<E>),
    /// For the estimate branch by branch.
    OfDrops(BranchwiseBench<E>),
}

/// The bench for a method and the pair of an assembly.
pub fn new_bench<E: Enclosure>(
    alloc: Global,
    method: Method,
    assembly: &Assembly<E>,
) -> Result<SecondBench<E>, AllocError>
    ensures { IfOk result (λ bench. bench ≡ bench_for E.SCALE method assembly.now) }
{
    match method {
        Method::Elimination => Ok(SecondBench::Nothing),
        Method::Both => Ok(SecondBench::OfInverse(InverseBench::new(alloc, assembly.size())?)),
        Method::Branchwise => Ok(SecondBench::OfDrops(BranchwiseBench::new(alloc, assembly)?)),
    }
}
