// The decimals of an array, of which there are few.
ghost use Rattle.std.specs.Prelude.{◌≡◌, ◌≤◌, take};
ghost use Rattle.study_model.specs.declared.curve.TheConstants.{MAX_CURVE_POINTS};

use study_model::MAX_CURVE_POINTS;

/// Decimals in millionths: those in the first `len` places.
#[derive(Clone, Copy)]
pub(crate) struct Decimals {
    pub(crate) len: usize,
    pub(crate) millionths: [u64; MAX_CURVE_POINTS],
    ghost fits: { len ≤ MAX_CURVE_POINTS },
}

impl Decimals {
    pub(crate) fn as_slice(&self) -> &[u64]
        ensures { result.now ≡ take self.now.len self.now.millionths }
    {
        &self.millionths[..self.len]
    }
}
