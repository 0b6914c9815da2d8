// Which sizes of a bank are safe, and what a candidate comes to.
ghost use Rattle.std.specs.Prelude.{◌≡◌};
ghost use Rattle.std.specs.List.{list_all};
ghost use Rattle.candidates_report.specs.First.{is_safe, has_peak, first_safe, has_first, is_lost};

use fixed_decimal::Decimal;
use study_variants::SizeRow;

/// Whether no box is a peak or undecided.
fn is_safe(row: &SizeRow) -> bool
    ensures { result ≡ is_safe row.now }
{
    row.peaks == 0 && row.undecided == 0
}

/// Whether some box is a peak.
fn has_peak(row: &SizeRow) -> bool
    ensures { result ≡ has_peak row.now }
{
    row.peaks > 0
}

/// The first safe size, or none.
pub(crate) fn first_safe(sizes: &[SizeRow]) -> Option<Decimal>
    ensures { result ≡ first_safe sizes.now }
{
    match sizes {
        [] => None,
        [row, rest @ ..] => {
            if is_safe(row) {
                Some(row.size)
            } else {
                first_safe(rest)
            }
        }
    }
}

/// Whether some size is safe.
pub(crate) fn has_first(sizes: &[SizeRow]) -> bool
    ensures { result ≡ has_first sizes.now }
{
    sizes.iter().any(|row| is_safe(row))
}

/// Whether each size has a peak.
fn all_have_peaks(sizes: &[SizeRow]) -> bool
    ensures { result ≡ list_all has_peak sizes.now }
{
    sizes.iter().all(|row| has_peak(row))
}

/// Whether no size is safe, and each has a peak.
pub(crate) fn is_lost(sizes: &[SizeRow]) -> bool
    ensures { result ≡ is_lost sizes.now }
{
    !has_first(sizes) && all_have_peaks(sizes)
}
