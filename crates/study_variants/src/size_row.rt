// How many boxes of each kind a scan has with a bank of some size.
ghost use Rattle.std.specs.Prelude.{◌≡◌, ◌+◌, ◌<◌, ◌^◌, [], length};
ghost use Rattle.study_variants.specs.Kinds.{with_kind, row_of_boxes};

use band_subdivision::Scan;
use complex_interval::Enclosure;
use fixed_decimal::Decimal;
use scan_report::Kind;

/// A size of a bank in MVAr, and how many boxes of each kind the scan with it has.
#[derive(Clone, Copy, Debug, PartialEq, Eq)]
pub struct SizeRow {
    pub size: Decimal,
    pub cleared: u32,
    pub peaks: u32,
    pub undecided: u32,
}

// One box more of this kind.
fn with_kind(kind: Kind, row: SizeRow) -> SizeRow
    requires { row.cleared + 1 < 2 ^ 32 × row.peaks + 1 < 2 ^ 32 × row.undecided + 1 < 2 ^ 32 }
    ensures { result ≡ with_kind kind row }
{
    let mut row = row;
    match kind {
        Kind::Cleared => row.cleared += 1,
        Kind::Peak { .. } => row.peaks += 1,
        Kind::Undecided => row.undecided += 1,
    }
    row
}

/// Counts the boxes that a scan has still to give.
pub fn count_boxes<E: Enclosure>(scan: &mut Scan<E>, size: Decimal) -> SizeRow
    requires { length scan.old.left + 1 < 2 ^ 32 }
    ensures row { result ≡ row_of_boxes size scan.old.left }
    ensures same { scan.new ≡ record scan.old { left = [] } }
{
    let mut row = SizeRow {
        size,
        cleared: 0,
        peaks: 0,
        undecided: 0,
    };
    'boxes: while let Some(found) = scan.next_box() {
        row = with_kind(found.kind, row);
    }
    row
}
