// Matrices by their entries.
ghost use Rattle.std.specs.Prelude.{◌≡◌, ℕ, ◌+◌, ◌<◌, ◌≤◌, IfOk, length, take};
ghost use Rattle.plain_elimination.specs.Matrix.{entry};
ghost use Rattle.plain_elimination.specs.Pattern.{AreInside, IsNoPlace, IsZeroOutside};
ghost use Rattle.plain_elimination.specs.declared.limits.TheConstants.{MAX_SIZE};

use crate::compare::expect;
use crate::rectangles::{Corners, corners, rectangle};
use complex_interval::{Rect, Span};
use plain_elimination::{Matrix, Pattern, Spot};
use std::alloc::Global;
use std::test::Fail;

pub const UNIT: i64 = 1_099_511_627_776;

/// The raw ends of the number 1.
pub const ONE: Corners = [UNIT, UNIT, 0, 0];

pub const TWO: Corners = [2 * UNIT, 2 * UNIT, 0, 0];

/// A row and a column, and what stands there.
pub type Entry = (u32, u32, Corners);

/// The pattern of these entries.
pub fn pattern_of(alloc: Global, size: u32, entries: &[Entry]) -> Result<Pattern, Fail>
    ensures size { IfOk result (λ p. p.size ≡ size) }
    ensures inside { IfOk result (λ p. AreInside size p.places.items) }
{
    let mut places = Vec::new(alloc);
    for (row, column, _corners) in entries {
        let row = Some(*row).filter(|r| *r < size).ok_or("outside")?;
        let column = Some(*column).filter(|c| *c < size).ok_or("outside")?;
        places.push(Spot { row, column })?;
    }
    Ok(Pattern { size, places })
}

// Sets the entry at this place.
fn set_at(matrix: &mut Matrix<Span<40>>, places: &[Spot], i: usize, value: Rect<Span<40>>)
    requires place_in { i < length places.now }
    requires inside { AreInside matrix.old.size places.now }
    ensures size { matrix.new.size ≡ matrix.old.size }
    ensures others { (row column : ℕ) → IsNoPlace (take (i + 1) places.now) row column → entry matrix.new.rows row column ≡ entry matrix.old.rows row column }
{
    let spot = places[i];
    matrix.set(spot.row, spot.column, value);
}

/// The matrix with these entries, which the pattern has, and zero elsewhere.
pub fn matrix_of(
    alloc: Global,
    pattern: &Pattern,
    entries: &[Entry],
) -> Result<Matrix<Span<40>>, Fail>
    requires few { pattern.now.size ≤ MAX_SIZE }
    requires inside { AreInside pattern.now.size pattern.now.places.items }
    ensures size { IfOk result (λ m. m.size ≡ pattern.now.size) }
    ensures zeros { IfOk result (IsZeroOutside pattern.now.places.items) }
{
    let mut matrix = Matrix::new(alloc, pattern.size)?;
    for i in 0..pattern.places.len() {
        let (_, _, corners) = *entries.get(i).ok_or("no value")?;
        let value = rectangle(corners)?;
        set_at(&mut matrix, pattern.places.as_slice(), i, value);
    }
    Ok(matrix)
}

// The entry that was set, and another one.
#[test]
fn an_entry_is_set(rt: HostRuntime) -> Result<(), Fail> {
    let one = rectangle(ONE)?;
    let mut matrix: Matrix<Span<40>> = Matrix::new(rt.alloc(), 3)?;
    matrix.set(2, 1, one);
    let found = (
        matrix.size(),
        corners(matrix.get(2, 1)),
        corners(matrix.get(1, 2)),
    );
    expect(&rt, found, (3, ONE, [0, 0, 0, 0]), "the entries");
    Ok(())
}
