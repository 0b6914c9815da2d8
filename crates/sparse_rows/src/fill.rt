// The symbolic fill of the elimination order. Each row passes its marked places on to the row of the first of them: with that all
// fill of all rows is marked, as an elimination tree gives it.
ghost use Rattle.std.specs.Prelude.{◌≡◌, ℕ, ◌+◌, ◌*◌, ◌<◌, ◌≤◌, IfOk, false, get_or, length, replicate};
ghost use Rattle.plain_elimination.specs.Pattern.{AreInside};
ghost use Rattle.sparse_rows.specs.Marks.{IsMarked, Grown, PassesOn, Covers, IsFilled};
ghost use Rattle.plain_elimination.specs.declared.limits.TheConstants.{MAX_SIZE};

use plain_elimination::Spot;
use std::alloc::{AllocError, Global};

// Marks a place and the one across the diagonal.
fn mark(marks: &mut [bool], size: usize, row: usize, column: usize)
    requires few { size ≤ MAX_SIZE }
    requires square { length marks.old ≡ size * size }
    requires row_in { row < size }
    requires column_in { column < size }
    ensures here { IsMarked marks.new (row * size + column) }
    ensures grown { (from : ℕ) → from ≤ row * size + column → from ≤ column * size + row → Grown size from marks.old marks.new }
{
    marks[row * size + column] = true;
    marks[column * size + row] = true;
}

fn mark_diagonal(marks: &mut [bool], size: usize)
    requires few { size ≤ MAX_SIZE }
    requires square { length marks.old ≡ size * size }
    ensures here { (k : ℕ) → k < size → IsMarked marks.new (k * size + k) }
    ensures grown { Grown size 0 marks.old marks.new }
{
    for k in 0..size {
        mark(marks, size, k, k);
    }
}

fn mark_places(marks: &mut [bool], size: usize, places: &[Spot])
    requires few { size ≤ MAX_SIZE }
    requires square { length marks.old ≡ size * size }
    requires inside { AreInside size places.now }
    ensures here { Covers size places.now marks.new }
    ensures grown { Grown size 0 marks.old marks.new }
{
    for i in 0..places.len() {
        mark(
            marks,
            size,
            places[i].row as usize,
            places[i].column as usize,
        );
    }
}

// The first marked column behind the diagonal of this row, or the size.
fn first_behind(marks: &[bool], size: usize, k: usize) -> usize
    requires few { size ≤ MAX_SIZE }
    requires square { length marks.now ≡ size * size }
    requires row_in { k < size }
    ensures behind { k < result }
    ensures within { result ≤ size }
    ensures none { (j : ℕ) → k < j → j < result → get_or marks.now (k * size + j) false ≡ false }
    ensures found { result < size → IsMarked marks.now (k * size + result) }
{
    for j in k + 1..size {
        if marks[k * size + j] {
            return j;
        }
    }
    size
}

// What is marked in row k behind column p is marked in row p too.
fn pass_on(marks: &mut [bool], size: usize, k: usize, p: usize)
    requires few { size ≤ MAX_SIZE }
    requires square { length marks.old ≡ size * size }
    requires behind { k < p }
    requires row_in { p < size }
    ensures passed { (j : ℕ) → p < j → j < size → IsMarked marks.old (k * size + j) → IsMarked marks.new (p * size + j) }
    ensures grown { Grown size ((k + 1) * size) marks.old marks.new }
{
    for j in p + 1..size {
        if marks[k * size + j] {
            mark(marks, size, p, j);
        }
    }
}

fn pass_row(marks: &mut [bool], size: usize, k: usize)
    requires few { size ≤ MAX_SIZE }
    requires square { length marks.old ≡ size * size }
    requires row_in { k < size }
    ensures passed { PassesOn size marks.new k }
    ensures grown { Grown size ((k + 1) * size) marks.old marks.new }
{
    let p = first_behind(marks, size, k);
    if p < size {
        pass_on(marks, size, k, p);
    }
}

fn pass_rows(marks: &mut [bool], size: usize)
    requires few { size ≤ MAX_SIZE }
    requires square { length marks.old ≡ size * size }
    ensures passed { (k : ℕ) → k < size → PassesOn size marks.new k }
    ensures grown { Grown size 0 marks.old marks.new }
{
    for k in 0..size {
        pass_row(marks, size, k);
    }
}

fn fill_marks(marks: &mut [bool], size: usize, places: &[Spot])
    requires few { size ≤ MAX_SIZE }
    requires clear { marks.old ≡ replicate (size * size) false }
    requires inside { AreInside size places.now }
    ensures { IsFilled size places.now marks.new }
{
    mark_diagonal(marks, size);
    mark_places(marks, size, places);
    pass_rows(marks, size);
}

/// The marks of a square of this size at these places, the diagonal, all places across it and all fill.
pub fn marks_of(alloc: Global, size: usize, places: &[Spot]) -> Result<Vec<bool>, AllocError>
    requires few { size ≤ MAX_SIZE }
    requires inside { AreInside size places.now }
    ensures { IfOk result (λ marks. IsFilled size places.now marks.items) }
{
    let mut marks = Vec::new(alloc);
    marks.resize(size * size, false)?;
    fill_marks(marks.as_mut_slice(), size, places);
    Ok(marks)
}
