// The gaps of marks: of each marked place the way to the next one in its row, or to the row's end.
ghost use Rattle.std.specs.Prelude.{◌≡◌, ◌*◌, ◌≤◌, IfOk, length};
ghost use Rattle.sparse_rows.specs.Gaps.{gaps_of};
ghost use Rattle.sparse_rows.specs.Marks.{HasGaps};
ghost use Rattle.plain_elimination.specs.declared.limits.TheConstants.{MAX_SIZE};

use std::alloc::{AllocError, Global};

// The gaps of a row of marks, from its end.
fn fill_gaps(marks: &[bool], gaps: &mut [u32])
    requires sizes { length gaps.old ≡ length marks.now }
    requires few { length marks.now ≤ MAX_SIZE }
    ensures { gaps.new ≡ gaps_of marks.now }
{
    let mut gap: u32 = 1;
    let mut j = gaps.len();
    while 0 < j {
        j -= 1;
        if marks[j] {
            gaps[j] = gap;
            gap = 1;
        } else {
            gaps[j] = 0;
            gap += 1;
        }
    }
}

// The gaps of a square, row by row.
fn fill_rows(marks: &[bool], gaps: &mut [u32], size: usize)
    requires few { size ≤ MAX_SIZE }
    requires square { length marks.now ≡ size * size }
    requires sizes { length gaps.old ≡ size * size }
    ensures { HasGaps size size marks.now gaps.new }
{
    for k in 0..size {
        let start = k * size;
        let end = start + size;
        fill_gaps(&marks[start..end], &mut gaps[start..end]);
    }
}

/// The gaps of the marks of a square, row after row.
pub fn gaps_of(alloc: Global, size: usize, marks: &[bool]) -> Result<Vec<u32>, AllocError>
    requires few { size ≤ MAX_SIZE }
    requires square { length marks.now ≡ size * size }
    ensures square { IfOk result (λ gaps. length gaps.items ≡ size * size) }
    ensures rows { IfOk result (λ gaps. HasGaps size size marks.now gaps.items) }
{
    let mut gaps = Vec::new(alloc);
    gaps.resize(size * size, 0)?;
    fill_rows(marks, gaps.as_mut_slice(), size);
    Ok(gaps)
}
