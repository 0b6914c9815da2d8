// Two raw parts in range.
ghost use Rattle.std.specs.Prelude.{◌≤◌, ◌^◌, unsigned_abs};

/// A point of the complex plane: both parts raw, each of a size of at most 2^62.
#[derive(Clone, Copy)]
pub struct Point {
    pub re: i64,
    pub im: i64,
    ghost re_fits: { unsigned_abs re ≤ 2 ^ 62 },
    ghost im_fits: { unsigned_abs im ≤ 2 ^ 62 },
}
