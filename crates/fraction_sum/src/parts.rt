// A fraction times a power of two in parts. The product may have 172 bits, so it is built bit by bit.
ghost use Rattle.std.specs.Prelude.{◌≡◌, ℕ, ◌+◌, ◌*◌, ◌^◌, ◌≤◌, ◌<◌, ◌≤ℤ◌, ◌+ℤ◌, ◌*ℤ◌, pos, unsigned_abs};

// A whole quotient and its rest.
#[derive(Clone, Copy)]
pub struct Split {
    pub quotient: u128,
    pub rest: u128,
}

// rest * 2^s divided by den.
pub fn scaled_split(rest: u128, den: u128, s: u32) -> Split
    requires below { rest < den }
    requires den_fits { den < 2 ^ 120 }
    requires small { s ≤ 48 }
    ensures value { result.quotient * den + result.rest ≡ rest * 2 ^ s }
    ensures rest { result.rest < den }
    ensures quotient { result.quotient < 2 ^ s }
    ensures bound { result.quotient < 2 ^ 48 }
{
    let mut quotient = 0;
    let mut left = rest;
    for _i in 0..s {
        let double = 2 * left;
        if double >= den {
            quotient = 2 * quotient + 1;
            left = double - den;
        } else {
            quotient = 2 * quotient;
            left = double;
        }
    }
    Split {
        quotient,
        rest: left,
    }
}

// A fraction times 2^s: whole * 2^s + quotient, and rest over the denominator.
#[derive(Clone, Copy)]
pub struct Parts {
    pub whole: i128,
    pub quotient: u128,
    pub rest: u128,
}

// j * num.
pub fn multiple(j: i64, num: i128) -> i128
    requires few { unsigned_abs j ≤ 8 }
    requires fits { unsigned_abs num < 2 ^ 120 }
    ensures value { result ≡ j *ℤ num }
    ensures bound { unsigned_abs result < 2 ^ 124 }
{
    i128::from(j) * num
}

// num / den times 2^s, in parts.
pub fn parts_of(num: i128, den: i128, s: u32) -> Parts
    requires num_fits { unsigned_abs num < 2 ^ 124 }
    requires den_fits { unsigned_abs den < 2 ^ 120 }
    requires den_positive { pos 1 ≤ℤ den }
    requires small { s ≤ 48 }
    ensures value { num *ℤ pos (2 ^ s) ≡ (result.whole *ℤ pos (2 ^ s) +ℤ pos result.quotient) *ℤ pos (unsigned_abs den) +ℤ pos result.rest }
    ensures rest { result.rest < unsigned_abs den }
    ensures quotient { result.quotient < 2 ^ s }
    ensures bound { result.quotient < 2 ^ 48 }
    ensures whole { unsigned_abs result.whole ≤ 2 ^ 124 }
{
    let whole = num.div_euclid(den);
    let rest = num.rem_euclid(den);
    let split = scaled_split(rest.unsigned_abs(), den.unsigned_abs(), s);
    Parts {
        whole,
        quotient: split.quotient,
        rest: split.rest,
    }
}
