// Ends from a whole part and the number that is added to it at the scale.
ghost use Rattle.std.specs.Prelude.{◌≡◌, ℕ, ◌*◌, ◌^◌, ◌≤◌, ◌<◌, ◌+ℤ◌, ◌*ℤ◌, pos, unsigned_abs};
ghost use Rattle.exact_fraction.specs.Scaled.{end_of};

const END: i128 = 1 << 62;

// 2^s.
fn unit_of(s: u32) -> i128
    requires { s ≤ 48 }
    ensures value { result ≡ pos (2 ^ s) }
    ensures bound { unsigned_abs result ≤ 2 ^ 48 }
{
    1_i128 << s
}

fn small_product(a: i128, b: i128) -> i128
    requires first { unsigned_abs a ≤ 2 ^ 63 }
    requires second { unsigned_abs b ≤ 2 ^ 48 }
    ensures value { result ≡ a *ℤ b }
    ensures bound { unsigned_abs result ≤ 2 ^ 111 }
{
    a * b
}

fn small_sum(a: i128, b: u128) -> i128
    requires first { unsigned_abs a ≤ 2 ^ 111 }
    requires second { b ≤ 2 ^ 49 }
    ensures { result ≡ a +ℤ pos b }
{
    a + b as i128
}

// whole * 2^s and a number.
fn scaled_sum(whole: i128, number: u128, s: u32) -> i128
    requires whole_fits { unsigned_abs whole ≤ 2 ^ 63 }
    requires number_fits { number ≤ 2 ^ 49 }
    requires small { s ≤ 48 }
    ensures { result ≡ whole *ℤ pos (2 ^ s) +ℤ pos number }
{
    small_sum(small_product(whole, unit_of(s)), number)
}

fn end_in_range(z: i128) -> Option<i64>
    ensures { result ≡ end_of z }
{
    if -END <= z && z <= END {
        Some(z as i64)
    } else {
        None
    }
}

// whole * 2^s and a number, where the sum is an end. A number of at most 2 * 2^s brings no whole part below -2^62 - 2 into range.
pub fn end_from(whole: i128, number: u128, s: u32) -> Option<i64>
    requires number_fits { number ≤ 2 ^ 49 }
    requires below { number ≤ 2 * 2 ^ s }
    requires small { s ≤ 48 }
    ensures { result ≡ end_of (whole *ℤ pos (2 ^ s) +ℤ pos number) }
{
    if whole < -END - 2 {
        None
    } else if END < whole {
        None
    } else {
        end_in_range(scaled_sum(whole, number, s))
    }
}
