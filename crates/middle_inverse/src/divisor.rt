// Quotients of many dividends by one divisor.
ghost use Rattle.std.specs.Prelude.{◌≡◌, Some};
ghost use Rattle.std.specs.Option.{option_map};
ghost use Rattle.complex_interval.specs.Rect.{rectangle_of};
ghost use Rattle.complex_interval.specs.Rectangles.{clip_to, quotient_by, quotient_by_across};
ghost use Rattle.middle_inverse.specs.Divisor.{divisor_by, divisor_of, divided_by, divisor_ends};

use complex_interval::{Enclosure, Rect};

/// What quotients need of a divisor: whether its real part is the one farther from zero; the other part over that one; and that one with
/// the other part times this quotient.
#[derive(Clone, Copy)]
pub struct Divisor<E> {
    pub is_along: bool,
    pub rho: E,
    pub e: E,
}

// The part of t on the side of zero where c lies.
fn clipped<E: Enclosure>(c: E, t: E) -> Option<E>
    ensures { option_map E.ends result ≡ clip_to (E.ends c) (E.ends t) }
{
    if 0 < c.low() {
        t.not_below_zero()
    } else {
        t.not_above_zero()
    }
}

// By the part farther from zero, and the other part.
fn divisor_by<E: Enclosure>(is_along: bool, far: E, other: E) -> Option<Divisor<E>>
    ensures { option_map (divisor_ends E.ends) result ≡ divisor_by E.SCALE is_along (E.ends far) (E.ends other) }
{
    let rho = other.div(far)?;
    let e = far.add(clipped(far, other.mul(rho)?)?)?;
    Some(Divisor { is_along, rho, e })
}

/// What quotients by a rectangle need of it. `None` where they have no value.
pub fn divisor_of<E: Enclosure>(b: Rect<E>) -> Option<Divisor<E>>
    ensures { option_map (divisor_ends E.ends) result ≡ divisor_of E.SCALE (rectangle_of E.ends b) }
{
    let first = b.re.mig();
    let second = b.im.mig();
    if first == 0 && second == 0 {
        None
    } else if second <= first {
        divisor_by(true, b.re, b.im)
    } else {
        divisor_by(false, b.im, b.re)
    }
}

// By a divisor whose real part is the one farther from zero.
fn divide_along<E: Enclosure>(a: Rect<E>, rho: E, e: E) -> Option<Rect<E>>
    ensures { option_map (rectangle_of E.ends) result ≡ quotient_by E.SCALE (E.ends a.re) (E.ends a.im) (E.ends rho) (Some (E.ends e)) }
{
    let re = a.re.add(a.im.mul(rho)?)?.div(e)?;
    let im = a.im.sub(a.re.mul(rho)?)?.div(e)?;
    Some(Rect { re, im })
}

// By one whose imaginary part is.
fn divide_across<E: Enclosure>(a: Rect<E>, rho: E, e: E) -> Option<Rect<E>>
    ensures { option_map (rectangle_of E.ends) result ≡ quotient_by_across E.SCALE (E.ends a.re) (E.ends a.im) (E.ends rho) (Some (E.ends e)) }
{
    let re = a.re.mul(rho)?.add(a.im)?.div(e)?;
    let im = a.im.mul(rho)?.sub(a.re)?.div(e)?;
    Some(Rect { re, im })
}

/// The quotient of a.
pub fn divide<E: Enclosure>(a: Rect<E>, d: Divisor<E>) -> Option<Rect<E>>
    ensures { option_map (rectangle_of E.ends) result ≡ divided_by E.SCALE (rectangle_of E.ends a) (divisor_ends E.ends d) }
{
    if d.is_along {
        divide_along(a, d.rho, d.e)
    } else {
        divide_across(a, d.rho, d.e)
    }
}
