// The right sides of an order.
ghost use Rattle.std.specs.Prelude.{◌≡◌, ◌+◌, ◌<◌, ◌≤◌, ◌^◌, Ok, length, map, replicate};
ghost use Rattle.std.specs.Option.{option_map};
ghost use Rattle.complex_interval.specs.Rect.{rectangle_of};
ghost use Rattle.node_injection.specs.Injected.{exact_injection};
ghost use Rattle.plain_elimination.specs.Matrix.{nought_rectangle};
ghost use Rattle.distortion_bounds.specs.Solver.{or_answer, with_injection, right_sides};
ghost use Rattle.plain_elimination.specs.declared.limits.TheConstants.{MAX_SIZE};

use crate::solved::Solved;
use admittance_box::{exact_zero, find_place};
use complex_interval::{Enclosure, Rect};
use node_injection::NodeInjection;
use plain_elimination::Column;

// Zero alone.
fn zero_rectangle<E: Enclosure>() -> Rect<E>
    ensures { rectangle_of E.ends result ≡ nought_rectangle }
{
    Rect {
        re: exact_zero(),
        im: exact_zero(),
    }
}

// Sets each of so many entries to zero.
fn clear<E: Enclosure>(column: &mut Column<E>, size: u32)
    requires { length column.old ≡ size }
    ensures { column.new ≡ replicate size nought_rectangle }
{
    for row in 0..size {
        column.set(row, zero_rectangle());
    }
}

// The right sides with an injection at its node. None where a step has no value.
fn add_injection<E: Enclosure>(
    ordering: &[u32],
    at: &NodeInjection,
    column: &mut Column<E>,
) -> Option<()>
    requires few { length ordering.now ≤ MAX_SIZE }
    requires size { length column.old ≡ length ordering.now }
    ensures right { option_map (λ _. column.new) result ≡ with_injection E.SCALE ordering.now (exact_injection at.now) column.old }
    ensures size { length column.new ≡ length column.old }
{
    let re = E::from_fraction(at.re)?;
    let im = E::from_fraction(at.im)?;
    let place = find_place(ordering, at.node.number)?;
    let sum = column.get(place).add(Rect { re, im })?;
    column.set(place, sum);
    Some(())
}

/// The right sides of an order: at each node of the ordering the sum of the injections there, in the order of the list. Else
/// `InjectionOutOfRange` with the first place of the list, from 1, at which an interval or a sum has no value.
pub fn set_right_sides<E: Enclosure>(
    ordering: &[u32],
    injections: &[NodeInjection],
    column: &mut Column<E>,
) -> Result<(), Solved>
    requires few { length ordering.now ≤ MAX_SIZE }
    requires size { length column.old ≡ length ordering.now }
    requires count { length injections.now < 2 ^ 32 }
    ensures right { or_answer result (λ _. Ok column.new) ≡ right_sides E.SCALE ordering.now (map exact_injection injections.now) }
    ensures size { length column.new ≡ length column.old }
{
    clear(column, ordering.len() as u32);
    for i in 0..injections.len() {
        if add_injection(ordering, &injections[i], column).is_none() {
            return Err(Solved::InjectionOutOfRange(i as u32 + 1));
        }
    }
    Ok(())
}
