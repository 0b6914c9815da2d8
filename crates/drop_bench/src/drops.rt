// Drops, and their values at voltages.
ghost use Rattle.std.specs.Prelude.{◌≡◌, map, slice_get};
ghost use Rattle.std.specs.Option.{option_map};
ghost use Rattle.complex_interval.specs.Rect.{rectangle_of};
ghost use Rattle.admittance_box.specs.Intervals.{placed_ends};
ghost use Rattle.branchwise_test.specs.Drops.{raised};
ghost use Rattle.branchwise_test.specs.Sizes.{with_tap, drop_over, kept_size};
ghost use Rattle.drop_bench.specs.Drops.{drop_ends, bare};

use admittance_box::{PlacedTap, TapProduct};
use certified_inverse::in_size;
use complex_interval::{Enclosure, Rect};
use middle_inverse::{nought_point, size_of};

/// A drop: its taps with their pairs, and the sums of the middles and of the rests of the admittances that count at it.
#[derive(Drop)]
pub struct DropIntervals<E> {
    pub taps: Vec<PlacedTap<E>>,
    pub pairs: Vec<TapProduct<E>>,
    pub middle: Rect<E>,
    pub rest: Rect<E>,
}

impl<E: Enclosure> DropIntervals<E> {
    /// Takes away what counts at the drop.
    pub fn clear(&mut self)
        ensures { drop_ends E.ends self.new ≡ bare (drop_ends E.ends self.old) }
    {
        self.middle = nought_point();
        self.rest = nought_point();
    }

    /// An admittance more counts at the drop, times a factor. `None` where an operation has no value.
    pub fn raise(&mut self, middle: Rect<E>, rest: Rect<E>, factor: E) -> Option<()>
        ensures value { option_map (λ _. drop_ends E.ends self.new) result ≡ raised E.SCALE (rectangle_of E.ends middle) (rectangle_of E.ends rest) (E.ends factor) (drop_ends E.ends self.old) }
        ensures bare { bare (drop_ends E.ends self.new) ≡ bare (drop_ends E.ends self.old) }
    {
        let m = middle.scale(factor)?;
        let r = rest.scale(factor)?;
        let middle = self.middle.add(m)?;
        let rest = self.rest.add(r)?;
        self.middle = middle;
        self.rest = rest;
        Some(())
    }

    /// One admittance alone counts at the drop.
    pub fn set(&mut self, middle: Rect<E>, rest: Rect<E>)
        ensures { drop_ends E.ends self.new ≡ record (drop_ends E.ends self.old) { middle = rectangle_of E.ends middle; rest = rectangle_of E.ends rest } }
    {
        self.middle = middle;
        self.rest = rest;
    }
}

/// The entry at this place, if there is one.
pub fn entry_at<E: Enclosure>(xs: &[Rect<E>], place: u32) -> Option<Rect<E>>
    ensures { option_map (rectangle_of E.ends) result ≡ slice_get (map (rectangle_of E.ends) xs.now) place }
{
    let place = place as usize;
    if place < xs.len() {
        Some(xs[place])
    } else {
        None
    }
}

// The sum, and on top of it the entry at the tap's place times its ratio.
fn add_tap<E: Enclosure>(sum: Rect<E>, tap: PlacedTap<E>, xs: &[Rect<E>]) -> Option<Rect<E>>
    ensures { option_map (rectangle_of E.ends) result ≡ with_tap E.SCALE (rectangle_of E.ends sum) (placed_ends E.ends tap) (map (rectangle_of E.ends) xs.now) }
{
    let entry = entry_at(xs, tap.place)?;
    let term = entry.scale(tap.ratio)?;
    sum.add(term)
}

/// The drop of these taps where the nodes have these voltages.
pub fn drop_over<E: Enclosure>(taps: &[PlacedTap<E>], xs: &[Rect<E>]) -> Option<Rect<E>>
    ensures { option_map (rectangle_of E.ends) result ≡ drop_over E.SCALE (map (placed_ends E.ends) taps.now) (map (rectangle_of E.ends) xs.now) }
{
    let mut sum = nought_point();
    for tap in taps {
        sum = add_tap(sum, *tap, xs)?;
    }
    Some(sum)
}

/// The size of a rectangle, if it is at most 2^62.
pub fn kept_size<E: Enclosure>(x: Rect<E>) -> Option<u64>
    ensures { result ≡ kept_size (rectangle_of E.ends x) }
{
    in_size(size_of(x) as u128)
}
