// What counts at the drops of a pair of networks over a box, in place.
ghost use Rattle.std.specs.Prelude.{◌≡◌, ◌+◌, ◌<◌, ◌≤◌, ◌++◌, IfSome, drop, length, map, take};
ghost use Rattle.std.specs.Option.{option_map};
ghost use Rattle.exact_fraction.specs.Fraction.{ratio_of};
ghost use Rattle.complex_interval.specs.Rect.{rectangle_of};
ghost use Rattle.branchwise_test.specs.Drops.{counted, with_branch, with_branches};
ghost use Rattle.drop_bench.specs.Drops.{drop_ends, bare};
ghost use Rattle.branchwise_bench.specs.Layout.{bare_nodes, own_drops, own_count, BeginsWithOwn, raised_at, with_extra, counted_all};
ghost use Rattle.branchwise_live.specs.Live.{live_ends};

use admittance_box::{exact_one, shunt_admittance};
use branchwise_live::LiveBranchIntervals;
use complex_interval::{Enclosure, Rect};
use drop_bench::DropIntervals;
use exact_fraction::Fraction;
use middle_inverse::middle_rectangle;

// Takes away what counts at each drop.
fn clear<E: Enclosure>(drops: &mut [DropIntervals<E>])
    ensures { map (drop_ends E.ends) drops.new ≡ map bare (map (drop_ends E.ends) drops.old) }
{
    for i in 0..drops.len() {
        drops[i].clear();
    }
}

// An admittance more counts at the drop of a place, times a factor, where it is one of the first drops.
fn raise_at<E: Enclosure>(
    drops: &mut [DropIntervals<E>],
    done: usize,
    place: u32,
    middle: Rect<E>,
    rest: Rect<E>,
    factor: E,
) -> Option<()>
    requires { done ≤ length drops.old }
    ensures value { option_map (λ _. take done (map (drop_ends E.ends) drops.new)) result
        ≡ raised_at E.SCALE (rectangle_of E.ends middle) (rectangle_of E.ends rest) (E.ends factor) place (take done (map (drop_ends E.ends) drops.old)) }
    ensures bare { map bare (map (drop_ends E.ends) drops.new) ≡ map bare (map (drop_ends E.ends) drops.old) }
{
    let place = place as usize;
    if place < done {
        drops[place].raise(middle, rest, factor)
    } else {
        None
    }
}

// An admittance counts where the branch's taps say, the first drops being done: how many are then.
fn count_at<E: Enclosure>(
    branch: &LiveBranchIntervals<E>,
    middle: Rect<E>,
    rest: Rect<E>,
    drops: &mut [DropIntervals<E>],
    done: usize,
) -> Option<usize>
    requires done_in { done ≤ length drops.old }
    requires own { BeginsWithOwn (live_ends E.ends branch.now) (drop done (map bare (map (drop_ends E.ends) drops.old))) }
    ensures value { option_map (λ d. take d (map (drop_ends E.ends) drops.new)) result
        ≡ counted E.SCALE (rectangle_of E.ends middle) (rectangle_of E.ends rest) (live_ends E.ends branch.now).taps (live_ends E.ends branch.now).pairs (take done (map (drop_ends E.ends) drops.old)) }
    ensures next { IfSome result (λ d. d ≡ done + own_count (live_ends E.ends branch.now).pairs) }
    ensures bare { map bare (map (drop_ends E.ends) drops.new) ≡ map bare (map (drop_ends E.ends) drops.old) }
{
    match branch.pairs.as_slice() {
        [] => Some(done),
        [pair] => {
            raise_at(drops, done, pair.row, middle, rest, pair.factor)?;
            Some(done)
        }
        [_first, _second, ..] => {
            drops[done].set(middle, rest);
            Some(done + 1)
        }
    }
}

// So the admittance of a branch over the orders of `order`.
fn count_branch<E: Enclosure>(
    order: E,
    branch: &LiveBranchIntervals<E>,
    drops: &mut [DropIntervals<E>],
    done: usize,
) -> Option<usize>
    requires done_in { done ≤ length drops.old }
    requires own { BeginsWithOwn (live_ends E.ends branch.now) (drop done (map bare (map (drop_ends E.ends) drops.old))) }
    ensures value { option_map (λ d. take d (map (drop_ends E.ends) drops.new)) result
        ≡ with_branch E.SCALE (E.ends order) (live_ends E.ends branch.now) (take done (map (drop_ends E.ends) drops.old)) }
    ensures next { IfSome result (λ d. d ≡ done + own_count (live_ends E.ends branch.now).pairs) }
    ensures bare { map bare (map (drop_ends E.ends) drops.new) ≡ map bare (map (drop_ends E.ends) drops.old) }
{
    let y = branch.law.admittance(order)?;
    let middle = middle_rectangle(y);
    let rest = y.sub(middle)?;
    count_at(branch, middle, rest, drops, done)
}

// So each branch in order.
fn count_branches<E: Enclosure>(
    order: E,
    branches: &[LiveBranchIntervals<E>],
    drops: &mut [DropIntervals<E>],
    done: usize,
) -> Option<()>
    requires done_in { done ≤ length drops.old }
    requires laid { drop done (map bare (map (drop_ends E.ends) drops.old)) ≡ own_drops (map (live_ends E.ends) branches.now) }
    ensures value { option_map (λ _. map (drop_ends E.ends) drops.new) result
        ≡ with_branches E.SCALE (E.ends order) (map (live_ends E.ends) branches.now) (take done (map (drop_ends E.ends) drops.old)) }
    ensures bare { map bare (map (drop_ends E.ends) drops.new) ≡ map bare (map (drop_ends E.ends) drops.old) }
{
    match branches {
        [] => Some(()),
        [first, rest @ ..] => {
            let next = count_branch(order, first, drops, done)?;
            count_branches(order, rest, drops, next)
        }
    }
}

// An extra susceptance counts at the drop of a place, where it is above 0.
fn count_extra<E: Enclosure>(
    order: E,
    extra: Fraction,
    drops: &mut [DropIntervals<E>],
    place: u32,
) -> Option<()>
    ensures value { option_map (λ _. map (drop_ends E.ends) drops.new) result ≡ with_extra E.SCALE (E.ends order) place (ratio_of extra) (map (drop_ends E.ends) drops.old) }
    ensures bare { map bare (map (drop_ends E.ends) drops.new) ≡ map bare (map (drop_ends E.ends) drops.old) }
{
    if extra.num <= 0 {
        return Some(());
    }
    let susceptance = E::from_fraction(extra)?;
    let y = shunt_admittance(susceptance, order)?;
    let middle = middle_rectangle(y);
    let rest = y.sub(middle)?;
    let all = drops.len();
    raise_at(drops, all, place, middle, rest, exact_one())
}

/// What the branches of a pair over the orders of `order`, and an extra susceptance at the last of so many nodes, count at the drops.
pub fn count_all<E: Enclosure>(
    order: E,
    branches: &[LiveBranchIntervals<E>],
    extra: Fraction,
    nodes: u32,
    drops: &mut [DropIntervals<E>],
) -> Option<()>
    requires some { 0 < nodes }
    requires laid { map bare (map (drop_ends E.ends) drops.old) ≡ bare_nodes E.SCALE 0 nodes ++ own_drops (map (live_ends E.ends) branches.now) }
    ensures value { option_map (λ _. map (drop_ends E.ends) drops.new) result
        ≡ counted_all E.SCALE (E.ends order) nodes (ratio_of extra) (map (live_ends E.ends) branches.now) }
    ensures bare { map bare (map (drop_ends E.ends) drops.new) ≡ map bare (map (drop_ends E.ends) drops.old) }
{
    clear(drops);
    count_branches(order, branches, drops, nodes as usize)?;
    count_extra(order, extra, drops, nodes - 1)
}
