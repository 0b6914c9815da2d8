// Whether two networks are a pair, or the first branch at which they aren't.
ghost use Rattle.std.specs.Prelude.{◌≡◌, ◌↔◌, ◌≤◌, map, length, IsTrue, MatchOption};
ghost use Rattle.std.specs.List.{AllZip};
ghost use Rattle.network_theory.specs.Between.{TapUpTo, CouplingUpTo, LawUpTo, BranchUpTo, IsPair};
ghost use Rattle.net_branch.specs.declared.limits.TheConstants.{MAX_BRANCHES};
ghost use Rattle.net_branch.specs.Exact.{exact_tap, exact_law, exact_branch, exact_network};
ghost use Rattle.net_branch.specs.Whole.{IsWholeNetwork};
ghost use Rattle.tolerance_scan.specs.Apart.{IsFirstApart, IsApart};

use net_branch::{Branch, Law, Network, Tap};

/// Whether two taps are at one node, and the ratio of the first is at most the second's.
fn is_tap_up_to(low: Tap, high: Tap) -> bool
    ensures { IsTrue result ↔ TapUpTo (exact_tap low) (exact_tap high) }
{
    low.node.number == high.node.number && low.ratio.at_most(high.ratio)
}

/// Whether taps are so, one by one.
fn are_taps_up_to(low: &[Tap], high: &[Tap]) -> bool
    ensures { IsTrue result ↔ AllZip TapUpTo (map exact_tap low.now) (map exact_tap high.now) }
{
    match low {
        [] => high.is_empty(),
        [first, rest @ ..] => match high {
            [] => false,
            [second, others @ ..] => {
                is_tap_up_to(*first, *second) && are_taps_up_to(rest, others)
            }
        },
    }
}

/// Whether two laws are of one kind, and each number of the first is at most the second's.
fn is_law_up_to(low: Law, high: Law) -> bool
    ensures { IsTrue result ↔ LawUpTo (exact_law low) (exact_law high) }
{
    match low {
        Law::Series { r, k, m, x, xc } => match high {
            Law::Series {
                r: high_r,
                k: high_k,
                m: high_m,
                x: high_x,
                xc: high_xc,
            } => {
                r.at_most(high_r)
                    && k.at_most(high_k)
                    && m.at_most(high_m)
                    && x.at_most(high_x)
                    && xc.at_most(high_xc)
            }
            _ => false,
        },
        Law::Shunt { b } => match high {
            Law::Shunt { b: high_b } => b.at_most(high_b),
            _ => false,
        },
        Law::Coupled3 {
            place,
            self_r,
            self_x,
            mutual_r,
            x_ab,
            x_bc,
            x_ca,
            k,
            m,
        } => match high {
            Law::Coupled3 {
                place: high_place,
                self_r: high_self_r,
                self_x: high_self_x,
                mutual_r: high_mutual_r,
                x_ab: high_x_ab,
                x_bc: high_x_bc,
                x_ca: high_x_ca,
                k: high_k,
                m: high_m,
            } => {
                place == high_place
                    && self_r.at_most(high_self_r)
                    && self_x.at_most(high_self_x)
                    && mutual_r.at_most(high_mutual_r)
                    && x_ab.at_most(high_x_ab)
                    && x_bc.at_most(high_x_bc)
                    && x_ca.at_most(high_x_ca)
                    && k.at_most(high_k)
                    && m.at_most(high_m)
            }
            _ => false,
        },
    }
}

/// Whether two branches have the same taps, kind of law, group and owner, and each number of the first is at most the second's.
fn is_branch_up_to(low: &Branch, high: &Branch) -> bool
    ensures { IsTrue result ↔ BranchUpTo (exact_branch low.now) (exact_branch high.now) }
{
    low.group == high.group
        && low.owner == high.owner
        && is_law_up_to(low.law, high.law)
        && are_taps_up_to(low.taps.as_slice(), high.taps.as_slice())
}

/// The place of the first branch whose shape differs, or one of whose low numbers is above its high one, or that only one list has.
fn first_apart(low: &[Branch], high: &[Branch]) -> Option<u32>
    requires { length low.now ≤ MAX_BRANCHES }
    ensures { MatchOption result (AllZip BranchUpTo (map exact_branch low.now) (map exact_branch high.now)) (IsFirstApart (map exact_branch low.now) (map exact_branch high.now)) }
{
    let mut number = 0;
    for branch in low {
        if number >= high.len() {
            return Some(number as u32);
        }
        if !is_branch_up_to(branch, &high[number]) {
            return Some(number as u32);
        }
        number += 1;
    }
    if number < high.len() {
        return Some(number as u32);
    }
    None
}

/// Where two networks aren't a pair, the number of the fault: 0 where the numbers of bus nodes or of nodes differ, else the first branch
/// whose shape differs or one of whose low numbers is above its high one, else the first branch that only one network has.
pub fn apart(low: &Network, high: &Network) -> Option<u32>
    requires { IsWholeNetwork low.now }
    ensures { MatchOption result (IsPair (exact_network low.now) (exact_network high.now)) (IsApart (exact_network low.now) (exact_network high.now)) }
{
    if low.buses != high.buses {
        return Some(0);
    }
    if low.nodes != high.nodes {
        return Some(0);
    }
    first_apart(low.branches.as_slice(), high.branches.as_slice())
}
