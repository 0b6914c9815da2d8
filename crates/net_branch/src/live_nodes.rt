// Which nodes of a network are live.
ghost use Rattle.std.specs.Prelude.{◌≡◌, ℕ, ◌<◌, ◌↔◌, ◌⊎◌, true, false, length, get_or, All, IsTrue, IfOk};
ghost use Rattle.net_branch.specs.LiveNodes.{AreLive};
ghost use Rattle.net_branch.specs.Marks.{IsMarked, AreMarked, AreValued, unmarked, HasTapAt, IsReached, IsFilled, AreFound};
ghost use Rattle.net_branch.specs.Whole.{IsWholeNetwork};

use crate::network::{Branch, Network, Tap};
use std::alloc::{AllocError, Global};

/// Marks the nodes of the taps, and says whether one wasn't marked yet.
fn mark(taps: &[Tap], marks: &mut [bool]) -> bool
    requires { AreValued marks.old taps.now }
    ensures only { (n : ℕ) → IsMarked marks.new n → IsMarked marks.old n ⊎ HasTapAt taps.now n }
    ensures still { result ≡ false → (marks.new ≡ marks.old) × AreMarked marks.old taps.now }
    ensures grew { result ≡ true → unmarked marks.new < unmarked marks.old }
{
    let mut grew = false;
    for tap in taps {
        let at = tap.node.number as usize;
        if !marks[at] {
            marks[at] = true;
            grew = true;
        }
    }
    grew
}

/// Whether these are the taps of a branch that makes its nodes live: it has one tap, or a tap at a marked node.
fn is_reached(taps: &[Tap], marks: &[bool]) -> bool
    requires { AreValued marks.now taps.now }
    ensures { IsTrue result ↔ IsReached taps.now marks.now }
{
    if taps.len() == 1 {
        return true;
    }
    for tap in taps {
        if marks[tap.node.number as usize] {
            return true;
        }
    }
    false
}

/// Marks the nodes of a branch that is reached, and says whether one wasn't marked yet.
fn mark_branch(branch: &Branch, marks: &mut [bool]) -> bool
    requires { AreValued marks.old branch.now.taps }
    ensures only { (n : ℕ) → IsMarked marks.new n → IsMarked marks.old n ⊎ (IsReached branch.now.taps marks.old × HasTapAt branch.now.taps n) }
    ensures still { result ≡ false → (marks.new ≡ marks.old) × IsFilled marks.old branch.now }
    ensures grew { result ≡ true → unmarked marks.new < unmarked marks.old }
{
    let taps = branch.taps.as_slice();
    is_reached(taps, marks) && mark(taps, marks)
}

/// Goes over the branches once, and says whether it marked a node.
fn mark_round(network: &Network, marks: &mut [bool]) -> bool
    requires whole { IsWholeNetwork network.now }
    requires count { length marks.old ≡ network.now.nodes }
    requires found { AreFound network.now marks.old }
    ensures found { AreFound network.now marks.new }
    ensures still { result ≡ false → (marks.new ≡ marks.old) × All (IsFilled marks.old) network.now.branches }
    ensures grew { result ≡ true → unmarked marks.new < unmarked marks.old }
{
    let mut marked = false;
    for branch in network.branches.as_slice() {
        if mark_branch(branch, marks) {
            marked = true;
        }
    }
    marked
}

/// One value for each node, true where the node is live. The live nodes are the least set that has the node of each branch of one tap
/// and, with one node of a branch, all its nodes. (This project's own.)
pub fn live(alloc: Global, network: &Network) -> Result<Vec<bool>, AllocError>
    requires { IsWholeNetwork network.now }
    ensures { IfOk result (λ values. AreLive network.now values.items) }
{
    let mut marks = vec![in alloc; false; network.nodes as usize]?;
    while mark_round(network, &mut marks) {}
    Ok(marks)
}
