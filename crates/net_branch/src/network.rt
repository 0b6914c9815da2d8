// Networks as nodes and branches. All values are in per unit, at order 1.
use exact_fraction::Fraction;
use sqlite_items::Items;

/// A node of a network, by its number from 0. The bus nodes come first.
#[derive(Clone, Copy)]
pub struct NodeId {
    pub number: u32,
}

/// A tap ties a branch to a node: the voltage of the node counts `ratio` times in the voltage of the
/// branch, and `ratio` times the branch's current leaves the node.
#[derive(Clone, Copy)]
pub struct Tap {
    pub node: NodeId,
    pub ratio: Fraction,
}

/// How the current of a branch follows from its voltage, at order h.
#[derive(Clone, Copy)]
pub enum Law {
    /// The impedance R + j(h·x - xc/h), with the resistance R = r·(1 + k - k·m/(m + h²)).
    Series {
        r: Fraction,
        k: Fraction,
        m: Fraction,
        x: Fraction,
        xc: Fraction,
    },
    /// The admittance jh·b.
    Shunt {
        b: Fraction,
    },
    /// One of three coupled branches: its place in its group, 0, 1 or 2, and the values that the three share.
    Coupled3 {
        place: u8,
        self_r: Fraction,
        self_x: Fraction,
        mutual_r: Fraction,
        x_ab: Fraction,
        x_bc: Fraction,
        x_ca: Fraction,
        k: Fraction,
        m: Fraction,
    },
}

/// A branch. Group 0 means uncoupled; the three branches of another group stand one after another. The
/// owner is the number of the branch's element in the study, counted from 1 over sources, lines,
/// transformers, loads, banks and filters in this order.
#[derive(Drop)]
pub struct Branch {
    pub taps: Items<Tap>,
    pub law: Law,
    pub group: u32,
    pub owner: u32,
}

/// A network: the number of its bus nodes, which come first, the number of all its nodes, and its branches.
#[derive(Drop)]
pub struct Network {
    pub buses: u32,
    pub nodes: u32,
    pub branches: Items<Branch>,
}
