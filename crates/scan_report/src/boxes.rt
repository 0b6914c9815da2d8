// The boxes of a band of orders.

/// What was found of a box.
#[derive(Clone, Copy, Debug, PartialEq, Eq)]
pub enum Kind {
    /// The impedance is at most the threshold at every order of the box.
    Cleared,
    /// At the order `at`, in micro-orders, the impedance is above the threshold and at least this many micro-ohms.
    Peak { at: u32, micro_ohms: i128 },
    /// The box is too narrow to be split, and neither was shown.
    Undecided,
}

/// A box of orders from `lo` to `hi`, in micro-orders.
#[derive(Clone, Copy, Debug, PartialEq, Eq)]
pub struct BoxRow {
    pub lo: u32,
    pub hi: u32,
    pub kind: Kind,
}
