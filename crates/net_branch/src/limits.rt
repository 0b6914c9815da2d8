// How large a network is.

/// The most nodes of a network.
pub const MAX_NODES: u32 = 400;

/// The most branches of a network.
pub const MAX_BRANCHES: u32 = 2_400;
