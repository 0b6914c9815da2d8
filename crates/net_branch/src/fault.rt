// Why a network refuses a node, a branch or an element.

/// Why a node or a branch is refused. The refusals are judged in this order.
#[derive(Clone, Copy, Debug, PartialEq, Eq)]
pub enum NetFault {
    /// 1: a tap's node isn't a node of the network.
    NodeOutOfRange,
    /// 2: the network has its most nodes or its most branches.
    TooMany,
    /// 3: a Series has r, x and xc all zero, or a Shunt has b zero.
    ZeroLaw,
    /// Want of memory.
    NoMemory,
}

/// Why an element isn't added to a network.
#[derive(Clone, Copy, Debug, PartialEq, Eq)]
pub enum AddFault {
    /// The network would have more nodes or more branches than it may.
    TooMany,
    /// Want of memory.
    NoMemory,
}
