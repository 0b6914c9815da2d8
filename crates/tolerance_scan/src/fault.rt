// Why a scan of two networks isn't made.
use thiserror::Error;

/// Why a scan of the networks between two isn't made.
#[derive(Clone, Copy, Debug, PartialEq, Eq, Error)]
pub enum ToleranceFault {
    /// The networks aren't a pair. The number is 0 where the numbers of bus nodes or of nodes differ, else that of the first branch, from 0,
    /// whose shape differs or one of whose low numbers is above its high one, else that of the first branch that only one network has.
    #[error("the networks are not a pair: see branch {0}")]
    NotAPair(u32),
    #[error("no memory for the scan")]
    NoMemory,
}
