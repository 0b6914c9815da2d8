// Why a report isn't right of a study.
use thiserror::Error;

/// Why a report isn't right of a study: the first line, from 1 on, whose check fails. On one line the checks stand in this order.
#[derive(Clone, Copy, Debug, PartialEq, Eq, Error)]
pub enum VerifyFault {
    /// The first row of a scan isn't that of the study's next scan, or the last row stands where the study has a further one.
    #[error("line {0} is not the first row of the study's next scan")]
    WrongScan(u32),
    /// A box doesn't begin where the one before ended, or is empty, or ends beyond its band, or a scan ends before its band does.
    #[error("line {0} leaves a gap in the band or goes beyond it")]
    Gap(u32),
    /// The box is said to be cleared, and the interval test doesn't clear it.
    #[error("line {0} is a box that is not shown to be cleared")]
    NotCleared(u32),
    /// The box is said to be a peak, and the interval test shows none such.
    #[error("line {0} is a peak that is not shown to be one")]
    NotPeak(u32),
    /// The box is said to be undecided, and is too wide, or of another kind.
    #[error("line {0} is no undecided box")]
    NotUndecided(u32),
    /// A number of the row isn't what the rows before it give.
    #[error("line {0} is not what the lines before it give")]
    WrongCount(u32),
    #[error("no memory for the checks of the boxes")]
    NoMemory,
}
