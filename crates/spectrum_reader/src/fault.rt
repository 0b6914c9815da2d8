// Why a spectrum or a levels file is refused, and at which row.
ghost use Rattle.std.specs.Prelude.{◌≡◌, Some, None, codes};

use thiserror::Error;

/// Why a spectrum is refused, with the number of its row from 1; the header has no number. Within a row `BadPhase` is judged before `BadDecimal`.
#[derive(Clone, Copy, Debug, PartialEq, Eq, Error)]
pub enum SpectrumFault {
    /// The first record isn't the header, or there is none.
    #[error("the first record is not the header")]
    BadHeader,
    /// The row has another number of fields than the header, or it is one too many.
    #[error("the row has another number of fields than the header, or is one too many")]
    BadRow(u32),
    /// The order isn't a whole number from 2 to 50 without a leading zero.
    #[error("the order is not a whole number from 2 to 50")]
    BadOrder(u32),
    /// No bus has the name.
    #[error("no bus has the name")]
    UnknownBus(u32),
    /// One of the two currents isn't a decimal.
    #[error("a current is no decimal, or too long or too large a one")]
    BadDecimal(u32),
    /// An earlier row has the order, the bus and the phase.
    #[error("an earlier row has the order, the bus and the phase")]
    Repeated(u32),
    /// The phase isn't `a`, `b` or `c`.
    #[error("the phase is not a, b or c")]
    BadPhase(u32),
    /// The order is a multiple of 3, and its bus has no path to ground in the zero network.
    #[error("the bus has no path to ground in the zero network")]
    NoPath(u32),
    /// Memory ran out.
    #[error("memory ran out")]
    NoMemory,
}

/// Why a levels file is refused, in the order in which a row is judged, with the number of its row from 1; the header has no number.
#[derive(Clone, Copy, Debug, PartialEq, Eq, Error)]
pub enum LevelsFault {
    /// The first record isn't the header, or there is none.
    #[error("the first record is not the header")]
    BadHeader,
    /// The row has another number of fields than three.
    #[error("the row has another number of fields than the header")]
    BadRow(u32),
    /// The order is neither `thd` nor a whole number from 2 to 50 without a leading zero.
    #[error("the order is neither thd nor a whole number from 2 to 50")]
    BadOrder(u32),
    /// No bus has the name.
    #[error("no bus has the name")]
    UnknownBus(u32),
    /// The percent isn't a decimal from 0.0001 to 100 of at most four places.
    #[error("the percent is not from 0.0001 to 100, or has more than four places")]
    BadPercent(u32),
    /// An earlier row has the bus and the order.
    #[error("an earlier row has the bus and the order")]
    Repeated(u32),
    /// Memory ran out.
    #[error("memory ran out")]
    NoMemory,
}

/// What is printed of a fault: its number, its name and its row.
#[derive(Clone, Copy)]
struct Printed {
    number: Option<u32>,
    name: &'static str,
    row: Option<u32>,
}

fn printed_row(number: u32, name: &'static str, row: Option<u32>) -> Printed
    ensures number { result.number ≡ Some number }
    ensures name { result.name.now ≡ name.entry.now }
    ensures row { result.row ≡ row }
{
    Printed {
        number: Some(number),
        name,
        row,
    }
}

fn printed_memory() -> Printed
    ensures number { result.number ≡ None }
    ensures name { result.name.now ≡ codes "NoMemory" }
    ensures row { result.row ≡ None }
{
    Printed {
        number: None,
        name: "NoMemory",
        row: None,
    }
}

impl SpectrumFault {
    ghost use Rattle.std.specs.Prelude.{◌≡◌, ◌≤◌, length};
    ghost use Rattle.spectrum_reader.specs.Faults.{spectrum_printed};

    fn printed(self) -> Printed
        ensures number { result.number ≡ (spectrum_printed self).number }
        ensures name { result.name.now ≡ (spectrum_printed self).name }
        ensures len { length result.name.now ≤ 10 }
        ensures row { result.row ≡ (spectrum_printed self).row }
    {
        match self {
            SpectrumFault::BadHeader => printed_row(1, "BadHeader", None),
            SpectrumFault::BadRow(row) => printed_row(2, "BadRow", Some(row)),
            SpectrumFault::BadOrder(row) => printed_row(3, "BadOrder", Some(row)),
            SpectrumFault::UnknownBus(row) => printed_row(4, "UnknownBus", Some(row)),
            SpectrumFault::BadDecimal(row) => printed_row(5, "BadDecimal", Some(row)),
            SpectrumFault::Repeated(row) => printed_row(6, "Repeated", Some(row)),
            SpectrumFault::BadPhase(row) => printed_row(7, "BadPhase", Some(row)),
            SpectrumFault::NoPath(row) => printed_row(8, "NoPath", Some(row)),
            SpectrumFault::NoMemory => printed_memory(),
        }
    }

    /// The number that is printed, from 1 in the order of the variants. The want of memory has none.
    pub fn number(self) -> Option<u32>
        ensures { result ≡ (spectrum_printed self).number }
    {
        self.printed().number
    }

    /// The name that is printed, which is the variant's.
    pub fn name(self) -> &'static str
        ensures name { result.now ≡ (spectrum_printed self).name }
        ensures len { length result.now ≤ 10 }
    {
        self.printed().name
    }

    /// The number of the row, from 1, where the fault is of a row.
    pub fn row(self) -> Option<u32>
        ensures { result ≡ (spectrum_printed self).row }
    {
        self.printed().row
    }
}

impl LevelsFault {
    ghost use Rattle.std.specs.Prelude.{◌≡◌, ◌≤◌, length};
    ghost use Rattle.spectrum_reader.specs.Faults.{levels_printed};

    fn printed(self) -> Printed
        ensures number { result.number ≡ (levels_printed self).number }
        ensures name { result.name.now ≡ (levels_printed self).name }
        ensures len { length result.name.now ≤ 10 }
        ensures row { result.row ≡ (levels_printed self).row }
    {
        match self {
            LevelsFault::BadHeader => printed_row(1, "BadHeader", None),
            LevelsFault::BadRow(row) => printed_row(2, "BadRow", Some(row)),
            LevelsFault::BadOrder(row) => printed_row(3, "BadOrder", Some(row)),
            LevelsFault::UnknownBus(row) => printed_row(4, "UnknownBus", Some(row)),
            LevelsFault::BadPercent(row) => printed_row(5, "BadPercent", Some(row)),
            LevelsFault::Repeated(row) => printed_row(6, "Repeated", Some(row)),
            LevelsFault::NoMemory => printed_memory(),
        }
    }

    /// The number that is printed, from 1 in the order of the variants. The want of memory has none.
    pub fn number(self) -> Option<u32>
        ensures { result ≡ (levels_printed self).number }
    {
        self.printed().number
    }

    /// The name that is printed, which is the variant's.
    pub fn name(self) -> &'static str
        ensures name { result.now ≡ (levels_printed self).name }
        ensures len { length result.now ≤ 10 }
    {
        self.printed().name
    }

    /// The number of the row, from 1, where the fault is of a row.
    pub fn row(self) -> Option<u32>
        ensures { result ≡ (levels_printed self).row }
    {
        self.printed().row
    }
}
