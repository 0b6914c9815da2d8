// Why a text or a whole number is no decimal.

/// Why a text or a whole number is no decimal.
#[derive(Clone, Copy, Debug, PartialEq, Eq)]
pub enum DecimalFault {
    /// The text has no byte.
    Empty,
    /// The text is not in the grammar: the place, from 0, of the first byte that no decimal has there, or the text's length where it only ends too early.
    BadByte(u32),
    /// More than six digits stand after the point.
    TooManyPlaces,
    /// The value's size is 1,000,000 or more.
    TooLarge,
}
