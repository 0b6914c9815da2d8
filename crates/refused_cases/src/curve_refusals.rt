// Scans of studies of version 2 that are refused, each with its refusal, and their keys in a study of version 1.

/// The header of a study of version 2.
pub const STUDY: &str = "study = { version = 2, mva = 100 }\n";

/// Scans of a study of version 2, beside a bus.
pub const SCAN_LISTS: [(&str, &str); 42] = [
    // The key of version 1, alone and beside those of version 2.
    (
        "scan = [{ name = \"s1\", bus = \"B1\", from = 1, to = 10, threshold = 20, finest = 1 }]",
        "4 UnknownKey scan 1 -",
    ),
    (
        "scan = [{ name = \"s1\", bus = \"B1\", from = 1, to = 10, threshold = 20, curve_at = 1 }]",
        "4 UnknownKey scan 1 -",
    ),
    (
        "scan = [{ name = \"s1\", bus = \"B1\", from = 1, to = 10, finest = 1 }]",
        "3 MissingKey scan 1 curve_at",
    ),
    (
        "scan = [{ name = \"s1\", bus = \"B1\", from = 1, to = 10, curve_at = 1, curve_ohms = 1 }]",
        "5 WrongKind scan 1 curve_at",
    ),
    (
        "scan = [{ name = \"s1\", bus = \"B1\", from = 1, to = 10, curve_at = \"1\" }]",
        "5 WrongKind scan 1 curve_at",
    ),
    (
        "scan = [{ name = \"s1\", bus = \"B1\", from = 1, to = 10, curve_at = { } }]",
        "5 WrongKind scan 1 curve_at",
    ),
    // Too few orders, and too many.
    (
        "scan = [{ name = \"s1\", bus = \"B1\", from = 1, to = 10, curve_at = [] }]",
        "8 OutOfRange scan 1 curve_at",
    ),
    (
        "scan = [{ name = \"s1\", bus = \"B1\", from = 1, to = 10, curve_at = [1] }]",
        "8 OutOfRange scan 1 curve_at",
    ),
    (
        "scan = [{ name = \"s1\", bus = \"B1\", from = 1, to = 10, curve_at = [1, 2, 3, 4, 5, 6, 7, 8, 9, 10, 11, 12, 13, 14, 15, 16, 17] }]",
        "8 OutOfRange scan 1 curve_at",
    ),
    // An order that is none.
    (
        "scan = [{ name = \"s1\", bus = \"B1\", from = 1, to = 10, curve_at = [1, 10.5] }]",
        "6 BareDecimal scan 1 curve_at",
    ),
    (
        "scan = [{ name = \"s1\", bus = \"B1\", from = 1, to = 10, curve_at = [1, \"ten\"] }]",
        "7 BadDecimal scan 1 curve_at",
    ),
    (
        "scan = [{ name = \"s1\", bus = \"B1\", from = 1, to = 10, curve_at = [1, true] }]",
        "5 WrongKind scan 1 curve_at",
    ),
    (
        "scan = [{ name = \"s1\", bus = \"B1\", from = 1, to = 10, curve_at = [1, [10]] }]",
        "5 WrongKind scan 1 curve_at",
    ),
    (
        "scan = [{ name = \"s1\", bus = \"B1\", from = 1, to = 10, curve_at = [\"0.099999\", 10] }]",
        "8 OutOfRange scan 1 curve_at",
    ),
    (
        "scan = [{ name = \"s1\", bus = \"B1\", from = 1, to = 10, curve_at = [1, \"100.000001\"] }]",
        "8 OutOfRange scan 1 curve_at",
    ),
    // The first order that is none.
    (
        "scan = [{ name = \"s1\", bus = \"B1\", from = 1, to = 10, curve_at = [\"ten\", 10.5] }]",
        "7 BadDecimal scan 1 curve_at",
    ),
    (
        "scan = [{ name = \"s1\", bus = \"B1\", from = 1, to = 10, curve_at = [10.5, \"ten\"] }]",
        "6 BareDecimal scan 1 curve_at",
    ),
    // The length before the orders, and these before how they rise.
    (
        "scan = [{ name = \"s1\", bus = \"B1\", from = 1, to = 10, curve_at = [true] }]",
        "8 OutOfRange scan 1 curve_at",
    ),
    (
        "scan = [{ name = \"s1\", bus = \"B1\", from = 1, to = 10, curve_at = [10, 1, true] }]",
        "5 WrongKind scan 1 curve_at",
    ),
    // Orders that do not rise, or do not reach over the band.
    (
        "scan = [{ name = \"s1\", bus = \"B1\", from = 1, to = 10, curve_at = [10, 1], curve_ohms = [1, 1] }]",
        "8 OutOfRange scan 1 curve_at",
    ),
    (
        "scan = [{ name = \"s1\", bus = \"B1\", from = 1, to = 10, curve_at = [1, 1, 10], curve_ohms = [1, 1, 1] }]",
        "8 OutOfRange scan 1 curve_at",
    ),
    (
        "scan = [{ name = \"s1\", bus = \"B1\", from = 1, to = 10, curve_at = [1, 7, 5, 10], curve_ohms = [1, 1, 1, 1] }]",
        "8 OutOfRange scan 1 curve_at",
    ),
    (
        "scan = [{ name = \"s1\", bus = \"B1\", from = 1, to = 10, curve_at = [\"2\", \"10\"], curve_ohms = [\"20\", \"20\"], finest = \"0.001\" }]",
        "8 OutOfRange scan 1 curve_at",
    ),
    (
        "scan = [{ name = \"s1\", bus = \"B1\", from = 1, to = 10, curve_at = [\"1.000001\", 10], curve_ohms = [1, 1] }]",
        "8 OutOfRange scan 1 curve_at",
    ),
    (
        "scan = [{ name = \"s1\", bus = \"B1\", from = 1, to = 10, curve_at = [1, \"9.999999\"], curve_ohms = [1, 1] }]",
        "8 OutOfRange scan 1 curve_at",
    ),
    // The orders whole before the ohms.
    (
        "scan = [{ name = \"s1\", bus = \"B1\", from = 1, to = 10, curve_at = [2, 10], curve_ohms = 1 }]",
        "8 OutOfRange scan 1 curve_at",
    ),
    (
        "scan = [{ name = \"s1\", bus = \"B1\", from = 1, to = 10, curve_at = [2, 10] }]",
        "8 OutOfRange scan 1 curve_at",
    ),
    (
        "scan = [{ name = \"s1\", bus = \"B1\", from = 1, to = 10, curve_at = [1, 10], finest = 0 }]",
        "3 MissingKey scan 1 curve_ohms",
    ),
    (
        "scan = [{ name = \"s1\", bus = \"B1\", from = 1, to = 10, curve_ohms = 1 }]",
        "3 MissingKey scan 1 curve_at",
    ),
    (
        "scan = [{ name = \"s1\", bus = \"B1\", from = 1, to = 10, curve_at = [1, 10], curve_ohms = 20 }]",
        "5 WrongKind scan 1 curve_ohms",
    ),
    (
        "scan = [{ name = \"s1\", bus = \"B1\", from = 1, to = 10, curve_at = [1, 10], curve_ohms = \"20\" }]",
        "5 WrongKind scan 1 curve_ohms",
    ),
    // Too few ohms, and too many.
    (
        "scan = [{ name = \"s1\", bus = \"B1\", from = 1, to = 10, curve_at = [1, 10], curve_ohms = [20] }]",
        "8 OutOfRange scan 1 curve_ohms",
    ),
    (
        "scan = [{ name = \"s1\", bus = \"B1\", from = 1, to = 10, curve_at = [1, 10], curve_ohms = [20, 20, 20] }]",
        "8 OutOfRange scan 1 curve_ohms",
    ),
    // Ohms that are none.
    (
        "scan = [{ name = \"s1\", bus = \"B1\", from = 1, to = 10, curve_at = [1, 10], curve_ohms = [20, 20.5] }]",
        "6 BareDecimal scan 1 curve_ohms",
    ),
    (
        "scan = [{ name = \"s1\", bus = \"B1\", from = 1, to = 10, curve_at = [1, 10], curve_ohms = [\"\", 20] }]",
        "7 BadDecimal scan 1 curve_ohms",
    ),
    (
        "scan = [{ name = \"s1\", bus = \"B1\", from = 1, to = 10, curve_at = [1, 10], curve_ohms = [20, { }] }]",
        "5 WrongKind scan 1 curve_ohms",
    ),
    (
        "scan = [{ name = \"s1\", bus = \"B1\", from = 1, to = 10, curve_at = [1, 10], curve_ohms = [20, 0] }]",
        "8 OutOfRange scan 1 curve_ohms",
    ),
    (
        "scan = [{ name = \"s1\", bus = \"B1\", from = 1, to = 10, curve_at = [1, 10], curve_ohms = [20, \"-1\"] }]",
        "8 OutOfRange scan 1 curve_ohms",
    ),
    (
        "scan = [{ name = \"s1\", bus = \"B1\", from = 1, to = 10, curve_at = [1, 10], curve_ohms = [0, 20.5] }]",
        "8 OutOfRange scan 1 curve_ohms",
    ),
    // Their number before each of them.
    (
        "scan = [{ name = \"s1\", bus = \"B1\", from = 1, to = 10, curve_at = [1, 10], curve_ohms = [true] }]",
        "8 OutOfRange scan 1 curve_ohms",
    ),
    // The curve stands between the band and the widths.
    (
        "scan = [{ name = \"s1\", bus = \"B1\", from = 1, to = 10, curve_at = [1, 10], curve_ohms = [20, 20] }]",
        "3 MissingKey scan 1 finest",
    ),
    (
        "scan = [{ name = \"s1\", bus = \"B1\", from = 1, to = 1, curve_at = 1 }]",
        "13 BadBand scan 1 to",
    ),
];

/// The keys of a curve in a study of version 1.
pub const OLDER_LISTS: [(&str, &str); 3] = [
    (
        "scan = [{ name = \"s1\", bus = \"B1\", from = 1, to = 10, curve_at = [1, 10], curve_ohms = [20, 20], finest = 1 }]",
        "4 UnknownKey scan 1 -",
    ),
    (
        "scan = [{ name = \"s1\", bus = \"B1\", from = 1, to = 10, threshold = 20, curve_at = [1, 10], finest = 1 }]",
        "4 UnknownKey scan 1 -",
    ),
    (
        "scan = [{ name = \"s1\", bus = \"B1\", from = 1, to = 10, threshold = 20, curve_ohms = [20, 20], finest = 1 }]",
        "4 UnknownKey scan 1 -",
    ),
];
