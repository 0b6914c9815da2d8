// Candidates, tolerances and outages that are refused, each with its refusal.

/// A bank, a scan of the positive network and one of the zero network.
pub const SCANS: &str =
    "bank = [{ name = \"K1\", bus = \"B2\", q = 1 }]\nscan = [{ name = \"s1\", bus = \"B1\", from = 1, to = 2, threshold = 1, finest = 1 }, { name = \"s2\", bus = \"B1\", network = \"zero\", from = 1, to = 2, threshold = 1, finest = 1 }]\n";

/// A scan of a phase.
pub const PHASE_SCAN: &str =
    "scan = [{ name = \"s1\", bus = \"B1\", phase = \"a\", from = 1, to = 2, threshold = 1, finest = 1 }]\n";

/// Candidates, beside three buses, a source at the first one, a bank at the second one and these scans.
pub const CANDIDATE_LISTS: [(&str, &str); 32] = [
    ("candidate = 1", "5 WrongKind candidate 0 -"),
    (
        "[candidate]\nscan = \"s1\"\nsizes = [4]",
        "5 WrongKind candidate 0 -",
    ),
    ("candidate = [1]", "5 WrongKind candidate 1 -"),
    ("candidate = [{ }]", "3 MissingKey candidate 1 scan"),
    (
        "candidate = [{ name = \"C1\", scan = \"s1\", sizes = [4] }]",
        "4 UnknownKey candidate 1 -",
    ),
    (
        "candidate = [{ scan = 1, q = 1 }]",
        "4 UnknownKey candidate 1 -",
    ),
    (
        "candidate = [{ scan = 1, sizes = 1 }]",
        "5 WrongKind candidate 1 scan",
    ),
    (
        "candidate = [{ scan = \"\", sizes = 1 }]",
        "9 BadName candidate 1 scan",
    ),
    (
        "candidate = [{ scan = \"s 1\", sizes = 1 }]",
        "9 BadName candidate 1 scan",
    ),
    // No scan of the name, though a bus, a source and a bank have these.
    (
        "candidate = [{ scan = \"s9\", sizes = [] }]",
        "19 UnknownScan candidate 1 scan",
    ),
    (
        "candidate = [{ scan = \"B1\", sizes = [4] }]",
        "19 UnknownScan candidate 1 scan",
    ),
    (
        "candidate = [{ scan = \"S1\", sizes = [4] }]",
        "19 UnknownScan candidate 1 scan",
    ),
    (
        "candidate = [{ scan = \"K1\", sizes = [4] }]",
        "19 UnknownScan candidate 1 scan",
    ),
    // The scan of the zero network.
    (
        "candidate = [{ scan = \"s2\", sizes = [] }]",
        "8 OutOfRange candidate 1 scan",
    ),
    (
        "candidate = [{ scan = \"s1\" }]",
        "3 MissingKey candidate 1 sizes",
    ),
    (
        "candidate = [{ scan = \"s1\", sizes = 4 }]",
        "5 WrongKind candidate 1 sizes",
    ),
    (
        "candidate = [{ scan = \"s1\", sizes = \"4\" }]",
        "5 WrongKind candidate 1 sizes",
    ),
    (
        "candidate = [{ scan = \"s1\", sizes = { } }]",
        "5 WrongKind candidate 1 sizes",
    ),
    // Too few sizes, and too many, before any of them.
    (
        "candidate = [{ scan = \"s1\", sizes = [] }]",
        "8 OutOfRange candidate 1 sizes",
    ),
    (
        "candidate = [{ scan = \"s1\", sizes = [1, 1, 1, 1, 1, 1, 1, 1, 1, 1, 1, 1, 1, 1, 1, 1, 1, 1, 1, 1, 1, 1, 1, 1, 1, 1, 1, 1, 1, 1, 1, 1, 1, 1, 1, 1, 1, 1, 1, 1, 1, 1, 1, 1, 1, 1, 1, 1, 1, 1, 1, 1, 1, 1, 1, 1, 1, 1, 1, 1, 1, 1, 1, 1, 1] }]",
        "8 OutOfRange candidate 1 sizes",
    ),
    (
        "candidate = [{ scan = \"s1\", sizes = [true, 1, 1, 1, 1, 1, 1, 1, 1, 1, 1, 1, 1, 1, 1, 1, 1, 1, 1, 1, 1, 1, 1, 1, 1, 1, 1, 1, 1, 1, 1, 1, 1, 1, 1, 1, 1, 1, 1, 1, 1, 1, 1, 1, 1, 1, 1, 1, 1, 1, 1, 1, 1, 1, 1, 1, 1, 1, 1, 1, 1, 1, 1, 1, 1] }]",
        "8 OutOfRange candidate 1 sizes",
    ),
    (
        "candidate = [{ scan = \"s1\", sizes = [true, 1, 1, 1, 1, 1, 1, 1, 1, 1, 1, 1, 1, 1, 1, 1, 1, 1, 1, 1, 1, 1, 1, 1, 1, 1, 1, 1, 1, 1, 1, 1, 1, 1, 1, 1, 1, 1, 1, 1, 1, 1, 1, 1, 1, 1, 1, 1, 1, 1, 1, 1, 1, 1, 1, 1, 1, 1, 1, 1, 1, 1, 1, 1] }]",
        "5 WrongKind candidate 1 sizes",
    ),
    (
        "candidate = [{ scan = \"s1\", sizes = [1, 1, 1, 1, 1, 1, 1, 1, 1, 1, 1, 1, 1, 1, 1, 1, 1, 1, 1, 1, 1, 1, 1, 1, 1, 1, 1, 1, 1, 1, 1, 1, 1, 1, 1, 1, 1, 1, 1, 1, 1, 1, 1, 1, 1, 1, 1, 1, 1, 1, 1, 1, 1, 1, 1, 1, 1, 1, 1, 1, 1, 1, 1, 1] }, { }]",
        "3 MissingKey candidate 2 scan",
    ),
    // A size that is none, the first one.
    (
        "candidate = [{ scan = \"s1\", sizes = [4, 0] }]",
        "8 OutOfRange candidate 1 sizes",
    ),
    (
        "candidate = [{ scan = \"s1\", sizes = [\"-1\"] }]",
        "8 OutOfRange candidate 1 sizes",
    ),
    (
        "candidate = [{ scan = \"s1\", sizes = [\"0.0000001\"] }]",
        "7 BadDecimal candidate 1 sizes",
    ),
    (
        "candidate = [{ scan = \"s1\", sizes = [1000000] }]",
        "7 BadDecimal candidate 1 sizes",
    ),
    (
        "candidate = [{ scan = \"s1\", sizes = [4, 0.5] }]",
        "6 BareDecimal candidate 1 sizes",
    ),
    (
        "candidate = [{ scan = \"s1\", sizes = [4, [4]] }]",
        "5 WrongKind candidate 1 sizes",
    ),
    (
        "candidate = [{ scan = \"s1\", sizes = [\"four\", 4.5] }]",
        "7 BadDecimal candidate 1 sizes",
    ),
    (
        "candidate = [{ scan = \"s1\", sizes = [4.5, \"four\"] }]",
        "6 BareDecimal candidate 1 sizes",
    ),
    // Two candidates may be of one scan.
    (
        "candidate = [{ scan = \"s1\", sizes = [\"0.000001\", \"999999.999999\"] }, { scan = \"s1\", sizes = [4, 4] }, { scan = \"s2\" }]",
        "8 OutOfRange candidate 3 scan",
    ),
];

/// Tolerances beside the same.
pub const TOLERANCE_LISTS: [(&str, &str); 17] = [
    ("tolerance = 1", "5 WrongKind tolerance 0 -"),
    ("tolerance = [\"S1\"]", "5 WrongKind tolerance 1 -"),
    (
        "tolerance = [{ permille = 1 }]",
        "3 MissingKey tolerance 1 element",
    ),
    (
        "tolerance = [{ name = \"t1\", element = \"S1\", permille = 1 }]",
        "4 UnknownKey tolerance 1 -",
    ),
    (
        "tolerance = [{ element = 1, permille = 0 }]",
        "5 WrongKind tolerance 1 element",
    ),
    (
        "tolerance = [{ element = \"\", permille = 0 }]",
        "9 BadName tolerance 1 element",
    ),
    // No element of the name, though a bus and a scan have these.
    (
        "tolerance = [{ element = \"S9\", permille = 0 }]",
        "18 UnknownElement tolerance 1 element",
    ),
    (
        "tolerance = [{ element = \"B1\", permille = 1 }]",
        "18 UnknownElement tolerance 1 element",
    ),
    (
        "tolerance = [{ element = \"s1\", permille = 1 }]",
        "18 UnknownElement tolerance 1 element",
    ),
    (
        "tolerance = [{ element = \"S1\" }]",
        "3 MissingKey tolerance 1 permille",
    ),
    (
        "tolerance = [{ element = \"S1\", permille = 100.0 }]",
        "5 WrongKind tolerance 1 permille",
    ),
    (
        "tolerance = [{ element = \"S1\", permille = \"100\" }]",
        "5 WrongKind tolerance 1 permille",
    ),
    (
        "tolerance = [{ element = \"S1\", permille = 0 }]",
        "8 OutOfRange tolerance 1 permille",
    ),
    (
        "tolerance = [{ element = \"S1\", permille = 501 }]",
        "8 OutOfRange tolerance 1 permille",
    ),
    (
        "tolerance = [{ element = \"S1\", permille = -1 }]",
        "8 OutOfRange tolerance 1 permille",
    ),
    (
        "tolerance = [{ element = \"S1\", permille = 4294967297 }]",
        "8 OutOfRange tolerance 1 permille",
    ),
    // An element twice, before its thousandths.
    (
        "tolerance = [{ element = \"S1\", permille = 500 }, { element = \"K1\", permille = 1 }, { element = \"S1\" }]",
        "8 OutOfRange tolerance 3 element",
    ),
];

/// Outages beside the same.
pub const OUTAGE_LISTS: [(&str, &str); 14] = [
    ("outage = \"S1\"", "5 WrongKind outage 0 -"),
    ("outage = [\"S1\"]", "5 WrongKind outage 1 -"),
    ("outage = [{ }]", "3 MissingKey outage 1 element"),
    (
        "outage = [{ element = \"S1\", permille = 1 }]",
        "4 UnknownKey outage 1 -",
    ),
    (
        "outage = [{ element = true }]",
        "5 WrongKind outage 1 element",
    ),
    (
        "outage = [{ element = \"S1!\" }]",
        "9 BadName outage 1 element",
    ),
    (
        "outage = [{ element = \"ZZ\" }]",
        "18 UnknownElement outage 1 element",
    ),
    (
        "outage = [{ element = \"B1\" }]",
        "18 UnknownElement outage 1 element",
    ),
    (
        "outage = [{ element = \"s1\" }]",
        "18 UnknownElement outage 1 element",
    ),
    // An element twice, though it may have a tolerance too.
    (
        "tolerance = [{ element = \"K1\", permille = 1 }]\noutage = [{ element = \"S1\" }, { element = \"K1\" }, { element = \"S1\" }]",
        "8 OutOfRange outage 3 element",
    ),
    // The sections in order, whatever their order in the text.
    (
        "outage = 1\ntolerance = 1\ncandidate = 1\npcc = 1",
        "5 WrongKind pcc 0 -",
    ),
    (
        "outage = 1\ntolerance = 1\ncandidate = 1",
        "5 WrongKind candidate 0 -",
    ),
    (
        "outage = 1\ntolerance = 1\ncandidate = []",
        "5 WrongKind tolerance 0 -",
    ),
    ("outage = 1\ntolerance = []", "5 WrongKind outage 0 -"),
];

/// All three in the phases model, beside three buses, a source at the first one and a scan of a phase.
pub const PHASE_LISTS: [(&str, &str); 10] = [
    (
        "candidate = [{ scan = \"s9\", sizes = [4] }]",
        "19 UnknownScan candidate 1 scan",
    ),
    (
        "candidate = [{ scan = \"s1\", sizes = [4] }]",
        "8 OutOfRange candidate 1 scan",
    ),
    (
        "tolerance = [{ permille = 1 }]",
        "3 MissingKey tolerance 1 element",
    ),
    (
        "tolerance = [{ element = 1, permille = 1 }]",
        "5 WrongKind tolerance 1 element",
    ),
    // No text is in range, be it a name or not.
    (
        "tolerance = [{ element = \"\", permille = 1 }]",
        "8 OutOfRange tolerance 1 element",
    ),
    (
        "tolerance = [{ element = \"S9\", permille = 1 }]",
        "8 OutOfRange tolerance 1 element",
    ),
    (
        "tolerance = [{ element = \"S1\", permille = 1 }]",
        "8 OutOfRange tolerance 1 element",
    ),
    // Outages belong to both models.
    (
        "outage = [{ element = \"\" }]",
        "9 BadName outage 1 element",
    ),
    (
        "outage = [{ element = \"S9\" }]",
        "18 UnknownElement outage 1 element",
    ),
    (
        "outage = [{ element = \"S1\" }, { element = \"S1\" }]",
        "8 OutOfRange outage 2 element",
    ),
];

/// A scan of a curve.
pub const CURVE_SCAN: &str =
    "scan = [{ name = \"s1\", bus = \"B1\", from = 1, to = 2, curve_at = [1, 2], curve_ohms = [1, 1], finest = 1 }]\n";

/// All three in a study of version 2, beside three buses, a source at the first one and a scan of a curve.
pub const NEWER_LISTS: [(&str, &str); 4] = [
    (
        "candidate = [{ scan = \"s1\", sizes = [4] }, { }]",
        "3 MissingKey candidate 2 scan",
    ),
    (
        "candidate = [{ scan = \"s9\", sizes = [4] }]",
        "19 UnknownScan candidate 1 scan",
    ),
    (
        "tolerance = [{ element = \"S1\", permille = 501 }]",
        "8 OutOfRange tolerance 1 permille",
    ),
    (
        "outage = [{ element = \"S1\" }, { element = \"S1\" }]",
        "8 OutOfRange outage 2 element",
    ),
];
