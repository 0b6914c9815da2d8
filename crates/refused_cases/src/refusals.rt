// Studies that are refused, each with its refusal.

/// The header of a study of the sequence model.
pub const STUDY: &str = "study = { version = 1, mva = 100 }\n";

/// The header of a study of the phases model.
pub const PHASES: &str = "study = { version = 1, mva = 100, model = \"phases\" }\n";

/// Two buses of 10 kV and one of 33 kV.
pub const BUSES: &str =
    "bus = [{ name = \"B1\", kv = 10 }, { name = \"B2\", kv = 10 }, { name = \"B3\", kv = 33 }]\n";

/// One bus of 10 kV.
pub const ONE_BUS: &str = "bus = [{ name = \"B1\", kv = 10 }]\n";

/// A source at the first bus.
pub const SOURCE: &str = "source = [{ name = \"S1\", bus = \"B1\", r = 0, x = 1 }]\n";

/// Documents as a whole.
pub const DOCUMENTS: [(&str, &str); 12] = [
    ("", "3 MissingKey study 0 -"),
    ("# nothing\n", "3 MissingKey study 0 -"),
    ("[study", "1 NotToml"),
    ("zz = 1\nstudy = 1\n", "4 UnknownKey top 0 -"),
    ("zz = 1\naa = 2\n", "4 UnknownKey top 0 -"),
    ("study = 1\nbus = 1\n", "5 WrongKind study 0 -"),
    (
        "[[study]]\nversion = 1\nmva = 100\n",
        "5 WrongKind study 0 -",
    ),
    ("[study]\nversion = 1\nmva = 100\n", "3 MissingKey bus 0 -"),
    (
        "bus = []\n[study]\nversion = 1\nmva = 100\n",
        "3 MissingKey bus 0 -",
    ),
    (
        "bus = 1\n[study]\nversion = 1\nmva = 100\n",
        "5 WrongKind bus 0 -",
    ),
    (
        "[study]\nversion = 1\nmva = 100\n[bus]\nname = \"B1\"\nkv = 10\n",
        "5 WrongKind bus 0 -",
    ),
    (
        "bus = [1]\n[study]\nversion = 1\nmva = 100\n",
        "5 WrongKind bus 1 -",
    ),
];

/// The entries of the table `study`, before one bus.
pub const HEADERS: [(&str, &str); 34] = [
    ("mva = 100", "3 MissingKey study 1 version"),
    ("version = 3, mva = 100", "2 VersionUnknown"),
    ("version = 0", "2 VersionUnknown"),
    ("version = -1", "2 VersionUnknown"),
    ("version = 1.0", "5 WrongKind study 1 version"),
    ("version = \"1\"", "5 WrongKind study 1 version"),
    ("version = 3, zz = 1", "4 UnknownKey study 1 -"),
    ("version = 1", "3 MissingKey study 1 mva"),
    ("version = 2", "3 MissingKey study 1 mva"),
    ("version = 1, mva = true", "5 WrongKind study 1 mva"),
    ("version = 1, mva = 100.0", "6 BareDecimal study 1 mva"),
    ("version = 1, mva = \"\"", "7 BadDecimal study 1 mva"),
    ("version = 1, mva = \"1e2\"", "7 BadDecimal study 1 mva"),
    (
        "version = 1, mva = \"0.1234567\"",
        "7 BadDecimal study 1 mva",
    ),
    ("version = 1, mva = 1000000", "7 BadDecimal study 1 mva"),
    (
        "version = 1, mva = \"0.000999\"",
        "8 OutOfRange study 1 mva",
    ),
    (
        "version = 1, mva = \"10000.000001\"",
        "8 OutOfRange study 1 mva",
    ),
    (
        "version = 1, mva = 100, hz = \"0.999999\"",
        "8 OutOfRange study 1 hz",
    ),
    (
        "version = 1, mva = 100, hz = \"1000.000001\"",
        "8 OutOfRange study 1 hz",
    ),
    (
        "version = 1, mva = 100, model = \"phase\"",
        "5 WrongKind study 1 model",
    ),
    (
        "version = 1, mva = 100, model = 1",
        "5 WrongKind study 1 model",
    ),
    (
        "version = 1, mva = 100, scale = 44",
        "8 OutOfRange study 1 scale",
    ),
    (
        "version = 1, mva = 100, scale = -40",
        "8 OutOfRange study 1 scale",
    ),
    (
        "version = 1, mva = 100, scale = 40.0",
        "5 WrongKind study 1 scale",
    ),
    (
        "version = 1, mva = 100, method = \"Both\"",
        "5 WrongKind study 1 method",
    ),
    (
        "version = 1, mva = 100, method = \"inverse\"",
        "5 WrongKind study 1 method",
    ),
    (
        "version = 1, mva = 100, method = \"branch-wise\"",
        "5 WrongKind study 1 method",
    ),
    (
        "version = 1, mva = 100, method = true",
        "5 WrongKind study 1 method",
    ),
    (
        "version = 1, mva = 100, root3 = \"1.699999\"",
        "8 OutOfRange study 1 root3",
    ),
    (
        "version = 1, mva = 100, root3 = \"1.800001\"",
        "8 OutOfRange study 1 root3",
    ),
    // Two faults at once.
    ("version = 1, mva = 0, hz = 0", "8 OutOfRange study 1 mva"),
    (
        "version = 1, hz = 0, scale = 41",
        "3 MissingKey study 1 mva",
    ),
    (
        "version = 1, mva = 100, scale = 41, method = \"inverse\"",
        "8 OutOfRange study 1 scale",
    ),
    ("version = 1.0, mva = 100, zz = 1", "4 UnknownKey study 1 -"),
];

/// Buses.
pub const BUS_LISTS: [(&str, &str); 15] = [
    ("bus = [{ kv = 10 }]", "3 MissingKey bus 1 name"),
    ("bus = [{ name = 1, kv = 10 }]", "5 WrongKind bus 1 name"),
    ("bus = [{ name = \"\", kv = 10 }]", "9 BadName bus 1 name"),
    (
        "bus = [{ name = \"a b\", kv = 10 }]",
        "9 BadName bus 1 name",
    ),
    (
        "bus = [{ name = \"a23456789012345678901234567890123\", kv = 10 }]",
        "9 BadName bus 1 name",
    ),
    ("bus = [{ name = \"B1\" }]", "3 MissingKey bus 1 kv"),
    (
        "bus = [{ name = \"B1\", kv = 10.5 }]",
        "6 BareDecimal bus 1 kv",
    ),
    (
        "bus = [{ name = \"B1\", kv = \"0.099999\" }]",
        "8 OutOfRange bus 1 kv",
    ),
    (
        "bus = [{ name = \"B1\", kv = \"2000.000001\" }]",
        "8 OutOfRange bus 1 kv",
    ),
    // Texts of more than 64 bytes: one too large, and one below the range.
    (
        "bus = [{ name = \"B1\", kv = \"1111111111111111111111111111111111111111111111111111111111111111111111\" }]",
        "7 BadDecimal bus 1 kv",
    ),
    (
        "bus = [{ name = \"B1\", kv = \"000000000000000000000000000000000000000000000000000000000000000000.05\" }]",
        "8 OutOfRange bus 1 kv",
    ),
    (
        "bus = [{ name = \"B1\", kv = 10, x = 1 }]",
        "4 UnknownKey bus 1 -",
    ),
    (
        "bus = [{ name = \"B1\", kv = 10 }, { name = \"B1\", kv = 10 }]",
        "10 DuplicateName bus 2 name",
    ),
    // The first entry's fault comes before the second one's.
    (
        "bus = [{ name = \"B1\", kv = 0 }, { name = \"B1\", kv = 10 }]",
        "8 OutOfRange bus 1 kv",
    ),
    (
        "bus = [{ name = \"B1\", kv = 10 }, 5]",
        "5 WrongKind bus 2 -",
    ),
];

/// Sources, beside three buses.
pub const SOURCE_LISTS: [(&str, &str); 19] = [
    ("source = 1", "5 WrongKind source 0 -"),
    ("source = [{}]", "3 MissingKey source 1 name"),
    (
        "source = [{ name = \"B3\" }]",
        "10 DuplicateName source 1 name",
    ),
    ("source = [{ name = \"S1\" }]", "3 MissingKey source 1 bus"),
    (
        "source = [{ name = \"S1\", bus = 1 }]",
        "5 WrongKind source 1 bus",
    ),
    (
        "source = [{ name = \"S1\", bus = \"\" }]",
        "9 BadName source 1 bus",
    ),
    (
        "source = [{ name = \"S1\", bus = \"B9\" }]",
        "11 UnknownBus source 1 bus",
    ),
    (
        "source = [{ name = \"S1\", bus = \"B1\", x = 1 }]",
        "3 MissingKey source 1 r",
    ),
    (
        "source = [{ name = \"S1\", bus = \"B1\", r = \"-0.000001\", x = 1 }]",
        "8 OutOfRange source 1 r",
    ),
    (
        "source = [{ name = \"S1\", bus = \"B1\", r = 0, x = 0 }]",
        "8 OutOfRange source 1 x",
    ),
    (
        "source = [{ name = \"S1\", bus = \"B1\", r = 0, x = 1, r0 = 0 }]",
        "3 MissingKey source 1 x0",
    ),
    (
        "source = [{ name = \"S1\", bus = \"B1\", r = 0, x = 1, x0 = 1.5 }]",
        "3 MissingKey source 1 r0",
    ),
    (
        "source = [{ name = \"S1\", bus = \"B1\", r = 0, x = 1, r0 = \"-1\" }]",
        "8 OutOfRange source 1 r0",
    ),
    (
        "source = [{ name = \"S1\", bus = \"B1\", r = 0, x = 1, r0 = 0, x0 = 0 }]",
        "8 OutOfRange source 1 x0",
    ),
    (
        "source = [{ name = \"S1\", bus = \"B1\", r = 0, x = 1, skin_k = \"100.000001\" }]",
        "8 OutOfRange source 1 skin_k",
    ),
    (
        "source = [{ name = \"S1\", bus = \"B1\", r = 0, x = 1, skin_m = 0 }]",
        "8 OutOfRange source 1 skin_m",
    ),
    (
        "source = [{ name = \"S1\", bus = \"B1\", r = 0, x = 1, skin_m = \"5000.000001\" }]",
        "8 OutOfRange source 1 skin_m",
    ),
    // The source's fault comes before that of the bank, and an unknown key before all listed ones.
    (
        "bank = [{ name = \"B1\", bus = \"B1\", q = 1 }]\nsource = [{ name = \"S1\", bus = \"B1\", r = \"0.1234567\", x = 1 }]",
        "7 BadDecimal source 1 r",
    ),
    (
        "source = [{ name = \"\", bus = \"B9\", q = 1 }]",
        "4 UnknownKey source 1 -",
    ),
];

/// Lines, beside three buses and a source.
pub const LINE_LISTS: [(&str, &str); 17] = [
    (
        "line = [{ name = \"L1\", from = \"B1\", to = \"B9\", r = 0, x = 1 }]",
        "11 UnknownBus line 1 to",
    ),
    (
        "line = [{ name = \"L1\", from = \"B9\", to = \"B1\", r = 0, x = 1 }]",
        "11 UnknownBus line 1 from",
    ),
    (
        "line = [{ name = \"L1\", from = \"B1\", to = \"B1\", r = 0, x = 1 }]",
        "8 OutOfRange line 1 to",
    ),
    (
        "line = [{ name = \"L1\", from = \"B1\", to = \"B3\", r = 0, x = 1 }]",
        "8 OutOfRange line 1 to",
    ),
    (
        "line = [{ name = \"L1\", from = \"B1\", to = \"B2\", r = 0, x = 0 }]",
        "8 OutOfRange line 1 x",
    ),
    (
        "line = [{ name = \"L1\", from = \"B1\", to = \"B2\", r = 0, x = 1, b = \"-1\" }]",
        "8 OutOfRange line 1 b",
    ),
    (
        "line = [{ name = \"L1\", from = \"B1\", to = \"B2\", r = 0, x = 1, b = 1, b0 = \"1.000001\" }]",
        "8 OutOfRange line 1 b0",
    ),
    (
        "line = [{ name = \"L1\", from = \"B1\", to = \"B2\", r = 0, x = 1, sections = 0 }]",
        "8 OutOfRange line 1 sections",
    ),
    (
        "line = [{ name = \"L1\", from = \"B1\", to = \"B2\", r = 0, x = 1, sections = 65 }]",
        "8 OutOfRange line 1 sections",
    ),
    (
        "line = [{ name = \"L1\", from = \"B1\", to = \"B2\", r = 0, x = 1, sections = 2.0 }]",
        "5 WrongKind line 1 sections",
    ),
    (
        "line = [{ name = \"L1\", from = \"B1\", to = \"B2\", r = 0, x = 1, xab = 1 }]",
        "4 UnknownKey line 1 xab",
    ),
    // A key of another model is named itself, whatever others of its group are absent.
    (
        "line = [{ name = \"L1\", from = \"B1\", to = \"B2\", r = 0, x = 1, xbc = 1 }]",
        "4 UnknownKey line 1 xbc",
    ),
    (
        "line = [{ name = \"L1\", from = \"B1\", to = \"B2\", r = 0, x = 1, xca = 1.5 }]",
        "4 UnknownKey line 1 xca",
    ),
    (
        "line = [{ name = \"L1\", from = \"B1\", to = \"B2\", r = 0, x = 1, r0 = 1 }]",
        "3 MissingKey line 1 x0",
    ),
    (
        "line = [{ name = \"S1\", from = \"B1\", to = \"B2\", r = 0, x = 1 }]",
        "10 DuplicateName line 1 name",
    ),
    (
        "line = [{ name = \"L1\", from = \"B1\", to = \"B2\", r = 0, x = 1 }, { name = \"L1\", from = \"B1\", to = \"B2\", r = 0, x = 1 }]",
        "10 DuplicateName line 2 name",
    ),
    (
        "line = [{ name = \"L1\", from = \"B1\", to = \"B2\", r = 0, x = 1, skin_k = \"-0.000001\" }]",
        "8 OutOfRange line 1 skin_k",
    ),
];

/// Transformers, beside three buses and a source.
pub const TRANSFORMER_LISTS: [(&str, &str); 14] = [
    (
        "transformer = [{ name = \"T1\", from = \"B1\", to = \"B1\", mva = 10, r = 0, x = 10 }]",
        "8 OutOfRange transformer 1 to",
    ),
    (
        "transformer = [{ name = \"T1\", from = \"B1\", to = \"B3\", mva = 0, r = 0, x = 10 }]",
        "8 OutOfRange transformer 1 mva",
    ),
    (
        "transformer = [{ name = \"T1\", from = \"B1\", to = \"B3\", mva = 10, r = \"100.000001\", x = 10 }]",
        "8 OutOfRange transformer 1 r",
    ),
    (
        "transformer = [{ name = \"T1\", from = \"B1\", to = \"B3\", mva = 10, r = 0, x = 0 }]",
        "8 OutOfRange transformer 1 x",
    ),
    (
        "transformer = [{ name = \"T1\", from = \"B1\", to = \"B3\", mva = 10, r = 0, x = \"100.000001\" }]",
        "8 OutOfRange transformer 1 x",
    ),
    (
        "transformer = [{ name = \"T1\", from = \"B1\", to = \"B3\", mva = 10, r = 0, x = 10, ratio = \"0.499999\" }]",
        "8 OutOfRange transformer 1 ratio",
    ),
    (
        "transformer = [{ name = \"T1\", from = \"B1\", to = \"B3\", mva = 10, r = 0, x = 10, ratio = \"2.000001\" }]",
        "8 OutOfRange transformer 1 ratio",
    ),
    (
        "transformer = [{ name = \"T1\", from = \"B1\", to = \"B3\", mva = 10, r = 0, x = 10, from_conn = \"wye\" }]",
        "5 WrongKind transformer 1 from_conn",
    ),
    (
        "transformer = [{ name = \"T1\", from = \"B1\", to = \"B3\", mva = 10, r = 0, x = 10, to_conn = 1 }]",
        "5 WrongKind transformer 1 to_conn",
    ),
    (
        "transformer = [{ name = \"T1\", from = \"B1\", to = \"B3\", mva = 10, r = 0, x = 10, from_rn = 1 }]",
        "4 UnknownKey transformer 1 from_rn",
    ),
    (
        "transformer = [{ name = \"T1\", from = \"B1\", to = \"B3\", mva = 10, r = 0, x = 10, from_conn = \"grounded\", to_conn = \"delta\", to_xn = 1 }]",
        "4 UnknownKey transformer 1 to_xn",
    ),
    (
        "transformer = [{ name = \"T1\", from = \"B1\", to = \"B3\", mva = 10, r = 0, x = 10, from_conn = \"grounded\", from_xn = \"-1\" }]",
        "8 OutOfRange transformer 1 from_xn",
    ),
    (
        "transformer = [{ name = \"T1\", from = \"B1\", to = \"B3\", r = 0, x = 10 }]",
        "3 MissingKey transformer 1 mva",
    ),
    (
        "transformer = [{ name = \"T1\", from = \"B1\", to = \"B3\", mva = 10, x = 10, ratio = 9 }]",
        "3 MissingKey transformer 1 r",
    ),
];

/// Loads, banks and filters, beside three buses and a source.
pub const LOAD_LISTS: [(&str, &str); 27] = [
    (
        "load = [{ name = \"D1\", bus = \"B1\" }]",
        "3 MissingKey load 1 model",
    ),
    (
        "load = [{ name = \"D1\", bus = \"B1\", model = \"pq\" }]",
        "5 WrongKind load 1 model",
    ),
    (
        "load = [{ name = \"D1\", bus = \"B1\", model = \"cigre\", q = 1 }]",
        "3 MissingKey load 1 p",
    ),
    (
        "load = [{ name = \"D1\", bus = \"B1\", model = \"cigre\", p = 1 }]",
        "3 MissingKey load 1 q",
    ),
    (
        "load = [{ name = \"D1\", bus = \"B1\", model = \"cigre\", p = 0, q = 1 }]",
        "8 OutOfRange load 1 p",
    ),
    (
        "load = [{ name = \"D1\", bus = \"B1\", model = \"parallel\", p = 0, q = 0 }]",
        "8 OutOfRange load 1 q",
    ),
    (
        "load = [{ name = \"D1\", bus = \"B1\", model = \"parallel\", p = 1, q = 0, r = 1 }]",
        "4 UnknownKey load 1 r",
    ),
    (
        "load = [{ name = \"D1\", bus = \"B1\", model = \"series\", p = 1, r = 1, x = 1 }]",
        "4 UnknownKey load 1 p",
    ),
    (
        "load = [{ name = \"D1\", bus = \"B1\", model = \"series\", x = 1 }]",
        "3 MissingKey load 1 r",
    ),
    (
        "load = [{ name = \"D1\", bus = \"B1\", model = \"series\", r = 0, x = 0 }]",
        "8 OutOfRange load 1 x",
    ),
    (
        "load = [{ name = \"D1\", bus = \"B1\", model = \"cigre\", p = 1, q = 1, grounded = 1 }]",
        "5 WrongKind load 1 grounded",
    ),
    (
        "load = [{ name = \"D1\", bus = \"B1\", model = \"cigre\", p = 1, q = 1, phase = \"a\" }]",
        "4 UnknownKey load 1 phase",
    ),
    (
        "bank = [{ name = \"K1\", bus = \"B1\", q = 0 }]",
        "8 OutOfRange bank 1 q",
    ),
    (
        "bank = [{ name = \"K1\", bus = \"B1\", q = 4.0 }]",
        "6 BareDecimal bank 1 q",
    ),
    (
        "bank = [{ name = \"K1\", bus = \"B1\", q = \"-4\" }]",
        "8 OutOfRange bank 1 q",
    ),
    (
        "bank = [{ name = \"K1\", bus = \"B1\" }]",
        "3 MissingKey bank 1 q",
    ),
    (
        "bank = [{ name = \"K1\", bus = \"B1\", q = 4, grounded = \"true\" }]",
        "5 WrongKind bank 1 grounded",
    ),
    (
        "bank = [{ name = \"K1\", bus = \"B1\", q = 4, phase = \"b\" }]",
        "4 UnknownKey bank 1 phase",
    ),
    (
        "filter = [{ name = \"F1\", bus = \"B1\", kind = \"notch\", q = 4, order = 5, quality = 50 }]",
        "5 WrongKind filter 1 kind",
    ),
    (
        "filter = [{ name = \"F1\", bus = \"B1\", kind = \"single\", q = 0, order = 5, quality = 50 }]",
        "8 OutOfRange filter 1 q",
    ),
    (
        "filter = [{ name = \"F1\", bus = \"B1\", kind = \"single\", q = 4, order = 1, quality = 50 }]",
        "8 OutOfRange filter 1 order",
    ),
    (
        "filter = [{ name = \"F1\", bus = \"B1\", kind = \"single\", q = 4, order = \"100.000001\", quality = 50 }]",
        "8 OutOfRange filter 1 order",
    ),
    (
        "filter = [{ name = \"F1\", bus = \"B1\", kind = \"ctype\", q = 4, order = 5, quality = \"0.099999\" }]",
        "8 OutOfRange filter 1 quality",
    ),
    (
        "filter = [{ name = \"F1\", bus = \"B1\", kind = \"ctype\", q = 4, order = 5, quality = \"1000.000001\" }]",
        "8 OutOfRange filter 1 quality",
    ),
    (
        "filter = [{ name = \"F1\", bus = \"B1\", kind = \"highpass\", q = 4, order = 5 }]",
        "3 MissingKey filter 1 quality",
    ),
    // A load's fault comes before that of a bank with the same name.
    (
        "bank = [{ name = \"D1\", bus = \"B1\", q = 0 }]\nload = [{ name = \"D1\", bus = \"B7\", model = \"cigre\", p = 1, q = 1 }]",
        "11 UnknownBus load 1 bus",
    ),
    (
        "bank = [{ name = \"D1\", bus = \"B1\", q = 4 }]\nload = [{ name = \"D1\", bus = \"B1\", model = \"cigre\", p = 1, q = 1 }]",
        "10 DuplicateName bank 1 name",
    ),
];

/// Scans, beside three buses and a source.
pub const SCAN_LISTS: [(&str, &str); 18] = [
    (
        "scan = [{ name = \"limits\", bus = \"B1\" }]",
        "9 BadName scan 1 name",
    ),
    (
        "scan = [{ name = \"s1\", bus = \"B4\" }]",
        "11 UnknownBus scan 1 bus",
    ),
    (
        "scan = [{ name = \"s1\", bus = \"B1\", network = \"negative\" }]",
        "5 WrongKind scan 1 network",
    ),
    (
        "scan = [{ name = \"s1\", bus = \"B1\", phase = \"a\" }]",
        "4 UnknownKey scan 1 phase",
    ),
    (
        "scan = [{ name = \"s1\", bus = \"B1\" }]",
        "3 MissingKey scan 1 from",
    ),
    (
        "scan = [{ name = \"s1\", bus = \"B1\", from = \"0.099999\" }]",
        "8 OutOfRange scan 1 from",
    ),
    (
        "scan = [{ name = \"s1\", bus = \"B1\", from = 1, to = \"100.000001\" }]",
        "8 OutOfRange scan 1 to",
    ),
    (
        "scan = [{ name = \"s1\", bus = \"B1\", from = 2, to = 2, threshold = 0 }]",
        "13 BadBand scan 1 to",
    ),
    (
        "scan = [{ name = \"s1\", bus = \"B1\", from = 2, to = \"1.999999\", threshold = 1 }]",
        "13 BadBand scan 1 to",
    ),
    (
        "scan = [{ name = \"s1\", bus = \"B1\", from = 1, to = 2, threshold = 0 }]",
        "8 OutOfRange scan 1 threshold",
    ),
    (
        "scan = [{ name = \"s1\", bus = \"B1\", from = 1, to = 2, threshold = 1, finest = 0 }]",
        "8 OutOfRange scan 1 finest",
    ),
    (
        "scan = [{ name = \"s1\", bus = \"B1\", from = 1, to = 2, threshold = 1, finest = \"100.000001\" }]",
        "8 OutOfRange scan 1 finest",
    ),
    (
        "scan = [{ name = \"s1\", bus = \"B1\", from = 1, to = \"1.065537\", threshold = 1, finest = \"0.000001\", locate = 0 }]",
        "14 TooFine scan 1 finest",
    ),
    (
        "scan = [{ name = \"s1\", bus = \"B1\", from = 1, to = 2, threshold = 1, finest = \"0.01\", locate = \"0.009999\" }]",
        "13 BadBand scan 1 locate",
    ),
    (
        "scan = [{ name = \"s1\", bus = \"B1\", from = 1, to = 2, threshold = 1, finest = \"0.01\", locate = \"100.000001\" }]",
        "8 OutOfRange scan 1 locate",
    ),
    (
        "scan = [{ name = \"s1\", bus = \"B1\", from = 1, to = 2, threshold = 1, finest = \"0.01\", locate = 0.5 }]",
        "6 BareDecimal scan 1 locate",
    ),
    (
        "scan = [{ name = \"S1\", bus = \"B1\", from = 1, to = 2, threshold = 1, finest = \"0.01\" }]",
        "10 DuplicateName scan 1 name",
    ),
    (
        "scan = [{ name = \"s1\", bus = \"B1\", from = 1, to = 2, threshold = 1, finest = \"0.01\" }, { name = \"s1\" }]",
        "10 DuplicateName scan 2 name",
    ),
];

/// Points of common coupling, beside three buses, a source at the first one and a bank at the second one.
pub const POINT_LISTS: [(&str, &str); 11] = [
    (
        "pcc = [{ name = \"P1\", bus = \"B1\" }]",
        "3 MissingKey pcc 1 element",
    ),
    (
        "pcc = [{ name = \"P1\", bus = \"B1\", element = \"\" }]",
        "9 BadName pcc 1 element",
    ),
    (
        "pcc = [{ name = \"P1\", bus = \"B1\", element = \"S9\" }]",
        "18 UnknownElement pcc 1 element",
    ),
    (
        "pcc = [{ name = \"P1\", bus = \"B1\", element = \"B1\" }]",
        "18 UnknownElement pcc 1 element",
    ),
    (
        "pcc = [{ name = \"P1\", bus = \"B1\", element = \"P1\" }]",
        "18 UnknownElement pcc 1 element",
    ),
    // The bank touches another bus.
    (
        "pcc = [{ name = \"P1\", bus = \"B1\", element = \"K1\" }]",
        "18 UnknownElement pcc 1 element",
    ),
    (
        "pcc = [{ name = \"P1\", bus = \"B2\", element = \"K1\" }]",
        "3 MissingKey pcc 1 isc",
    ),
    (
        "pcc = [{ name = \"P1\", bus = \"B1\", element = \"S1\", isc = \"0.999999\" }]",
        "8 OutOfRange pcc 1 isc",
    ),
    (
        "pcc = [{ name = \"P1\", bus = \"B1\", element = \"S1\", isc = 6000 }]",
        "3 MissingKey pcc 1 il",
    ),
    (
        "pcc = [{ name = \"P1\", bus = \"B1\", element = \"S1\", isc = 6000, il = 0 }]",
        "8 OutOfRange pcc 1 il",
    ),
    (
        "pcc = [{ name = \"P1\", bus = \"B1\", element = \"S1\", isc = 6000, il = 200 }, { name = \"P1\" }]",
        "10 DuplicateName pcc 2 name",
    ),
];

/// Studies of the phases model, beside three buses.
pub const PHASE_LISTS: [(&str, &str); 11] = [
    (
        "line = [{ name = \"L1\", from = \"B1\", to = \"B2\", r = 0, x = 1 }]",
        "3 MissingKey line 1 r0",
    ),
    (
        "line = [{ name = \"L1\", from = \"B1\", to = \"B2\", r = 0, x = 1, r0 = 0, x0 = 1, xbc = 1 }]",
        "3 MissingKey line 1 xab",
    ),
    (
        "line = [{ name = \"L1\", from = \"B1\", to = \"B2\", r = 0, x = 1, r0 = 0, x0 = 1, xab = 1, xbc = 1 }]",
        "3 MissingKey line 1 xca",
    ),
    (
        "line = [{ name = \"L1\", from = \"B1\", to = \"B2\", r = 0, x = 1, r0 = 0, x0 = 1, xab = 1, xbc = 1, xca = \"-1\" }]",
        "8 OutOfRange line 1 xca",
    ),
    (
        "load = [{ name = \"D1\", bus = \"B1\", model = \"cigre\", p = 1, q = 1, phase = \"d\" }]",
        "5 WrongKind load 1 phase",
    ),
    (
        "filter = [{ name = \"F1\", bus = \"B1\", kind = \"single\", q = 4, order = 5, quality = 50, phase = 1 }]",
        "5 WrongKind filter 1 phase",
    ),
    (
        "scan = [{ name = \"s1\", bus = \"B1\", network = \"zero\", phase = \"a\" }]",
        "4 UnknownKey scan 1 network",
    ),
    (
        "scan = [{ name = \"s1\", bus = \"B1\", from = 1 }]",
        "3 MissingKey scan 1 phase",
    ),
    (
        "scan = [{ name = \"s1\", bus = \"B1\", phase = \"s\" }]",
        "5 WrongKind scan 1 phase",
    ),
    (
        "bank = [{ name = \"K1\", bus = \"B1\", q = 1, phase = \"c\", grounded = true }]",
        "15 Floating bus 2 -",
    ),
    ("source = []", "15 Floating bus 1 -"),
];

/// Studies of the phases model whose networks are refused: a bus that nothing ties to ground in the positive network, before any that only the
/// zero network leaves in the air.
pub const FLOATING_PHASES: [(&str, &str); 3] = [
    (
        "bus = [{ name = \"B1\", kv = 10 }]\nsource = [{ name = \"S1\", bus = \"B1\", r = 0, x = 1 }]",
        "16 PhaseFloating bus 1 -",
    ),
    (
        "bus = [{ name = \"B1\", kv = 10 }, { name = \"B2\", kv = 10 }]\nsource = [{ name = \"S1\", bus = \"B1\", r = 0, x = 1 }]",
        "15 Floating bus 2 -",
    ),
    (
        "bus = [{ name = \"B1\", kv = 10 }, { name = \"B2\", kv = 1 }]\nsource = [{ name = \"S1\", bus = \"B1\", r = 0, x = 1, r0 = 0, x0 = 1 }]\ntransformer = [{ name = \"T1\", from = \"B1\", to = \"B2\", mva = 1, r = 0, x = 4, from_conn = \"grounded\", to_conn = \"delta\" }]",
        "16 PhaseFloating bus 2 -",
    ),
];

/// Studies whose networks are refused: too large, or a bus or the bus of a zero scan that nothing ties to ground.
pub const FLOATING: [(&str, &str); 12] = [
    ("bus = [{ name = \"B1\", kv = 10 }]", "15 Floating bus 1 -"),
    (
        "bus = [{ name = \"B1\", kv = 10 }, { name = \"B2\", kv = 10 }]\nsource = [{ name = \"S1\", bus = \"B1\", r = 0, x = 1 }]",
        "15 Floating bus 2 -",
    ),
    (
        "bus = [{ name = \"B1\", kv = 10 }, { name = \"B2\", kv = 10 }, { name = \"B3\", kv = 10 }]\nload = [{ name = \"D1\", bus = \"B2\", model = \"cigre\", p = 1, q = 1, grounded = true }]",
        "15 Floating bus 1 -",
    ),
    (
        "bus = [{ name = \"B1\", kv = 10 }]\nsource = [{ name = \"S1\", bus = \"B1\", r = 0, x = 1 }]\nscan = [{ name = \"s1\", bus = \"B1\", network = \"zero\", from = 1, to = 10, threshold = 20, finest = \"0.001\" }]",
        "15 Floating scan 1 bus",
    ),
    // A bank that isn't grounded is open in the zero network.
    (
        "bus = [{ name = \"B1\", kv = 10 }]\nbank = [{ name = \"K1\", bus = \"B1\", q = 1 }]\nscan = [{ name = \"s1\", bus = \"B1\", from = 1, to = 2, threshold = 20, finest = \"0.5\" }, { name = \"s2\", bus = \"B1\", network = \"zero\", from = 1, to = 2, threshold = 20, finest = \"0.5\" }]",
        "15 Floating scan 2 bus",
    ),
    // A bus comes before a scan of the zero network.
    (
        "bus = [{ name = \"B1\", kv = 10 }, { name = \"B2\", kv = 10 }]\nsource = [{ name = \"S1\", bus = \"B1\", r = 0, x = 1 }]\nscan = [{ name = \"s1\", bus = \"B1\", network = \"zero\", from = 1, to = 2, threshold = 20, finest = \"0.5\" }]",
        "15 Floating bus 2 -",
    ),
    // The zero sequence doesn't pass from a grounded star to a delta, nor from a star.
    (
        "bus = [{ name = \"HV\", kv = 10 }, { name = \"LV\", kv = 10 }]\nsource = [{ name = \"S1\", bus = \"HV\", r = 0, x = 1, r0 = 0, x0 = 1 }]\ntransformer = [{ name = \"T1\", from = \"HV\", to = \"LV\", mva = 10, r = 0, x = 10, from_conn = \"grounded\", to_conn = \"delta\" }]\nscan = [{ name = \"s1\", bus = \"LV\", network = \"zero\", from = 1, to = 10, threshold = 20, finest = \"0.001\" }]",
        "15 Floating scan 1 bus",
    ),
    (
        "bus = [{ name = \"HV\", kv = 10 }, { name = \"LV\", kv = 10 }]\nsource = [{ name = \"S1\", bus = \"LV\", r = 0, x = 1 }]\ntransformer = [{ name = \"T1\", from = \"HV\", to = \"LV\", mva = 10, r = 0, x = 10, to_conn = \"delta\" }]\nscan = [{ name = \"s1\", bus = \"HV\", network = \"zero\", from = 1, to = 10, threshold = 20, finest = \"0.001\" }]",
        "15 Floating scan 1 bus",
    ),
    // A line without zero-sequence values is open there.
    (
        "bus = [{ name = \"B1\", kv = 10 }, { name = \"B2\", kv = 10 }]\nsource = [{ name = \"S1\", bus = \"B1\", r = 0, x = 1, r0 = 0, x0 = 1 }]\nline = [{ name = \"L1\", from = \"B1\", to = \"B2\", r = 0, x = 1, b = 1 }]\nscan = [{ name = \"s1\", bus = \"B2\", network = \"zero\", from = 1, to = 10, threshold = 20, finest = \"0.001\" }]",
        "15 Floating scan 1 bus",
    ),
    // A filter that isn't grounded is open there too, and its inner node isn't added.
    (
        "bus = [{ name = \"B1\", kv = 10 }]\nfilter = [{ name = \"F1\", bus = \"B1\", kind = \"ctype\", q = 4, order = 5, quality = 2 }]\nscan = [{ name = \"s1\", bus = \"B1\", network = \"zero\", from = 1, to = 10, threshold = 20, finest = \"0.001\" }]",
        "15 Floating scan 1 bus",
    ),
    // 2 buses, six times 63 and 21 inner nodes are one too many, and come before a bus that isn't live.
    (
        "bus = [{ name = \"A\", kv = 10 }, { name = \"K\", kv = 10 }]\nline = [{ name = \"L1\", from = \"A\", to = \"K\", r = 0, x = 1, sections = 64 }, { name = \"L2\", from = \"A\", to = \"K\", r = 0, x = 1, sections = 64 }, { name = \"L3\", from = \"A\", to = \"K\", r = 0, x = 1, sections = 64 }, { name = \"L4\", from = \"A\", to = \"K\", r = 0, x = 1, sections = 64 }, { name = \"L5\", from = \"A\", to = \"K\", r = 0, x = 1, sections = 64 }, { name = \"L6\", from = \"A\", to = \"K\", r = 0, x = 1, sections = 64 }, { name = \"L7\", from = \"A\", to = \"K\", r = 0, x = 1, sections = 22 }]",
        "12 TooMany network 0 -",
    ),
    // In the zero network alone the nodes are too many.
    (
        "bus = [{ name = \"A\", kv = 10 }, { name = \"K\", kv = 10 }]\nsource = [{ name = \"S1\", bus = \"K\", r = 0, x = 1 }]\nline = [{ name = \"L1\", from = \"A\", to = \"K\", r = 0, x = 1, r0 = 0, x0 = 1, sections = 64 }, { name = \"L2\", from = \"A\", to = \"K\", r = 0, x = 1, r0 = 0, x0 = 1, sections = 64 }, { name = \"L3\", from = \"A\", to = \"K\", r = 0, x = 1, r0 = 0, x0 = 1, sections = 64 }, { name = \"L4\", from = \"A\", to = \"K\", r = 0, x = 1, r0 = 0, x0 = 1, sections = 64 }, { name = \"L5\", from = \"A\", to = \"K\", r = 0, x = 1, r0 = 0, x0 = 1, sections = 64 }, { name = \"L6\", from = \"A\", to = \"K\", r = 0, x = 1, r0 = 0, x0 = 1, sections = 64 }, { name = \"L7\", from = \"A\", to = \"K\", r = 0, x = 1, r0 = 0, x0 = 1, sections = 21 }]\ntransformer = [{ name = \"T1\", from = \"A\", to = \"K\", mva = 10, r = 0, x = 10, from_conn = \"grounded\", from_rn = 1, to_conn = \"delta\" }]",
        "12 TooMany network 0 -",
    ),
];
