// Why a study is refused, and where.
ghost use Rattle.std.specs.Prelude.{◌≡◌};

use thiserror::Error;

/// A section of a study, with the whole file and the networks beside them.
#[derive(Clone, Copy, Debug, PartialEq, Eq)]
pub enum Section {
    Top,
    Network,
    Study,
    Bus,
    Source,
    Line,
    Transformer,
    Load,
    Bank,
    Filter,
    Scan,
    Pcc,
    Candidate,
    Tolerance,
    Outage,
}

impl Section {
    ghost use Rattle.std.specs.Prelude.{◌≡◌, ◌≤◌, length};
    ghost use Rattle.study_model.specs.Words.{section_text};

    /// The word as it is written.
    pub fn text(self) -> &'static str
        ensures word { result.now ≡ section_text self }
        ensures len { length result.now ≤ 11 }
    {
        match self {
            Section::Top => "top",
            Section::Network => "network",
            Section::Study => "study",
            Section::Bus => "bus",
            Section::Source => "source",
            Section::Line => "line",
            Section::Transformer => "transformer",
            Section::Load => "load",
            Section::Bank => "bank",
            Section::Filter => "filter",
            Section::Scan => "scan",
            Section::Pcc => "pcc",
            Section::Candidate => "candidate",
            Section::Tolerance => "tolerance",
            Section::Outage => "outage",
        }
    }
}

/// A key of a section, or none.
#[derive(Clone, Copy, Debug, PartialEq, Eq)]
pub enum Key {
    Nothing,
    Version,
    Mva,
    Hz,
    Model,
    Scale,
    Method,
    Root3,
    Name,
    Kv,
    Bus,
    R,
    X,
    R0,
    X0,
    SkinK,
    SkinM,
    From,
    To,
    B,
    B0,
    Sections,
    Xab,
    Xbc,
    Xca,
    Ratio,
    FromConn,
    ToConn,
    FromRn,
    FromXn,
    ToRn,
    ToXn,
    P,
    Q,
    Grounded,
    Phase,
    Kind,
    Order,
    Quality,
    Network,
    Threshold,
    CurveAt,
    CurveOhms,
    Finest,
    Locate,
    Element,
    Isc,
    Il,
    Scan,
    Sizes,
    Permille,
}

impl Key {
    ghost use Rattle.std.specs.Prelude.{◌≡◌, ◌≤◌, length};
    ghost use Rattle.study_model.specs.Words.{key_text};

    /// The word as it is written.
    pub fn text(self) -> &'static str
        ensures word { result.now ≡ key_text self }
        ensures len { length result.now ≤ 10 }
    {
        match self {
            Key::Nothing => "-",
            Key::Version => "version",
            Key::Mva => "mva",
            Key::Hz => "hz",
            Key::Model => "model",
            Key::Scale => "scale",
            Key::Method => "method",
            Key::Root3 => "root3",
            Key::Name => "name",
            Key::Kv => "kv",
            Key::Bus => "bus",
            Key::R => "r",
            Key::X => "x",
            Key::R0 => "r0",
            Key::X0 => "x0",
            Key::SkinK => "skin_k",
            Key::SkinM => "skin_m",
            Key::From => "from",
            Key::To => "to",
            Key::B => "b",
            Key::B0 => "b0",
            Key::Sections => "sections",
            Key::Xab => "xab",
            Key::Xbc => "xbc",
            Key::Xca => "xca",
            Key::Ratio => "ratio",
            Key::FromConn => "from_conn",
            Key::ToConn => "to_conn",
            Key::FromRn => "from_rn",
            Key::FromXn => "from_xn",
            Key::ToRn => "to_rn",
            Key::ToXn => "to_xn",
            Key::P => "p",
            Key::Q => "q",
            Key::Grounded => "grounded",
            Key::Phase => "phase",
            Key::Kind => "kind",
            Key::Order => "order",
            Key::Quality => "quality",
            Key::Network => "network",
            Key::Threshold => "threshold",
            Key::CurveAt => "curve_at",
            Key::CurveOhms => "curve_ohms",
            Key::Finest => "finest",
            Key::Locate => "locate",
            Key::Element => "element",
            Key::Isc => "isc",
            Key::Il => "il",
            Key::Scan => "scan",
            Key::Sizes => "sizes",
            Key::Permille => "permille",
        }
    }
}

/// A place in a study: a section, the number of an entry from 1 (0: the section as a whole), and a key.
#[derive(Clone, Copy, Debug, PartialEq, Eq)]
pub struct Place {
    pub section: Section,
    pub entry: u32,
    pub key: Key,
}

/// Why a study is refused, in the order of the numbers, and the want of memory, which has none.
#[derive(Clone, Copy, Debug, PartialEq, Eq, Error)]
pub enum StudyFault {
    /// The bytes are no TOML document.
    #[error("the bytes are no TOML document")]
    NotToml,
    /// `version` is a whole number other than 1 and 2.
    #[error("the version is neither 1 nor 2")]
    VersionUnknown,
    /// A required key, section or entry is absent.
    #[error("a required key, section or entry is absent")]
    MissingKey(Place),
    /// The entry has a key that doesn't belong there.
    #[error("a key does not belong there")]
    UnknownKey(Place),
    /// The value is of another kind, or a word isn't in its list.
    #[error("the value is of another kind, or its word is not in the list")]
    WrongKind(Place),
    /// A decimal is written as a bare float.
    #[error("a decimal is written without quotes")]
    BareDecimal(Place),
    /// A decimal isn't in the grammar, or is too long or too large.
    #[error("the text is no decimal, or too long or too large a one")]
    BadDecimal(Place),
    /// The value is outside its range, or breaks a rule on two keys.
    #[error("the value is outside its range, or breaks a rule on two keys")]
    OutOfRange(Place),
    /// A name isn't 1 to 32 bytes of letters, digits and `_ . -`.
    #[error("the name is not 1 to 32 of the bytes that a name may have")]
    BadName(Place),
    /// An earlier entry of any section has the name.
    #[error("an earlier entry has the name")]
    DuplicateName(Place),
    /// No bus has the name.
    #[error("no bus has the name")]
    UnknownBus(Place),
    /// A section, or a network, passes its limit.
    #[error("a section or a network passes its limit")]
    TooMany(Place),
    /// `to` isn't above `from`, or `locate` is below `finest`.
    #[error("the ends or the widths of the band are not in order")]
    BadBand(Place),
    /// The band is more than 65,536 finest widths.
    #[error("the band is too many finest widths wide")]
    TooFine(Place),
    /// A bus has no path to ground.
    #[error("a bus has no path to ground")]
    Floating(Place),
    /// A bus of a phase network has no path to ground in the zero network.
    #[error("a bus of a phase network has no path to ground in the zero network")]
    PhaseFloating(Place),
    /// No element has the name, or at a point none of the name touches the bus.
    #[error("no element of the name is there")]
    UnknownElement(Place),
    /// No scan has the name.
    #[error("no scan has the name")]
    UnknownScan(Place),
    /// Memory ran out.
    #[error("memory ran out")]
    NoMemory,
}

/// What is printed of a fault: its number, its name and its place.
#[derive(Clone, Copy)]
struct Printed {
    number: Option<u32>,
    name: &'static str,
    place: Option<Place>,
}

fn row(number: u32, name: &'static str, place: Option<Place>) -> Printed
    ensures number { result.number ≡ Some number }
    ensures name { result.name.now ≡ name.entry.now }
    ensures place { result.place ≡ place }
{
    Printed {
        number: Some(number),
        name,
        place,
    }
}

impl StudyFault {
    ghost use Rattle.std.specs.Prelude.{◌≡◌, ◌≤◌, length};
    ghost use Rattle.study_model.specs.Faults.{fault_number, fault_name, fault_place};

    fn printed(self) -> Printed
        ensures number { result.number ≡ fault_number self }
        ensures name { result.name.now ≡ fault_name self }
        ensures len { length result.name.now ≤ 15 }
        ensures place { result.place ≡ fault_place self }
    {
        match self {
            StudyFault::NotToml => row(1, "NotToml", None),
            StudyFault::VersionUnknown => row(2, "VersionUnknown", None),
            StudyFault::MissingKey(place) => row(3, "MissingKey", Some(place)),
            StudyFault::UnknownKey(place) => row(4, "UnknownKey", Some(place)),
            StudyFault::WrongKind(place) => row(5, "WrongKind", Some(place)),
            StudyFault::BareDecimal(place) => row(6, "BareDecimal", Some(place)),
            StudyFault::BadDecimal(place) => row(7, "BadDecimal", Some(place)),
            StudyFault::OutOfRange(place) => row(8, "OutOfRange", Some(place)),
            StudyFault::BadName(place) => row(9, "BadName", Some(place)),
            StudyFault::DuplicateName(place) => row(10, "DuplicateName", Some(place)),
            StudyFault::UnknownBus(place) => row(11, "UnknownBus", Some(place)),
            StudyFault::TooMany(place) => row(12, "TooMany", Some(place)),
            StudyFault::BadBand(place) => row(13, "BadBand", Some(place)),
            StudyFault::TooFine(place) => row(14, "TooFine", Some(place)),
            StudyFault::Floating(place) => row(15, "Floating", Some(place)),
            StudyFault::PhaseFloating(place) => row(16, "PhaseFloating", Some(place)),
            StudyFault::UnknownElement(place) => row(18, "UnknownElement", Some(place)),
            StudyFault::UnknownScan(place) => row(19, "UnknownScan", Some(place)),
            StudyFault::NoMemory => Printed {
                number: None,
                name: "NoMemory",
                place: None,
            },
        }
    }

    /// The number that is printed, from 1 in the order of the variants. The want of memory has none.
    pub fn number(self) -> Option<u32>
        ensures { result ≡ fault_number self }
    {
        self.printed().number
    }

    /// The name that is printed, which is the variant's.
    pub fn name(self) -> &'static str
        ensures name { result.now ≡ fault_name self }
        ensures len { length result.now ≤ 15 }
    {
        self.printed().name
    }

    /// The place of the fault, where it has one.
    pub fn place(self) -> Option<Place>
        ensures { result ≡ fault_place self }
    {
        self.printed().place
    }
}
