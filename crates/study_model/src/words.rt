// The words of the keys whose value is a word.

/// The model of a whole study.
#[derive(Clone, Copy, Debug, PartialEq, Eq)]
pub enum StudyModel {
    Sequence,
    Phases,
}

impl StudyModel {
    ghost use Rattle.std.specs.Prelude.{◌≡◌};
    ghost use Rattle.study_model.specs.ValueWords.{study_model_text, study_model_of};

    /// The word as it is written.
    pub fn text(self) -> &'static str
        ensures { result.now ≡ study_model_text self }
    {
        match self {
            StudyModel::Sequence => "sequence",
            StudyModel::Phases => "phases",
        }
    }

    /// The model that a text is the word of, where there is one.
    pub fn from_text(text: &str) -> Option<StudyModel>
        ensures { result ≡ study_model_of text.now }
    {
        match text {
            "sequence" => Some(StudyModel::Sequence),
            "phases" => Some(StudyModel::Phases),
            _ => None,
        }
    }
}

/// How a box of orders is tested.
#[derive(Clone, Copy, Debug, PartialEq, Eq)]
pub enum Method {
    /// By elimination alone.
    Elimination,
    /// By elimination, and near peaks by a certified inverse too.
    Both,
    /// By elimination, and branch by branch.
    Branchwise,
}

impl Method {
    ghost use Rattle.std.specs.Prelude.{◌≡◌};
    ghost use Rattle.study_model.specs.ValueWords.{method_text, method_of};

    /// The word as it is written.
    pub fn text(self) -> &'static str
        ensures { result.now ≡ method_text self }
    {
        match self {
            Method::Elimination => "elimination",
            Method::Both => "both",
            Method::Branchwise => "branchwise",
        }
    }

    /// The method that a text is the word of, where there is one.
    pub fn from_text(text: &str) -> Option<Method>
        ensures { result ≡ method_of text.now }
    {
        match text {
            "elimination" => Some(Method::Elimination),
            "both" => Some(Method::Both),
            "branchwise" => Some(Method::Branchwise),
            _ => None,
        }
    }
}

/// A sequence network.
#[derive(Clone, Copy, Debug, PartialEq, Eq)]
pub enum Sequence {
    Positive,
    Zero,
}

impl Sequence {
    ghost use Rattle.std.specs.Prelude.{◌≡◌};
    ghost use Rattle.study_model.specs.ValueWords.{sequence_text, sequence_of};

    /// The word as it is written.
    pub fn text(self) -> &'static str
        ensures { result.now ≡ sequence_text self }
    {
        match self {
            Sequence::Positive => "positive",
            Sequence::Zero => "zero",
        }
    }

    /// The network that a text is the word of, where there is one.
    pub fn from_text(text: &str) -> Option<Sequence>
        ensures { result ≡ sequence_of text.now }
    {
        match text {
            "positive" => Some(Sequence::Positive),
            "zero" => Some(Sequence::Zero),
            _ => None,
        }
    }
}

/// A phase of a three-phase network.
#[derive(Clone, Copy, Debug, PartialEq, Eq)]
pub enum Phase {
    A,
    B,
    C,
}

impl Phase {
    ghost use Rattle.std.specs.Prelude.{◌≡◌};
    ghost use Rattle.study_model.specs.ValueWords.{phase_text, phase_of};

    /// The word as it is written.
    pub fn text(self) -> &'static str
        ensures { result.now ≡ phase_text self }
    {
        match self {
            Phase::A => "a",
            Phase::B => "b",
            Phase::C => "c",
        }
    }

    /// The phase that a text is the word of, where there is one.
    pub fn from_text(text: &str) -> Option<Phase>
        ensures { result ≡ phase_of text.now }
    {
        match text {
            "a" => Some(Phase::A),
            "b" => Some(Phase::B),
            "c" => Some(Phase::C),
            _ => None,
        }
    }
}

/// How a transformer's winding is connected.
#[derive(Clone, Copy, Debug, PartialEq, Eq)]
pub enum Connection {
    Grounded,
    Star,
    Delta,
}

impl Connection {
    ghost use Rattle.std.specs.Prelude.{◌≡◌};
    ghost use Rattle.study_model.specs.ValueWords.{connection_text, connection_of};

    /// The word as it is written.
    pub fn text(self) -> &'static str
        ensures { result.now ≡ connection_text self }
    {
        match self {
            Connection::Grounded => "grounded",
            Connection::Star => "star",
            Connection::Delta => "delta",
        }
    }

    /// The connection that a text is the word of, where there is one.
    pub fn from_text(text: &str) -> Option<Connection>
        ensures { result ≡ connection_of text.now }
    {
        match text {
            "grounded" => Some(Connection::Grounded),
            "star" => Some(Connection::Star),
            "delta" => Some(Connection::Delta),
            _ => None,
        }
    }
}

/// The model of a load.
#[derive(Clone, Copy, Debug, PartialEq, Eq)]
pub enum LoadModel {
    Cigre,
    Parallel,
    Series,
}

impl LoadModel {
    ghost use Rattle.std.specs.Prelude.{◌≡◌};
    ghost use Rattle.study_model.specs.ValueWords.{load_model_text, load_model_of};

    /// The word as it is written.
    pub fn text(self) -> &'static str
        ensures { result.now ≡ load_model_text self }
    {
        match self {
            LoadModel::Cigre => "cigre",
            LoadModel::Parallel => "parallel",
            LoadModel::Series => "series",
        }
    }

    /// The model that a text is the word of, where there is one.
    pub fn from_text(text: &str) -> Option<LoadModel>
        ensures { result ≡ load_model_of text.now }
    {
        match text {
            "cigre" => Some(LoadModel::Cigre),
            "parallel" => Some(LoadModel::Parallel),
            "series" => Some(LoadModel::Series),
            _ => None,
        }
    }
}

/// The kind of a tuned filter.
#[derive(Clone, Copy, Debug, PartialEq, Eq)]
pub enum FilterKind {
    Single,
    HighPass,
    CType,
}

impl FilterKind {
    ghost use Rattle.std.specs.Prelude.{◌≡◌};
    ghost use Rattle.study_model.specs.ValueWords.{filter_kind_text, filter_kind_of};

    /// The word as it is written.
    pub fn text(self) -> &'static str
        ensures { result.now ≡ filter_kind_text self }
    {
        match self {
            FilterKind::Single => "single",
            FilterKind::HighPass => "highpass",
            FilterKind::CType => "ctype",
        }
    }

    /// The kind that a text is the word of, where there is one.
    pub fn from_text(text: &str) -> Option<FilterKind>
        ensures { result ≡ filter_kind_of text.now }
    {
        match text {
            "single" => Some(FilterKind::Single),
            "highpass" => Some(FilterKind::HighPass),
            "ctype" => Some(FilterKind::CType),
            _ => None,
        }
    }
}
