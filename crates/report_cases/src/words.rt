// The words of a study's values, and of the places of its faults.
use study_model::{
    Connection, FilterKind, Key, LoadModel, Method, Phase, Section, Sequence, StudyModel,
};

#[test]
fn words_as_they_are_written(rt: HostRuntime) {
    let table = [
        (Section::Top.text(), "top"),
        (Section::Network.text(), "network"),
        (Section::Pcc.text(), "pcc"),
        (Section::Candidate.text(), "candidate"),
        (Section::Tolerance.text(), "tolerance"),
        (Section::Outage.text(), "outage"),
        (Key::Nothing.text(), "-"),
        (Key::SkinM.text(), "skin_m"),
        (Key::FromConn.text(), "from_conn"),
        (Key::CurveOhms.text(), "curve_ohms"),
        (Key::Scan.text(), "scan"),
        (Key::Sizes.text(), "sizes"),
        (Key::Permille.text(), "permille"),
        (StudyModel::Sequence.text(), "sequence"),
        (Method::Elimination.text(), "elimination"),
        (Method::Both.text(), "both"),
        (Method::Branchwise.text(), "branchwise"),
        (Sequence::Positive.text(), "positive"),
        (Phase::B.text(), "b"),
        (Connection::Grounded.text(), "grounded"),
        (LoadModel::Parallel.text(), "parallel"),
        (FilterKind::CType.text(), "ctype"),
    ];
    for (found, word) in table {
        assert_eq!(rt; found, word);
    }
}

#[test]
fn words_as_they_are_read(rt: HostRuntime) {
    let table = [
        (
            "phases",
            StudyModel::from_text("phases") == Some(StudyModel::Phases),
        ),
        ("both", Method::from_text("both") == Some(Method::Both)),
        ("Both", Method::from_text("Both").is_none()),
        (
            "branchwise",
            Method::from_text("branchwise") == Some(Method::Branchwise),
        ),
        ("branch-wise", Method::from_text("branch-wise").is_none()),
        ("zero", Sequence::from_text("zero") == Some(Sequence::Zero)),
        ("c", Phase::from_text("c") == Some(Phase::C)),
        ("d", Phase::from_text("d").is_none()),
        (
            "delta",
            Connection::from_text("delta") == Some(Connection::Delta),
        ),
        (
            "cigre",
            LoadModel::from_text("cigre") == Some(LoadModel::Cigre),
        ),
        (
            "series",
            LoadModel::from_text("series") == Some(LoadModel::Series),
        ),
        (
            "highpass",
            FilterKind::from_text("highpass") == Some(FilterKind::HighPass),
        ),
        ("nothing", FilterKind::from_text("").is_none()),
    ];
    for (word, holds) in table {
        assert!(rt; holds, "{word}");
    }
}
