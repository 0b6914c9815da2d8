// What is printed of each fault of a study.
use study_model::{Key, Place, Section, StudyFault};

const PLACE: Place = Place {
    section: Section::Scan,
    entry: 2,
    key: Key::From,
};

const WITH_A_PLACE: [(StudyFault, u32, &str); 16] = [
    (StudyFault::MissingKey(PLACE), 3, "MissingKey"),
    (StudyFault::UnknownKey(PLACE), 4, "UnknownKey"),
    (StudyFault::WrongKind(PLACE), 5, "WrongKind"),
    (StudyFault::BareDecimal(PLACE), 6, "BareDecimal"),
    (StudyFault::BadDecimal(PLACE), 7, "BadDecimal"),
    (StudyFault::OutOfRange(PLACE), 8, "OutOfRange"),
    (StudyFault::BadName(PLACE), 9, "BadName"),
    (StudyFault::DuplicateName(PLACE), 10, "DuplicateName"),
    (StudyFault::UnknownBus(PLACE), 11, "UnknownBus"),
    (StudyFault::TooMany(PLACE), 12, "TooMany"),
    (StudyFault::BadBand(PLACE), 13, "BadBand"),
    (StudyFault::TooFine(PLACE), 14, "TooFine"),
    (StudyFault::Floating(PLACE), 15, "Floating"),
    (StudyFault::PhaseFloating(PLACE), 16, "PhaseFloating"),
    (StudyFault::UnknownElement(PLACE), 18, "UnknownElement"),
    (StudyFault::UnknownScan(PLACE), 19, "UnknownScan"),
];

const WITHOUT_A_PLACE: [(StudyFault, Option<u32>, &str); 3] = [
    (StudyFault::NotToml, Some(1), "NotToml"),
    (StudyFault::VersionUnknown, Some(2), "VersionUnknown"),
    (StudyFault::NoMemory, None, "NoMemory"),
];

#[test]
fn faults_with_a_place(rt: HostRuntime) {
    for (fault, number, name) in WITH_A_PLACE {
        let found = (fault.number(), fault.name(), fault.place());
        assert_eq!(rt; found, (Some(number), name, Some(PLACE)), "{name}");
    }
}

#[test]
fn faults_without_a_place(rt: HostRuntime) {
    for (fault, number, name) in WITHOUT_A_PLACE {
        let found = (fault.number(), fault.name(), fault.place());
        assert_eq!(rt; found, (number, name, None), "{name}");
    }
}
