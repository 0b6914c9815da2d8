// What is printed of each fault of a spectrum and of a levels file.
use spectrum_reader::{LevelsFault, SpectrumFault};

const OF_SPECTRA: [(SpectrumFault, Option<u32>, &str, Option<u32>); 9] = [
    (SpectrumFault::BadHeader, Some(1), "BadHeader", None),
    (SpectrumFault::BadRow(9), Some(2), "BadRow", Some(9)),
    (SpectrumFault::BadOrder(9), Some(3), "BadOrder", Some(9)),
    (SpectrumFault::UnknownBus(9), Some(4), "UnknownBus", Some(9)),
    (SpectrumFault::BadDecimal(9), Some(5), "BadDecimal", Some(9)),
    (SpectrumFault::Repeated(9), Some(6), "Repeated", Some(9)),
    (SpectrumFault::BadPhase(9), Some(7), "BadPhase", Some(9)),
    (SpectrumFault::NoPath(9), Some(8), "NoPath", Some(9)),
    (SpectrumFault::NoMemory, None, "NoMemory", None),
];

#[test]
fn faults_of_spectra(rt: HostRuntime) {
    for (fault, number, name, row) in OF_SPECTRA {
        let found = (fault.number(), fault.name(), fault.row());
        assert_eq!(rt; found, (number, name, row), "{name}");
    }
}

const OF_LEVELS: [(LevelsFault, Option<u32>, &str, Option<u32>); 7] = [
    (LevelsFault::BadHeader, Some(1), "BadHeader", None),
    (LevelsFault::BadRow(9), Some(2), "BadRow", Some(9)),
    (LevelsFault::BadOrder(9), Some(3), "BadOrder", Some(9)),
    (LevelsFault::UnknownBus(9), Some(4), "UnknownBus", Some(9)),
    (LevelsFault::BadPercent(9), Some(5), "BadPercent", Some(9)),
    (LevelsFault::Repeated(9), Some(6), "Repeated", Some(9)),
    (LevelsFault::NoMemory, None, "NoMemory", None),
];

#[test]
fn faults_of_levels(rt: HostRuntime) {
    for (fault, number, name, row) in OF_LEVELS {
        let found = (fault.number(), fault.name(), fault.row());
        assert_eq!(rt; found, (number, name, row), "{name}");
    }
}
