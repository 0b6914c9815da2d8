// An entry that has no name of its own, and refers to a scan or an element of the study.
ghost use Rattle.std.specs.Prelude.{◌≤◌, List, ℕ, Option, length};
ghost use Rattle.toml.specs.Data.{Data};
ghost use Rattle.toml.specs.View.{view};
ghost use Rattle.study_model.specs.declared.fault.Place.{Place as place_type};
ghost use Rattle.study_model.specs.declared.fault.StudyFault.{StudyFault as fault_type};
ghost use Rattle.study_reader.specs.declared.reference.Targets.{Targets as targets_type};
ghost use Rattle.study_reader.specs.Checks.{ReadsInMemory};
ghost use Rattle.study_model.specs.declared.limits.TheConstants.{MAX_ALL_ELEMENTS, MAX_SCANS};

use crate::context::Element;
use sqlite_items::Items;
use std::alloc::Global;
use study_model::{Place, ScanItem, StudyFault, StudyModel};
use toml::Value;

/// What such entries may refer to: the elements and the scans of the study, beside its model.
#[derive(Drop)]
pub(crate) struct Targets {
    pub(crate) model: StudyModel,
    pub(crate) elements: Items<Element>,
    pub(crate) scans: Items<ScanItem>,
}

/// An entry of an array, which is read beside the entries before it and what it may refer to.
pub(crate) trait Reference: Drop {
    ghost fault: { targets_type → List Self → place_type → Data → Option fault_type };

    ghost value: { targets_type → Data → Self };

    fn read(
        alloc: Global,
        entry: &Value,
        place: Place,
        earlier: &[Self],
        targets: &Targets,
    ) -> Result<Self, StudyFault>
        requires elements { length targets.now.elements ≤ MAX_ALL_ELEMENTS }
        requires scans { length targets.now.scans ≤ MAX_SCANS }
        ensures read { ReadsInMemory result (fault targets.now earlier.now place (view entry.now)) (value targets.now (view entry.now)) };
}
