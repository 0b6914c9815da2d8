// An entry of a section, whatever its section is.
ghost use Rattle.std.specs.Prelude.{◌≤◌, List, ℕ, Option, length};
ghost use Rattle.toml.specs.Data.{Data};
ghost use Rattle.toml.specs.View.{view};
ghost use Rattle.study_model.specs.declared.fault.Place.{Place as place_type};
ghost use Rattle.study_model.specs.declared.fault.StudyFault.{StudyFault as fault_type};
ghost use Rattle.study_reader.specs.declared.context.Context.{Context as context_type};
ghost use Rattle.study_reader.specs.Checks.{Reads, name_value};
ghost use Rattle.study_model.specs.declared.limits.TheConstants.{MAX_NAMES, MAX_BUSES, MAX_ALL_ELEMENTS};

use crate::context::Context;
use study_model::{Name, Place, StudyFault};
use toml::Value;

/// An entry of an array, which is read beside the names before it and what the sections before tell.
pub(crate) trait Entry: Copy {
    ghost fault: { context_type → List (List ℕ) → place_type → Data → Option fault_type };

    ghost value: { context_type → Data → Self };

    /// The entry, and its name.
    fn read(
        entry: &Value,
        place: Place,
        earlier: &[Name],
        context: &Context,
    ) -> Result<(Name, Self), StudyFault>
        requires earlier { length earlier.now ≤ MAX_NAMES }
        requires buses { length context.now.buses ≤ MAX_BUSES }
        requires elements { length context.now.elements ≤ MAX_ALL_ELEMENTS }
        ensures read { Reads result (fault context.now earlier.now place (view entry.now)) (name_value (view entry.now), value context.now (view entry.now)) };
}
