// The elements of a study, by their places.
ghost use Rattle.std.specs.Prelude.{◌≡◌, ◌+◌, ◌<◌, ◌≤◌, length, slice_get, Some};
ghost use Rattle.study_model.specs.Lawful.{IsLawful};
ghost use Rattle.study_model.specs.Elements.{StudyElement, elements_of};
ghost use Rattle.study_model.specs.declared.limits.TheConstants.{MAX_ALL_ELEMENTS};
ghost use Rattle.net_branch.specs.Whole.{IsWholeNetwork};
ghost use Rattle.element_parts.specs.Adds.{Adds};
ghost use Rattle.sequence_network.specs.Networks.{expansion_of};

use line_pi::add_line;
use load_filter_model::{add_bank, add_filter, add_load, add_source};
use net_branch::{AddFault, Network};
use std::alloc::Global;
use study_model::{Sequence, Study};
use transformer_model::add_transformer;

/// How many elements a study has.
pub fn element_count(study: &Study) -> usize
    requires { IsLawful study.now }
    ensures count { result ≡ length (elements_of study.now) }
    ensures few { result ≤ MAX_ALL_ELEMENTS }
{
    study.sources.len()
        + study.lines.len()
        + study.transformers.len()
        + study.loads.len()
        + study.banks.len()
        + study.filters.len()
}

/// Adds the element of a study at a place, counted from 0, under its number, which is one more.
pub fn add_element(
    alloc: Global,
    network: &mut Network,
    study: &Study,
    place: usize,
    sequence: Sequence,
) -> Result<(), AddFault>
    requires study { IsLawful study.now }
    requires place { place < length (elements_of study.now) }
    requires few { place < MAX_ALL_ELEMENTS }
    requires buses { network.old.buses ≡ length study.now.buses }
    requires whole { IsWholeNetwork network.old }
    ensures { (element : StudyElement) → slice_get (elements_of study.now) place ≡ Some element → Adds network.old network.new result (expansion_of study.now sequence network.old.nodes element (place + 1)) }
{
    let owner = place as u32 + 1;
    let sources = study.sources.as_slice();
    if place < sources.len() {
        return add_source(alloc, network, study, &sources[place], owner, sequence);
    }
    let place = place - sources.len();
    let lines = study.lines.as_slice();
    if place < lines.len() {
        return add_line(alloc, network, study, &lines[place], owner, sequence);
    }
    let place = place - lines.len();
    let transformers = study.transformers.as_slice();
    if place < transformers.len() {
        return add_transformer(alloc, network, study, &transformers[place], owner, sequence);
    }
    let place = place - transformers.len();
    let loads = study.loads.as_slice();
    if place < loads.len() {
        return add_load(alloc, network, study, &loads[place], owner, sequence);
    }
    let place = place - loads.len();
    let banks = study.banks.as_slice();
    if place < banks.len() {
        return add_bank(alloc, network, study, &banks[place], owner, sequence);
    }
    let filter = &study.filters.as_slice()[place - banks.len()];
    add_filter(alloc, network, study, filter, owner, sequence)
}
