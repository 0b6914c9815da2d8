// The elements of a study in its network of three phases, by their places.
ghost use Rattle.std.specs.Prelude.{◌≡◌, ◌+◌, ◌*◌, ◌<◌, ◌≤◌, ◌^◌, length, map, max, slice_get, Some};
ghost use Rattle.std.specs.List.{AllByRecursion};
ghost use Rattle.study_model.specs.Lawful.{IsLawful};
ghost use Rattle.study_model.specs.Elements.{StudyElement, elements_of};
ghost use Rattle.study_model.specs.declared.limits.TheConstants.{MAX_ALL_ELEMENTS};
ghost use Rattle.net_branch.specs.Exact.{exact_network};
ghost use Rattle.net_branch.specs.Whole.{IsWholeNetwork};
ghost use Rattle.element_parts.specs.Adds.{Adds};
ghost use Rattle.phase_network.specs.Phases.{next_group, phases_added};

use line_pi::add_line_phases;
use load_filter_model::{add_bank_phases, add_filter_phases, add_load_phases, add_source_phases};
use net_branch::{AddFault, Network};
use std::alloc::Global;
use study_model::Study;
use transformer_model::add_transformer_phases;

/// The number after a group's, where that is greater than the next one so far.
fn next_after(next: u32, group: u32) -> u32
    requires next { next < 2 ^ 31 }
    requires group { group < 2 ^ 30 }
    ensures value { result ≡ max next (group + 1) }
    ensures few { result < 2 ^ 31 }
{
    if group < next { next } else { group + 1 }
}

/// The number of the next group, one more than the greatest so far.
fn next_group(network: &Network) -> u32
    requires { AllByRecursion (λ b. b.group < 2 ^ 30) network.now.branches }
    ensures value { result ≡ next_group (exact_network network.now).branches }
    ensures first { 1 ≤ result }
    ensures few { result < 2 ^ 31 }
    ensures below { AllByRecursion (λ b. b.group < result) network.now.branches }
{
    let mut next = 1;
    for branch in network.branches.as_slice() {
        next = next_after(next, branch.group);
    }
    next
}

/// Adds the element of a study at a place, counted from 0, under its number, which is one more, and its groups under the next numbers.
pub fn add_element(
    alloc: Global,
    network: &mut Network,
    study: &Study,
    place: usize,
) -> Result<(), AddFault>
    requires study { IsLawful study.now }
    requires place { place < length (elements_of study.now) }
    requires few { place < MAX_ALL_ELEMENTS }
    requires buses { network.old.buses ≡ 3 * length study.now.buses }
    requires whole { IsWholeNetwork network.old }
    requires groups { AllByRecursion (λ b. b.group < 2 ^ 30) network.old.branches }
    ensures { (element : StudyElement) → slice_get (elements_of study.now) place ≡ Some element → Adds network.old network.new result (phases_added study.now (exact_network network.old) element (place + 1)) }
{
    let owner = place as u32 + 1;
    let group = next_group(network);
    let sources = study.sources.as_slice();
    if place < sources.len() {
        return add_source_phases(alloc, network, study, &sources[place], owner, group);
    }
    let place = place - sources.len();
    let lines = study.lines.as_slice();
    if place < lines.len() {
        return add_line_phases(alloc, network, study, &lines[place], owner, group);
    }
    let place = place - lines.len();
    let transformers = study.transformers.as_slice();
    if place < transformers.len() {
        return add_transformer_phases(alloc, network, study, &transformers[place], owner);
    }
    let place = place - transformers.len();
    let loads = study.loads.as_slice();
    if place < loads.len() {
        return add_load_phases(alloc, network, study, &loads[place], owner);
    }
    let place = place - loads.len();
    let banks = study.banks.as_slice();
    if place < banks.len() {
        return add_bank_phases(alloc, network, study, &banks[place], owner);
    }
    let filter = &study.filters.as_slice()[place - banks.len()];
    add_filter_phases(alloc, network, study, filter, owner)
}
