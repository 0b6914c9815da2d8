// The names of the elements of a study, by their numbers.
ghost use Rattle.std.specs.Prelude.{◌≡◌, ◌<◌, length, slice_get, Some};
ghost use Rattle.study_model.specs.Elements.{StudyElement, IsElement, elements_of, element_name};
ghost use Rattle.outages_report.specs.Names.{name_of_element};

use study_model::{Name, Study};

/// The name of the element at a place, counted from 0 over sources, lines, transformers, loads, banks and filters.
fn name_at(study: &Study, place: usize) -> Name
    requires { place < length (elements_of study.now) }
    ensures { (element : StudyElement) → slice_get (elements_of study.now) place ≡ Some element → result ≡ element_name element }
{
    let sources = study.sources.as_slice();
    if place < sources.len() {
        return sources[place].name;
    }
    let place = place - sources.len();
    let lines = study.lines.as_slice();
    if place < lines.len() {
        return lines[place].name;
    }
    let place = place - lines.len();
    let transformers = study.transformers.as_slice();
    if place < transformers.len() {
        return transformers[place].name;
    }
    let place = place - transformers.len();
    let loads = study.loads.as_slice();
    if place < loads.len() {
        return loads[place].name;
    }
    let place = place - loads.len();
    let banks = study.banks.as_slice();
    if place < banks.len() {
        return banks[place].name;
    }
    let place = place - banks.len();
    study.filters.as_slice()[place].name
}

/// The name of the element of a number, which counts from 1.
pub(crate) fn name_of_element(study: &Study, number: u32) -> Name
    requires { IsElement study.now number }
    ensures { result ≡ name_of_element study.now number }
{
    name_at(study, number as usize - 1)
}
