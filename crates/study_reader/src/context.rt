// What the entries of a section are read beside.
use sqlite_items::Items;
use study_model::{Bus, Name, StudyModel};

/// An element by its name and the buses at its ends, which are one bus where it has one end.
#[derive(Clone, Copy)]
pub(crate) struct Element {
    pub(crate) name: Name,
    pub(crate) from: u32,
    pub(crate) to: u32,
}

/// The version and the model of the study, and the buses and the elements of the sections before.
#[derive(Drop)]
pub(crate) struct Context {
    pub(crate) version: u32,
    pub(crate) model: StudyModel,
    pub(crate) buses: Items<Bus>,
    pub(crate) elements: Items<Element>,
}
