// The elements that points of common coupling may name.
ghost use Rattle.std.specs.Prelude.{◌≡◌, ◌+◌, ◌++◌, map, OnOk, IfOk};
ghost use Rattle.study_model.specs.Elements.{StudyElement, of_source, of_line, of_transformer, of_load, of_bank, of_filter};
ghost use Rattle.study_reader.specs.StudyOf.{ends_of, plant_elements};

use crate::context::Element;
use crate::study::Plant;
use sqlite_items::Items;
use std::alloc::{AllocError, Global};
use study_model::{Bank, Filter, Line, Load, Source, Transformer};

/// An element of a study.
trait HasEnds: Copy {
    ghost element: { Self → StudyElement };

    /// Its name and the buses at its ends.
    fn ends(&self) -> Element
        ensures { result ≡ ends_of (element self.now) };
}

impl HasEnds for Source {
    ghost element = { of_source };

    fn ends(&self) -> Element {
        Element {
            name: self.name,
            from: self.bus,
            to: self.bus,
        }
    }
}

impl HasEnds for Line {
    ghost element = { of_line };

    fn ends(&self) -> Element {
        Element {
            name: self.name,
            from: self.from,
            to: self.to,
        }
    }
}

impl HasEnds for Transformer {
    ghost element = { of_transformer };

    fn ends(&self) -> Element {
        Element {
            name: self.name,
            from: self.from,
            to: self.to,
        }
    }
}

impl HasEnds for Load {
    ghost element = { of_load };

    fn ends(&self) -> Element {
        Element {
            name: self.name,
            from: self.bus,
            to: self.bus,
        }
    }
}

impl HasEnds for Bank {
    ghost element = { of_bank };

    fn ends(&self) -> Element {
        Element {
            name: self.name,
            from: self.bus,
            to: self.bus,
        }
    }
}

impl HasEnds for Filter {
    ghost element = { of_filter };

    fn ends(&self) -> Element {
        Element {
            name: self.name,
            from: self.bus,
            to: self.bus,
        }
    }
}

/// The elements of a section, pushed behind those before.
fn push_elements<E: HasEnds>(elements: &mut Vec<Element>, items: &[E]) -> Result<(), AllocError>
    ensures pushed { OnOk result (elements.new.items ≡ elements.old.items ++ map ends_of (map E.element items.now)) }
{
    for item in items {
        elements.push(item.ends())?;
    }
    Ok(())
}

/// The elements of a plant in the order of their numbers.
#[tactic(auto, unfolding(crate::specs::StudyOf::plant_elements), using(crate::proofs::PlantElements::element_steps))]
pub(crate) fn elements_of(alloc: Global, plant: &Plant) -> Result<Items<Element>, AllocError>
    ensures elements { IfOk result (λ elements. elements ≡ plant_elements plant.now) }
{
    let mut elements = Vec::new(alloc);
    push_elements::<Source>(&mut elements, plant.sources.as_slice())?;
    push_elements::<Line>(&mut elements, plant.lines.as_slice())?;
    push_elements::<Transformer>(&mut elements, plant.transformers.as_slice())?;
    push_elements::<Load>(&mut elements, plant.loads.as_slice())?;
    push_elements::<Bank>(&mut elements, plant.banks.as_slice())?;
    push_elements::<Filter>(&mut elements, plant.filters.as_slice())?;
    Ok(Items::from_vec(elements))
}
