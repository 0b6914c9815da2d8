// The studies that the cases share: two buses in the sequence model, and one and seventy in the phases model.
ghost use Rattle.std.specs.Prelude.{IfOk};
ghost use Rattle.study_model.specs.Lawful.{IsLawful};

use std::alloc::Global;
use std::test::Fail;
use study_model::Study;
use study_reader::read_study;

const TWO_BUSES: &str =
    "study = { version = 1, mva = 100 }\nbus = [{ name = \"B1\", kv = 10 }, { name = \"B2\", kv = 10 }]\n";

const ONE_BUS_OF_PHASES: &str =
    "study = { version = 1, mva = 100, model = \"phases\" }\nbus = [{ name = \"B1\", kv = 10 }]\n";

/// Two buses, B1 and B2.
pub fn two_buses(alloc: Global) -> Result<Study, Fail>
    ensures { IfOk result IsLawful }
{
    Ok(read_study(alloc, TWO_BUSES.as_bytes())?)
}

/// One bus, B1, of the phases model.
pub fn one_bus_of_phases(alloc: Global) -> Result<Study, Fail>
    ensures { IfOk result IsLawful }
{
    Ok(read_study(alloc, ONE_BUS_OF_PHASES.as_bytes())?)
}

/// Seventy buses of the phases model, B0 to B69.
pub fn seventy_buses_of_phases(alloc: Global) -> Result<Study, Fail>
    ensures { IfOk result IsLawful }
{
    let header = "study = { version = 1, mva = 100, model = \"phases\" }\n";
    let mut text = String::from_str(alloc, header)?;
    for i in 0..70 {
        let bus = format!(in alloc; "[[bus]]\nname = \"B{i}\"\nkv = 10\n")?;
        text.push_str(bus.as_str())?;
    }
    Ok(read_study(alloc, text.as_bytes())?)
}
