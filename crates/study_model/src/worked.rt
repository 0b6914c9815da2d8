// Worked cases of the definition of a lawful study.
ghost use Rattle.std.specs.Prelude.{pos};
ghost use Rattle.study_model.specs.Lawful.{IsLawful};
ghost use Rattle.study_model.specs.Worked.{worked_study, worked_curved, worked_plant, worked_variants};

/// A study of one bus, one source and one scan is lawful, and is not where its band ends at the order at which it begins.
#[tactic(auto, using(crate::proofs::WorkedScans::scan_lawful))]
pub fn worked_study_is_lawful()
    ensures lawful { IsLawful (worked_study (pos 10_000_000)) }
    ensures no_band { ¬ (IsLawful (worked_study (pos 1_000_000))) }
{}

/// A study of version 2 is lawful with a curve that rises to the end of its band, and is not where the curve ends before it, or
/// where its second point is at the order of the first.
#[tactic(auto, using(crate::proofs::Curves::two_lawful))]
pub fn worked_curve_is_lawful()
    ensures lawful { IsLawful (worked_curved 10_000_000) }
    ensures shorter { ¬ (IsLawful (worked_curved 9_999_999)) }
    ensures level { ¬ (IsLawful (worked_curved 1_000_000)) }
{}

/// A plant with entries in every section is lawful with a point at the transformer, and not with one at the source or past the last element.
pub fn worked_plant_is_lawful()
    ensures lawful { IsLawful (worked_plant 3) }
    ensures elsewhere { ¬ (IsLawful (worked_plant 1)) }
    ensures absent { ¬ (IsLawful (worked_plant 8)) }
{}

/// The plant is lawful with its candidate, tolerances and outages, and not with a candidate at a scan that isn't there, with two tolerances of the source, or with an outage past the last element.
pub fn worked_variants_are_lawful()
    ensures lawful { IsLawful (worked_variants 1 2 6) }
    ensures no_scan { ¬ (IsLawful (worked_variants 2 2 6)) }
    ensures twice { ¬ (IsLawful (worked_variants 1 1 6)) }
    ensures absent { ¬ (IsLawful (worked_variants 1 2 8)) }
{
    worked_plant_is_lawful()
}
