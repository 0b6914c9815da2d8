// Injections of an order, and rows without a path.
ghost use Rattle.std.specs.Prelude.{IfOk, OnOk};
ghost use Rattle.study_model.specs.Lawful.{IsLawful};
ghost use Rattle.spectrum_reader.specs.Lawful.{IsLawfulSpectrum};

use crate::studies::{one_bus_of_phases, two_buses};
use exact_fraction::Fraction;
use harmonic_injection::{NodeInjection, check_paths, inject, injections_of_an_order};
use spectrum_reader::{Spectrum, SpectrumFault, read_spectrum};
use std::alloc::Global;
use std::test::Fail;
use study_model::Study;
use study_networks::study_networks;
use study_reader::read_study;

/// A node, and the real and the imaginary part as fractions n/d.
type Wanted = (u32, (i64, i64), (i64, i64));

fn is_value(value: Fraction, (n, d): (i64, i64)) -> bool {
    match Fraction::new(i128::from(n), i128::from(d)) {
        Some(wanted) => value.at_most(wanted) && wanted.at_most(value),
        None => false,
    }
}

fn is_wanted(found: &NodeInjection, wanted: Wanted) -> bool {
    found.node.number == wanted.0 && is_value(found.re, wanted.1) && is_value(found.im, wanted.2)
}

fn are_wanted(found: &[NodeInjection], wanted: &[Wanted]) -> bool {
    found.len() == wanted.len()
        && found
            .iter()
            .zip(wanted.iter())
            .all(|(found, wanted)| is_wanted(found, *wanted))
}

/// The spectrum of a text.
fn spectrum(alloc: Global, study: &Study, text: &[u8]) -> Result<Spectrum, Fail>
    requires { IsLawful study.now }
    ensures { IfOk result (λ spectrum. IsLawfulSpectrum study.now spectrum.rows) }
{
    if text.len() > 1_000 {
        return Err("too long".into());
    }
    Ok(read_spectrum(alloc, text, study)?)
}

/// At 10 kV and 100 MVA 100 A are 0.01.
const OF_BUSES: &[u8] = b"order,bus,re,im\n5,B2,100,0\n7,B1,1,1\n5,B1,-0.5,0.000001\n9,B1,12,0\n";

const ORDERS: [(u32, &[Wanted]); 4] = [
    (
        5,
        &[
            (1, (1, 100), (0, 1)),
            (0, (-1, 20_000), (1, 10_000_000_000)),
        ],
    ),
    (7, &[(0, (1, 10_000), (1, 10_000))]),
    (9, &[(0, (3, 2_500), (0, 1))]),
    (11, &[]),
];

#[test]
fn orders_at_buses(rt: HostRuntime) -> Result<(), Fail> {
    injections_of_an_order();
    let study = two_buses(rt.alloc())?;
    let spectrum = spectrum(rt.alloc(), &study, OF_BUSES)?;
    for (order, wanted) in ORDERS {
        let found = inject(rt.alloc(), &study, &spectrum, order)?;
        assert!(rt; are_wanted(found.as_slice(), wanted), "{order}");
    }
    Ok(())
}

#[test]
fn orders_at_phases(rt: HostRuntime) -> Result<(), Fail> {
    injections_of_an_order();
    let study = one_bus_of_phases(rt.alloc())?;
    let text = b"order,bus,phase,re,im\n3,B1,c,100,0\n3,B1,a,0,100\n";
    let spectrum = spectrum(rt.alloc(), &study, text)?;
    let found = inject(rt.alloc(), &study, &spectrum, 3)?;
    let wanted = [(2, (1, 100), (0, 1)), (0, (0, 1), (1, 100))];
    assert!(rt; are_wanted(found.as_slice(), &wanted));
    Ok(())
}

/// A transformer that is grounded on its high side alone: in the zero network its low side has no path.
const GROUNDED: &str =
    "study = { version = 1, mva = 100 }\nbus = [{ name = \"HV\", kv = 100 }, { name = \"LV\", kv = 10 }]\nsource = [{ name = \"S1\", bus = \"HV\", r = 0, x = 1, r0 = 0, x0 = 1 }]\ntransformer = [{ name = \"T1\", from = \"HV\", to = \"LV\", mva = 10, r = 0, x = 10, from_conn = \"grounded\", to_conn = \"delta\" }]\n";

/// A bus that a load ties to ground in phase a alone: the nodes of b and c have no path.
const ONE_PHASE: &str =
    "study = { version = 1, mva = 100, model = \"phases\" }\nbus = [{ name = \"B1\", kv = 10 }]\nload = [{ name = \"D1\", bus = \"B1\", model = \"cigre\", p = 1, q = 1, phase = \"a\" }]\n";

fn path(alloc: Global, study: &str, text: &[u8]) -> Result<Option<SpectrumFault>, Fail> {
    injections_of_an_order();
    let study = read_study(alloc, study.as_bytes())?;
    study_networks(alloc, &study)?;
    let spectrum = spectrum(alloc, &study, text)?;
    match check_paths(alloc, &study, &spectrum) {
        Ok(()) => Ok(None),
        Err(fault) => Ok(Some(fault)),
    }
}

const PATHS: [(&[u8], Option<SpectrumFault>); 7] = [
    (b"order,bus,re,im\n", None),
    (b"order,bus,re,im\n3,HV,1,0\n5,LV,1,0\n", None),
    (
        b"order,bus,re,im\n3,LV,1,0\n",
        Some(SpectrumFault::NoPath(1)),
    ),
    (
        b"order,bus,re,im\n5,LV,1,0\n6,LV,1,0\n3,LV,1,0\n",
        Some(SpectrumFault::NoPath(2)),
    ),
    (
        b"order,bus,re,im\n48,LV,0,0\n",
        Some(SpectrumFault::NoPath(1)),
    ),
    (b"order,bus,re,im\n2,LV,1,0\n4,LV,1,0\n50,LV,1,0\n", None),
    (b"order,bus,re,im\n45,HV,1,0\n9,HV,1,0\n", None),
];

#[test]
fn paths_of_rows(rt: HostRuntime) -> Result<(), Fail> {
    for (text, fault) in PATHS {
        assert!(rt; path(rt.alloc(), GROUNDED, text)? == fault);
    }
    let phases = b"order,bus,phase,re,im\n5,B1,a,1,0\n3,B1,b,1,0\n";
    assert!(rt; path(rt.alloc(), ONE_PHASE, phases)? == None);
    Ok(())
}
