// A spectrum of as many rows as one may have.
ghost use Rattle.study_model.specs.Lawful.{IsLawful};

use crate::studies::seventy_buses_of_phases;
use spectrum_reader::{SpectrumFault, read_spectrum};
use std::alloc::Global;
use std::test::Fail;
use study_model::Study;

/// So many rows under their header: of each order from 2 on each phase of each bus.
fn push_rows(alloc: Global, text: &mut String, mut left: u32) -> Result<(), Fail> {
    for order in 2..51 {
        for place in 0..210 {
            if left > 0 {
                let phase = ["a", "b", "c"][place % 3];
                let bus = place / 3;
                let row = format!(in alloc; "{order},B{bus},{phase},1,0\n")?;
                text.push_str(row.as_str())?;
                left -= 1;
            }
        }
    }
    Ok(())
}

/// How many rows the spectrum has, or why it is refused.
fn count(alloc: Global, study: &Study, text: &str) -> Result<usize, SpectrumFault>
    requires { IsLawful study.now }
{
    if text.len() > 1_000_000 {
        return Err(SpectrumFault::NoMemory);
    }
    let spectrum = read_spectrum(alloc, text.as_bytes(), study)?;
    Ok(spectrum.rows.len())
}

/// The row behind the last is refused, whatever it holds.
#[test]
fn ten_thousand_rows(rt: HostRuntime) -> Result<(), Fail> {
    let study = seventy_buses_of_phases(rt.alloc())?;
    let mut text = String::from_str(rt.alloc(), "order,bus,phase,re,im\n")?;
    push_rows(rt.alloc(), &mut text, 10_000)?;
    assert_eq!(rt; count(rt.alloc(), &study, &text), Ok(10_000));
    text.push_str("x\n")?;
    let refused = Err(SpectrumFault::BadRow(10_001));
    assert_eq!(rt; count(rt.alloc(), &study, &text), refused);
    Ok(())
}
