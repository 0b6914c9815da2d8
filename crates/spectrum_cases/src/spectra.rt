// Texts read as spectra.
ghost use Rattle.study_model.specs.Lawful.{IsLawful};

use crate::studies::{one_bus_of_phases, two_buses};
use spectrum_reader::{Injection, Spectrum, SpectrumFault, read_spectrum};
use std::alloc::Global;
use std::process::Abort;
use std::test::Fail;
use study_model::Study;

/// An order, a bus, a phase, and millionths of an ampere.
type Row = (u32, u32, u32, i64, i64);

/// What comes of a text: the rows of a spectrum, or a refusal.
#[derive(Clone, Copy)]
enum Wanted {
    Rows(&'static [Row]),
    Refused(SpectrumFault),
}

/// Reads a text that isn't too long for the reader.
fn read(alloc: Global, study: &Study, text: &[u8]) -> Result<Spectrum, SpectrumFault>
    requires { IsLawful study.now }
{
    if text.len() > 1_000_000 {
        return Err(SpectrumFault::NoMemory);
    }
    read_spectrum(alloc, text, study)
}

fn is_row(row: &Injection, wanted: Row) -> bool {
    (row.order, row.bus, row.phase) == (wanted.0, wanted.1, wanted.2)
        && (row.re.millionths, row.im.millionths) == (wanted.3, wanted.4)
}

fn are_rows(rows: &[Injection], wanted: &[Row]) -> bool {
    rows.len() == wanted.len()
        && rows
            .iter()
            .zip(wanted.iter())
            .all(|(row, wanted)| is_row(row, *wanted))
}

fn is_wanted(found: Result<Spectrum, SpectrumFault>, wanted: Wanted) -> bool {
    match (found, wanted) {
        (Ok(spectrum), Wanted::Rows(rows)) => are_rows(spectrum.rows.as_slice(), rows),
        (Err(fault), Wanted::Refused(refusal)) => fault == refusal,
        _ => false,
    }
}

fn assert_all(rt: &impl Abort, alloc: Global, study: &Study, cases: &[(&str, &[u8], Wanted)])
    requires { IsLawful study.now }
{
    for (label, text, wanted) in cases {
        assert!(rt; is_wanted(read(alloc, study, text), *wanted), "{label}");
    }
}

/// Texts beside two buses, and what comes of them.
const TEXTS: [(&str, &[u8], Wanted); 19] = [
    ("a header alone", b"order,bus,re,im\n", Wanted::Rows(&[])),
    (
        "one row",
        b"order,bus,re,im\n5,B1,100,0\n",
        Wanted::Rows(&[(5, 0, 0, 100_000_000, 0)]),
    ),
    (
        "no line feed at the end",
        b"order,bus,re,im\n5,B1,100,0",
        Wanted::Rows(&[(5, 0, 0, 100_000_000, 0)]),
    ),
    (
        "the orders at both ends, and negative currents",
        b"order,bus,re,im\n2,B1,-0.000001,0.5\n50,B2,-999999.999999,-0\n",
        Wanted::Rows(&[(2, 0, 0, -1, 500_000), (50, 1, 0, -999_999_999_999, 0)]),
    ),
    (
        "one order at two buses, and one bus at two orders",
        b"order,bus,re,im\n7,B2,1,0\n7,B1,1,0\n9,B2,1,0\n",
        Wanted::Rows(&[
            (7, 1, 0, 1_000_000, 0),
            (7, 0, 0, 1_000_000, 0),
            (9, 1, 0, 1_000_000, 0),
        ]),
    ),
    (
        "a byte order mark",
        b"\xEF\xBB\xBForder,bus,re,im\n5,B1,1,0\n",
        Wanted::Rows(&[(5, 0, 0, 1_000_000, 0)]),
    ),
    (
        "empty lines",
        b"\n\r\norder,bus,re,im\n\n\n5,B1,1,0\n\n",
        Wanted::Rows(&[(5, 0, 0, 1_000_000, 0)]),
    ),
    (
        "ends of lines with a carriage return",
        b"order,bus,re,im\r\n5,B1,1,0\r\n",
        Wanted::Rows(&[(5, 0, 0, 1_000_000, 0)]),
    ),
    (
        "a quoted header and quoted fields",
        b"\"order\",bus,\"re\",im\n\"5\",\"B1\",1,\"0\"\n",
        Wanted::Rows(&[(5, 0, 0, 1_000_000, 0)]),
    ),
    ("no bytes", b"", Wanted::Refused(SpectrumFault::BadHeader)),
    (
        "an empty line alone",
        b"\n",
        Wanted::Refused(SpectrumFault::BadHeader),
    ),
    (
        "the header of the other model",
        b"order,bus,phase,re,im\n5,B1,a,1,0\n",
        Wanted::Refused(SpectrumFault::BadHeader),
    ),
    (
        "a header with a space",
        b"order, bus,re,im\n5,B1,1,0\n",
        Wanted::Refused(SpectrumFault::BadHeader),
    ),
    (
        "a header with capitals",
        b"Order,bus,re,im\n",
        Wanted::Refused(SpectrumFault::BadHeader),
    ),
    (
        "a header that is cut off",
        b"order,bus,re\n5,B1,1\n",
        Wanted::Refused(SpectrumFault::BadHeader),
    ),
    (
        "a header with a field too many",
        b"order,bus,re,im,\n5,B1,1,0\n",
        Wanted::Refused(SpectrumFault::BadHeader),
    ),
    (
        "a header that is no text",
        b"order,bus,re,i\xFF\n",
        Wanted::Refused(SpectrumFault::BadHeader),
    ),
    (
        "rows without a header",
        b"5,B1,1,0\n",
        Wanted::Refused(SpectrumFault::BadHeader),
    ),
    (
        "a second header",
        b"order,bus,re,im\norder,bus,re,im\n",
        Wanted::Refused(SpectrumFault::BadOrder(1)),
    ),
];

#[test]
fn whole_texts(rt: HostRuntime) -> Result<(), Fail> {
    let study = two_buses(rt.alloc())?;
    assert_all(&rt, rt.alloc(), &study, &TEXTS);
    Ok(())
}

/// Rows under a header that is right, beside two buses, and their first refusal.
const ROWS: [(&str, &[u8], SpectrumFault); 30] = [
    ("a field too few", b"5,B1,1\n", SpectrumFault::BadRow(1)),
    ("a field too many", b"5,B1,1,0,\n", SpectrumFault::BadRow(1)),
    ("a phase", b"5,B1,a,1,0\n", SpectrumFault::BadRow(1)),
    (
        "a line of a space",
        b"5,B1,1,0\n \n",
        SpectrumFault::BadRow(2),
    ),
    (
        "an open quote",
        b"5,B1,1,0\n\"7,B1,1,0\n",
        SpectrumFault::BadRow(2),
    ),
    ("order 0", b"0,B1,1,0\n", SpectrumFault::BadOrder(1)),
    ("order 1", b"1,B1,1,0\n", SpectrumFault::BadOrder(1)),
    ("order 51", b"51,B1,1,0\n", SpectrumFault::BadOrder(1)),
    ("order 99", b"99,B1,1,0\n", SpectrumFault::BadOrder(1)),
    ("order 100", b"100,B1,1,0\n", SpectrumFault::BadOrder(1)),
    ("a leading zero", b"05,B1,1,0\n", SpectrumFault::BadOrder(1)),
    (
        "two leading zeros",
        b"005,B1,1,0\n",
        SpectrumFault::BadOrder(1),
    ),
    ("no order", b",B1,1,0\n", SpectrumFault::BadOrder(1)),
    (
        "a negative order",
        b"-5,B1,1,0\n",
        SpectrumFault::BadOrder(1),
    ),
    (
        "an order with a sign",
        b"+5,B1,1,0\n",
        SpectrumFault::BadOrder(1),
    ),
    (
        "an order with a space",
        b" 5,B1,1,0\n",
        SpectrumFault::BadOrder(1),
    ),
    (
        "an order with a point",
        b"5.,B1,1,0\n",
        SpectrumFault::BadOrder(1),
    ),
    (
        "a letter beside a digit",
        b"5a,B1,1,0\n",
        SpectrumFault::BadOrder(1),
    ),
    (
        "an order that is no text",
        b"\xFF,B1,1,0\n",
        SpectrumFault::BadOrder(1),
    ),
    (
        "no bus of the name",
        b"5,B3,1,0\n",
        SpectrumFault::UnknownBus(1),
    ),
    (
        "a bus in small letters",
        b"5,b1,1,0\n",
        SpectrumFault::UnknownBus(1),
    ),
    (
        "a bus without a name",
        b"5,,1,0\n",
        SpectrumFault::UnknownBus(1),
    ),
    (
        "a bus with a byte more",
        b"5,B1 ,1,0\n",
        SpectrumFault::UnknownBus(1),
    ),
    (
        "a current that is no decimal",
        b"5,B1,1e3,0\n",
        SpectrumFault::BadDecimal(1),
    ),
    ("no current", b"5,B1,1,\n", SpectrumFault::BadDecimal(1)),
    (
        "seven places",
        b"5,B1,1,0.1234567\n",
        SpectrumFault::BadDecimal(1),
    ),
    (
        "a million",
        b"5,B1,1000000,0\n",
        SpectrumFault::BadDecimal(1),
    ),
    (
        "a current that is no text",
        b"5,B1,1\xFF,0\n",
        SpectrumFault::BadDecimal(1),
    ),
    (
        "a row twice",
        b"5,B1,1,0\n7,B1,1,0\n5,B1,2,0\n",
        SpectrumFault::Repeated(3),
    ),
    (
        "all is wrong, and then the next row",
        b"1,B3,x,y\n5,B1,1\n",
        SpectrumFault::BadOrder(1),
    ),
];

fn assert_refusals(
    rt: &impl Abort,
    alloc: Global,
    study: &Study,
    header: &[u8],
    cases: &[(&str, &[u8], SpectrumFault)],
) -> Result<(), Fail>
    requires { IsLawful study.now }
{
    for (label, rows, fault) in cases {
        let mut text = Vec::from_slice(alloc, header)?;
        text.extend_from_slice(rows)?;
        assert!(rt;
            is_wanted(read(alloc, study, text.as_slice()), Wanted::Refused(*fault)),
            "{label}"
        );
    }
    Ok(())
}

#[test]
fn rows_of_two_buses(rt: HostRuntime) -> Result<(), Fail> {
    let study = two_buses(rt.alloc())?;
    assert_refusals(&rt, rt.alloc(), &study, b"order,bus,re,im\n", &ROWS)
}

/// Each of two neighbouring faults of a row, with the one that is judged first.
const ORDERED: [(&str, &[u8], SpectrumFault); 6] = [
    (
        "fields before the order",
        b"1,B1,a,1\n",
        SpectrumFault::BadRow(1),
    ),
    (
        "the order before the bus",
        b"1,B2,a,1,0\n",
        SpectrumFault::BadOrder(1),
    ),
    (
        "the bus before the phase",
        b"5,B2,d,1,0\n",
        SpectrumFault::UnknownBus(1),
    ),
    (
        "the phase before the current",
        b"5,B1,d,x,0\n",
        SpectrumFault::BadPhase(1),
    ),
    (
        "the current before the repeat",
        b"5,B1,a,1,0\n5,B1,a,1,x\n",
        SpectrumFault::BadDecimal(2),
    ),
    (
        "a repeat",
        b"5,B1,a,1,0\n5,B1,b,1,0\n5,B1,a,1,0\n",
        SpectrumFault::Repeated(3),
    ),
];

/// Phases that are none.
const PHASES: [(&str, &[u8], SpectrumFault); 5] = [
    (
        "a fourth phase",
        b"5,B1,d,1,0\n",
        SpectrumFault::BadPhase(1),
    ),
    ("no phase", b"5,B1,,1,0\n", SpectrumFault::BadPhase(1)),
    ("a capital", b"5,B1,A,1,0\n", SpectrumFault::BadPhase(1)),
    ("two phases", b"5,B1,ab,1,0\n", SpectrumFault::BadPhase(1)),
    (
        "a row without a phase",
        b"5,B1,1,0\n",
        SpectrumFault::BadRow(1),
    ),
];

#[test]
fn rows_of_phases(rt: HostRuntime) -> Result<(), Fail> {
    let study = one_bus_of_phases(rt.alloc())?;
    assert_refusals(
        &rt,
        rt.alloc(),
        &study,
        b"order,bus,phase,re,im\n",
        &ORDERED,
    )?;
    assert_refusals(&rt, rt.alloc(), &study, b"order,bus,phase,re,im\n", &PHASES)
}

/// Texts of the phases model.
const OF_PHASES: [(&str, &[u8], Wanted); 2] = [
    (
        "three phases",
        b"order,bus,phase,re,im\n5,B1,a,1,0\n5,B1,b,0,1\n5,B1,c,-1,0\n",
        Wanted::Rows(&[
            (5, 0, 0, 1_000_000, 0),
            (5, 0, 1, 0, 1_000_000),
            (5, 0, 2, -1_000_000, 0),
        ]),
    ),
    (
        "the header of the other model",
        b"order,bus,re,im\n5,B1,1,0\n",
        Wanted::Refused(SpectrumFault::BadHeader),
    ),
];

#[test]
fn texts_of_phases(rt: HostRuntime) -> Result<(), Fail> {
    let study = one_bus_of_phases(rt.alloc())?;
    assert_all(&rt, rt.alloc(), &study, &OF_PHASES);
    Ok(())
}
