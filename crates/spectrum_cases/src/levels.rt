// Texts read as planning levels, and the levels found in them.
ghost use Rattle.study_model.specs.Lawful.{IsLawful};

use crate::studies::two_buses;
use spectrum_reader::{Level, Levels, LevelsFault, level_of, read_levels};
use std::alloc::Global;
use std::process::Abort;
use std::test::Fail;
use study_model::Study;

/// A bus, an order, and ten-thousandths of a percent.
type Row = (u32, u32, u64);

/// What comes of a text: the rows of a levels file, or a refusal.
#[derive(Clone, Copy)]
enum Wanted {
    Rows(&'static [Row]),
    Refused(LevelsFault),
}

/// Reads a text that isn't too long for the reader.
fn read(alloc: Global, study: &Study, text: &[u8]) -> Result<Levels, LevelsFault>
    requires { IsLawful study.now }
{
    if text.len() > 1_000_000 {
        return Err(LevelsFault::NoMemory);
    }
    read_levels(alloc, text, study)
}

fn are_rows(rows: &[Level], wanted: &[Row]) -> bool {
    rows.len() == wanted.len()
        && rows.iter().zip(wanted.iter()).all(|(row, wanted)| (row.bus, row.order, row.percent)
            == *wanted)
}

fn is_wanted(found: Result<Levels, LevelsFault>, wanted: Wanted) -> bool {
    match (found, wanted) {
        (Ok(levels), Wanted::Rows(rows)) => are_rows(levels.rows.as_slice(), rows),
        (Err(fault), Wanted::Refused(refusal)) => fault == refusal,
        _ => false,
    }
}

/// Texts beside two buses, and what comes of them.
const TEXTS: [(&str, &[u8], Wanted); 10] = [
    ("a header alone", b"bus,order,percent\n", Wanted::Rows(&[])),
    (
        "an order and the total",
        b"bus,order,percent\nB1,5,8.7\nB1,thd,9\n",
        Wanted::Rows(&[(0, 5, 87_000), (0, 0, 90_000)]),
    ),
    (
        "the percents at both ends",
        b"bus,order,percent\nB1,2,0.0001\nB2,50,100\nB2,2,100.0\n",
        Wanted::Rows(&[(0, 2, 1), (1, 50, 1_000_000), (1, 2, 1_000_000)]),
    ),
    (
        "zeros past the fourth place",
        b"bus,order,percent\nB1,2,8.660200\n",
        Wanted::Rows(&[(0, 2, 86_602)]),
    ),
    (
        "a byte order mark, quotes, empty lines and carriage returns",
        b"\xEF\xBB\xBF\r\n\"bus\",order,percent\r\n\r\nB2,\"thd\",\"3\"\r\n",
        Wanted::Rows(&[(1, 0, 30_000)]),
    ),
    ("no bytes", b"", Wanted::Refused(LevelsFault::BadHeader)),
    (
        "the header of a spectrum",
        b"order,bus,re,im\n",
        Wanted::Refused(LevelsFault::BadHeader),
    ),
    (
        "names in another order",
        b"order,bus,percent\n",
        Wanted::Refused(LevelsFault::BadHeader),
    ),
    (
        "a header that is cut off",
        b"bus,order\n",
        Wanted::Refused(LevelsFault::BadHeader),
    ),
    (
        "a header with a field too many",
        b"bus,order,percent,\n",
        Wanted::Refused(LevelsFault::BadHeader),
    ),
];

#[test]
fn whole_texts(rt: HostRuntime) -> Result<(), Fail> {
    let study = two_buses(rt.alloc())?;
    for (label, text, wanted) in TEXTS {
        assert!(rt;
            is_wanted(read(rt.alloc(), &study, text), wanted),
            "{label}"
        );
    }
    Ok(())
}

/// Rows under a header that is right, and their first refusal.
const ROWS: [(&str, &[u8], LevelsFault); 20] = [
    ("a field too few", b"B1,5\n", LevelsFault::BadRow(1)),
    ("a field too many", b"B1,5,3,\n", LevelsFault::BadRow(1)),
    ("order 1", b"B1,1,3\n", LevelsFault::BadOrder(1)),
    ("order 51", b"B1,51,3\n", LevelsFault::BadOrder(1)),
    ("order 0", b"B1,0,3\n", LevelsFault::BadOrder(1)),
    ("a leading zero", b"B1,05,3\n", LevelsFault::BadOrder(1)),
    (
        "the total in capitals",
        b"B1,THD,3\n",
        LevelsFault::BadOrder(1),
    ),
    (
        "no bus of the name",
        b"B3,5,3\n",
        LevelsFault::UnknownBus(1),
    ),
    ("a percent of 0", b"B1,5,0\n", LevelsFault::BadPercent(1)),
    (
        "a negative percent",
        b"B1,5,-3\n",
        LevelsFault::BadPercent(1),
    ),
    (
        "a percent below the least",
        b"B1,5,0.00005\n",
        LevelsFault::BadPercent(1),
    ),
    (
        "a percent above 100",
        b"B1,5,100.0001\n",
        LevelsFault::BadPercent(1),
    ),
    ("five places", b"B1,5,8.66025\n", LevelsFault::BadPercent(1)),
    (
        "a percent that is no decimal",
        b"B1,5,3%\n",
        LevelsFault::BadPercent(1),
    ),
    (
        "a percent that is no text",
        b"B1,5,3\xFF\n",
        LevelsFault::BadPercent(1),
    ),
    (
        "a row twice",
        b"B1,5,3\nB2,5,3\nB1,5,4\n",
        LevelsFault::Repeated(3),
    ),
    (
        "a total twice",
        b"B1,thd,3\nB1,thd,3\n",
        LevelsFault::Repeated(2),
    ),
    ("fields before the order", b"B3,1\n", LevelsFault::BadRow(1)),
    (
        "the order before the bus",
        b"B3,1,x\n",
        LevelsFault::BadOrder(1),
    ),
    (
        "the bus before the percent",
        b"B3,5,x\n",
        LevelsFault::UnknownBus(1),
    ),
];

#[test]
fn rows_of_two_buses(rt: HostRuntime) -> Result<(), Fail> {
    let study = two_buses(rt.alloc())?;
    for (label, rows, fault) in ROWS {
        let mut text = Vec::from_slice(rt.alloc(), b"bus,order,percent\n")?;
        text.extend_from_slice(rows)?;
        let found = read(rt.alloc(), &study, text.as_slice());
        assert!(rt; is_wanted(found, Wanted::Refused(fault)), "{label}");
    }
    Ok(())
}

/// The level of a bus at an order.
const FOUND: [(u32, u32, Option<u64>); 6] = [
    (0, 5, Some(87_000)),
    (0, 0, Some(90_000)),
    (1, 5, Some(10_000)),
    (1, 0, None),
    (0, 7, None),
    (2, 5, None),
];

#[test]
fn levels_of_buses(rt: HostRuntime) -> Result<(), Fail> {
    let study = two_buses(rt.alloc())?;
    let text = b"bus,order,percent\nB1,5,8.7\nB1,thd,9\nB2,5,1\n";
    let levels = read(rt.alloc(), &study, text)?;
    for (bus, order, percent) in FOUND {
        assert_eq!(rt; level_of(&levels, bus, order), percent, "{bus} {order}");
    }
    Ok(())
}
