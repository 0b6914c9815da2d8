// A report that was torn: cut anywhere, with a digit changed, with two lines exchanged.
use crate::reports::{Answer, CURVE, CURVE_REPORT, RESONANT, RESONANT_REPORT, answered};
use std::test::Fail;

/// The first bytes of a report are no report.
#[test]
fn cut_anywhere(rt: HostRuntime) -> Result<(), Fail> {
    let text = RESONANT_REPORT.as_bytes();
    for len in 0..text.len() {
        let found = answered(rt.alloc(), RESONANT, &text[..len])?;
        let refused = matches!(found, Answer::No(1, _));
        assert!(rt; refused, "{len}");
    }
    Ok(())
}

/// In a report without a peak each digit tells.
#[test]
fn a_digit_changed(rt: HostRuntime) -> Result<(), Fail> {
    let mut text = Vec::new(rt.alloc());
    text.extend_from_slice(CURVE_REPORT.as_bytes())?;
    for place in 0..CURVE_REPORT.len() {
        if place >= text.len() {
            return Err("no such byte".into());
        }
        let byte = text[place];
        if byte >= b'0' && byte < b'9' {
            text[place] = byte + 1;
            let found = answered(rt.alloc(), CURVE, text.as_slice())?;
            let refused = matches!(found, Answer::No(_, _));
            assert!(rt; refused, "{place}");
            text[place] = byte;
        }
    }
    Ok(())
}

/// The report with the lines of these two numbers, from 0, exchanged.
fn exchanged(text: &str, first: usize, second: usize, into: &mut Vec<u8>) -> Result<(), Fail> {
    for number in 0..11 {
        let from = if number == first {
            second
        } else if number == second {
            first
        } else {
            number
        };
        if let Some(line) = text.lines().nth(from) {
            into.extend_from_slice(line.as_bytes())?;
            into.push(b'\n')?;
        }
    }
    Ok(())
}

/// No two lines may be exchanged.
#[test]
fn two_lines_exchanged(rt: HostRuntime) -> Result<(), Fail> {
    for first in 0..10 {
        for second in 0..first {
            let mut text = Vec::new(rt.alloc());
            exchanged(RESONANT_REPORT, first, second, &mut text)?;
            assert_eq!(rt; text.len(), RESONANT_REPORT.len());
            let found = answered(rt.alloc(), RESONANT, text.as_slice())?;
            let refused = matches!(found, Answer::No(_, _));
            assert!(rt; refused, "{first} {second}");
        }
    }
    Ok(())
}
