// The row that a text begins with, if it begins with one of the report of a scan.
ghost use Rattle.std.specs.Prelude.{◌≡◌};
ghost use Rattle.scan_report.specs.Loose.{scan_of, box_of, region_of, summary_of, end_of, row_of};

use crate::field_text::{
    box_word_of, field_at, first_of, long_of, method_in, name_in, net_of, ohms_of, order_of,
    second_of, short_of, threshold_of,
};
use crate::rows::Row;

#[tactic(auto, unfolding(crate::specs::Loose::scan_of))]
fn scan_of(text: &[u8]) -> Row
    ensures { result ≡ scan_of text.now }
{
    Row::Scan {
        name: name_in(field_at(text, 1)),
        bus: name_in(field_at(text, 2)),
        network: net_of(field_at(text, 3)),
        from: short_of(field_at(text, 4)),
        to: short_of(field_at(text, 5)),
        threshold: threshold_of(field_at(text, 6)),
        method: method_in(field_at(text, 7)),
    }
}

#[tactic(auto, unfolding(crate::specs::Loose::box_of))]
fn box_of(text: &[u8]) -> Row
    ensures { result ≡ box_of text.now }
{
    Row::BoxLine {
        number: short_of(field_at(text, 1)),
        lo: short_of(field_at(text, 2)),
        hi: short_of(field_at(text, 3)),
        word: box_word_of(field_at(text, 4)),
        at: order_of(field_at(text, 5)),
        micro_ohms: ohms_of(field_at(text, 6)),
    }
}

#[tactic(auto, unfolding(crate::specs::Loose::region_of))]
fn region_of(text: &[u8]) -> Row
    ensures { result ≡ region_of text.now }
{
    Row::Region {
        number: short_of(field_at(text, 1)),
        lo: short_of(field_at(text, 2)),
        hi: short_of(field_at(text, 3)),
        hertz_lo: long_of(field_at(text, 4)),
        hertz_hi: long_of(field_at(text, 5)),
        peaks: short_of(field_at(text, 6)),
        undecided: short_of(field_at(text, 7)),
        at: order_of(field_at(text, 8)),
        micro_ohms: ohms_of(field_at(text, 9)),
    }
}

#[tactic(auto, unfolding(crate::specs::Loose::summary_of))]
fn summary_of(text: &[u8]) -> Row
    ensures { result ≡ summary_of text.now }
{
    Row::Summary {
        name: name_in(field_at(text, 1)),
        boxes: short_of(field_at(text, 2)),
        cleared: short_of(field_at(text, 3)),
        peaks: short_of(field_at(text, 4)),
        undecided: short_of(field_at(text, 5)),
        regions: short_of(field_at(text, 6)),
    }
}

#[tactic(auto, unfolding(crate::specs::Loose::end_of))]
fn end_of(text: &[u8]) -> Row
    ensures { result ≡ end_of text.now }
{
    Row::End {
        status: short_of(field_at(text, 1)),
    }
}

#[tactic(auto, unfolding(crate::specs::Loose::row_of))]
pub(crate) fn row_of(text: &[u8]) -> Row
    ensures { result ≡ row_of text.now }
{
    match first_of(text) {
        b'b' => box_of(text),
        b'r' => region_of(text),
        b'e' => end_of(text),
        _ => {
            if second_of(text) == b'c' {
                scan_of(text)
            } else {
                summary_of(text)
            }
        }
    }
}
