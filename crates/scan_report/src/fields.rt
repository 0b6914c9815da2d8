// The fields of a row: what kinds there are, and each one's text.
ghost use Rattle.std.specs.Prelude.{◌≡◌, ◌≤◌, ◌+◌, ◌++◌, length};
ghost use Rattle.scan_report.specs.Fields.{net_word, box_word, phase_word, verdict_word, feed_word, order_or_dash, ohms_or_dash, ohms_or_curve, percent_or_dash, size_or_dash, field_text, fields_text, most_of, most_of_all};
ghost use Rattle.scan_report.specs.Rows.{IsOhms, IsAboveZero, HasFieldText, HaveText};

use crate::line::{LineBuf, push_millionths, push_number, push_percent, push_places};
use crate::rows::{BoxWord, NetWord, PhaseWord};
use fixed_decimal::Decimal;
use ieee519_limits::Verdict;
use study_model::{Method, Name};

/// A field of a row. Orders, hertz, ohms and sizes are in millionths, percents in ten-thousandths.
#[derive(Clone, Copy)]
pub enum Field {
    Name(Name),
    Number(u32),
    Order(u32),
    Hertz(u64),
    /// Ohms, or none where they are those of a curve.
    Threshold(Option<Decimal>),
    /// An order, or none.
    At(Option<u32>),
    /// Ohms, or none.
    Bound(Option<i128>),
    Network(NetWord),
    Found(BoxWord),
    Method(Method),
    Phase(PhaseWord),
    /// A percentage, or none.
    Percent(Option<u64>),
    Verdict(Verdict),
    /// A bank's size, or none.
    Size(Option<Decimal>),
    /// Whether some bus floats.
    Floating(bool),
}

fn net_text(word: NetWord) -> &'static [u8]
    ensures text { result.now ≡ net_word word }
    ensures len { length result.now ≤ 8 }
{
    match word {
        NetWord::Positive => b"positive",
        NetWord::Zero => b"zero",
        NetWord::A => b"a",
        NetWord::B => b"b",
        NetWord::C => b"c",
    }
}

fn box_text(word: BoxWord) -> &'static [u8]
    ensures text { result.now ≡ box_word word }
    ensures len { length result.now ≤ 9 }
{
    match word {
        BoxWord::Cleared => b"cleared",
        BoxWord::Peak => b"peak",
        BoxWord::Undecided => b"undecided",
    }
}

fn phase_text(word: PhaseWord) -> &'static [u8]
    ensures text { result.now ≡ phase_word word }
    ensures len { length result.now ≤ 1 }
{
    match word {
        PhaseWord::S => b"s",
        PhaseWord::A => b"a",
        PhaseWord::B => b"b",
        PhaseWord::C => b"c",
    }
}

fn verdict_text(verdict: Verdict) -> &'static [u8]
    ensures text { result.now ≡ verdict_word verdict }
    ensures len { length result.now ≤ 9 }
{
    match verdict {
        Verdict::Pass => b"pass",
        Verdict::Fail => b"fail",
        Verdict::Undecided => b"undecided",
    }
}

fn feed_text(floating: bool) -> &'static [u8]
    ensures text { result.now ≡ feed_word floating }
    ensures len { length result.now ≤ 8 }
{
    if floating { b"floating" } else { b"fed" }
}

fn push_at(line: &mut LineBuf, at: Option<u32>)
    requires { length line.old + 21 ≤ 256 }
    ensures text { line.new ≡ line.old ++ order_or_dash at }
    ensures len { length line.new ≤ length line.old + 21 }
{
    match at {
        Some(at) => push_millionths(line, u64::from(at)),
        None => line.push(b'-'),
    }
}

#[tactic(auto, using(crate::proofs::Digits::length_wide))]
fn push_ohms(line: &mut LineBuf, ohms: Option<i128>)
    requires range { IsOhms ohms }
    requires room { length line.old + 38 ≤ 256 }
    ensures text { line.new ≡ line.old ++ ohms_or_dash ohms }
    ensures len { length line.new ≤ length line.old + 38 }
{
    match ohms {
        Some(ohms) => push_places(line, ohms.unsigned_abs()),
        None => line.push(b'-'),
    }
}

fn push_threshold(line: &mut LineBuf, ohms: Option<Decimal>)
    requires range { IsAboveZero ohms }
    requires room { length line.old + 21 ≤ 256 }
    ensures text { line.new ≡ line.old ++ ohms_or_curve ohms }
    ensures len { length line.new ≤ length line.old + 21 }
{
    match ohms {
        Some(ohms) => push_millionths(line, ohms.millionths.unsigned_abs()),
        None => line.push_text(b"curve"),
    }
}

fn push_share(line: &mut LineBuf, percent: Option<u64>)
    requires { length line.old + 21 ≤ 256 }
    ensures text { line.new ≡ line.old ++ percent_or_dash percent }
    ensures len { length line.new ≤ length line.old + 21 }
{
    match percent {
        Some(percent) => push_percent(line, percent),
        None => line.push(b'-'),
    }
}

fn push_size(line: &mut LineBuf, size: Option<Decimal>)
    requires range { IsAboveZero size }
    requires room { length line.old + 21 ≤ 256 }
    ensures text { line.new ≡ line.old ++ size_or_dash size }
    ensures len { length line.new ≤ length line.old + 21 }
{
    match size {
        Some(size) => push_millionths(line, size.millionths.unsigned_abs()),
        None => line.push(b'-'),
    }
}

/// Puts a field's text at the end.
fn push_field(line: &mut LineBuf, field: &Field)
    requires has { HasFieldText field.now }
    requires room { length line.old + most_of field.now ≤ 256 }
    ensures text { line.new ≡ line.old ++ field_text field.now }
    ensures len { length line.new ≤ length line.old + most_of field.now }
{
    match field {
        Field::Name(name) => line.push_text(name.as_bytes()),
        Field::Number(number) => push_number(line, *number),
        Field::Order(order) => push_millionths(line, u64::from(*order)),
        Field::Hertz(hertz) => push_millionths(line, *hertz),
        Field::Threshold(ohms) => push_threshold(line, *ohms),
        Field::At(order) => push_at(line, *order),
        Field::Bound(ohms) => push_ohms(line, *ohms),
        Field::Network(word) => line.push_text(net_text(*word)),
        Field::Found(word) => line.push_text(box_text(*word)),
        Field::Method(method) => line.push_text(method.text().as_bytes()),
        Field::Phase(word) => line.push_text(phase_text(*word)),
        Field::Percent(percent) => push_share(line, *percent),
        Field::Verdict(verdict) => line.push_text(verdict_text(*verdict)),
        Field::Size(size) => push_size(line, *size),
        Field::Floating(floating) => line.push_text(feed_text(*floating)),
    }
}

/// Puts each field after a comma at the end, and a line feed.
fn push_fields(line: &mut LineBuf, fields: &[Field])
    requires have { HaveText fields.now }
    requires room { length line.old + most_of_all fields.now ≤ 256 }
    ensures text { line.new ≡ line.old ++ fields_text fields.now }
    ensures len { length line.new ≤ length line.old + most_of_all fields.now }
{
    match fields {
        [] => line.push(b'\n'),
        [first, rest @ ..] => {
            line.push(b',');
            push_field(line, first);
            push_fields(line, rest);
        }
    }
}

/// Sets the line to a word, each field after a comma, and a line feed.
pub(crate) fn set_line(line: &mut LineBuf, word: &[u8], fields: &[Field])
    requires have { HaveText fields.now }
    requires room { length word.now + most_of_all fields.now ≤ 255 }
    ensures text { line.new ≡ word.now ++ fields_text fields.now }
    ensures len { length line.new ≤ 255 }
{
    line.clear();
    line.push_text(word);
    push_fields(line, fields);
}
