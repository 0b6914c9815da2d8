// The fields of a row, read loosely: each text gives some value, and a field's own text gives its value.
ghost use Rattle.std.specs.Prelude.{◌≡◌, ◌≤◌, [], ◌∷◌, length};
ghost use Rattle.std.specs.List.{prefix_len};
ghost use Rattle.scan_report.specs.Loose.{is_inner, field_of, after_field, field_at, digit_on, number_of, first_of, second_of, short_of, long_of, order_of, ohms_of, threshold_of, name_in, net_of, box_word_of, method_in};

use crate::rows::{BoxWord, NetWord};
use fixed_decimal::Decimal;
use study_model::{Method, Name};

/// No number of a row is greater.
const CAP: u128 = 10_000_000_000_000_000_000_000_000_000_000_000_000;

fn is_inner(byte: u8) -> bool
    ensures { result ≡ is_inner byte }
{
    byte != b',' && byte != b'\n'
}

/// How many bytes the first field has.
fn field_len(text: &[u8]) -> usize
    ensures count { result ≡ prefix_len is_inner text.now }
    ensures within { result ≤ length text.now }
{
    text.iter().take_while(|byte| is_inner(**byte)).count()
}

#[tactic(auto, unfolding(crate::specs::Loose::field_of))]
fn field_of(text: &[u8]) -> &[u8]
    ensures { result.now ≡ field_of text.now }
{
    &text[..field_len(text)]
}

#[tactic(auto, unfolding(crate::specs::Loose::after_field))]
fn after_field(text: &[u8]) -> &[u8]
    ensures { result.now ≡ after_field text.now }
{
    let len = field_len(text);
    if len < text.len() {
        &text[len + 1..]
    } else {
        &text[text.len()..]
    }
}

/// The field of a text that has this number, its word being 0.
pub(crate) fn field_at(text: &[u8], number: u32) -> &[u8]
    ensures { result.now ≡ field_at number text.now }
{
    if number == 0 {
        field_of(text)
    } else {
        field_at(after_field(text), number - 1)
    }
}

fn digit_on(value: u128, byte: u8) -> u128
    ensures { result ≡ digit_on value byte }
{
    if byte == b'.' {
        value
    } else {
        (value.min(CAP) * 10 + u128::from(byte.saturating_sub(48))).min(CAP)
    }
}

#[tactic(auto, unfolding(crate::specs::Loose::number_of))]
fn number_of(text: &[u8]) -> u128
    ensures { result ≡ number_of text.now }
{
    text.iter().fold(0, |value, byte| digit_on(value, *byte))
}

pub(crate) fn first_of(text: &[u8]) -> u8
    ensures { result ≡ first_of text.now }
{
    match text {
        [first, ..] => *first,
        [] => 0,
    }
}

pub(crate) fn second_of(text: &[u8]) -> u8
    ensures { result ≡ second_of text.now }
{
    match text {
        [_, rest @ ..] => first_of(rest),
        [] => 0,
    }
}

#[tactic(auto, unfolding(crate::specs::Loose::short_of))]
pub(crate) fn short_of(text: &[u8]) -> u32
    ensures { result ≡ short_of text.now }
{
    number_of(text).min(4_294_967_295) as u32
}

#[tactic(auto, unfolding(crate::specs::Loose::long_of))]
pub(crate) fn long_of(text: &[u8]) -> u64
    ensures { result ≡ long_of text.now }
{
    number_of(text).min(18_446_744_073_709_551_615) as u64
}

#[tactic(auto, unfolding(crate::specs::Loose::order_of))]
pub(crate) fn order_of(text: &[u8]) -> Option<u32>
    ensures { result ≡ order_of text.now }
{
    if first_of(text) == b'-' {
        None
    } else {
        Some(short_of(text))
    }
}

#[tactic(auto, unfolding(crate::specs::Loose::ohms_of))]
pub(crate) fn ohms_of(text: &[u8]) -> Option<i128>
    ensures { result ≡ ohms_of text.now }
{
    if first_of(text) == b'-' {
        None
    } else {
        Some(number_of(text).min(1 << 120) as i128)
    }
}

#[tactic(auto, unfolding(crate::specs::Loose::threshold_of))]
pub(crate) fn threshold_of(text: &[u8]) -> Option<Decimal>
    ensures { result ≡ threshold_of text.now }
{
    if first_of(text) == b'c' {
        return None;
    }
    Some(Decimal {
        millionths: number_of(text).min(999_999_999_999).max(1) as i64,
    })
}

/// The name `a`.
fn any_name() -> Name
    ensures { result ≡ 97 ∷ [] }
{
    let mut bytes = [0; 32];
    bytes[0] = b'a';
    Name { len: 1, bytes }
}

#[tactic(auto, unfolding(crate::specs::Loose::name_in))]
pub(crate) fn name_in(text: &[u8]) -> Name
    ensures { result ≡ name_in text.now }
{
    match Name::parse(text) {
        Some(name) => name,
        None => any_name(),
    }
}

#[tactic(auto, unfolding(crate::specs::Loose::net_of))]
pub(crate) fn net_of(text: &[u8]) -> NetWord
    ensures { result ≡ net_of text.now }
{
    match first_of(text) {
        b'p' => NetWord::Positive,
        b'z' => NetWord::Zero,
        b'a' => NetWord::A,
        b'b' => NetWord::B,
        _ => NetWord::C,
    }
}

#[tactic(auto, unfolding(crate::specs::Loose::box_word_of))]
pub(crate) fn box_word_of(text: &[u8]) -> BoxWord
    ensures { result ≡ box_word_of text.now }
{
    match first_of(text) {
        b'c' => BoxWord::Cleared,
        b'p' => BoxWord::Peak,
        _ => BoxWord::Undecided,
    }
}

#[tactic(auto, unfolding(crate::specs::Loose::method_in))]
pub(crate) fn method_in(text: &[u8]) -> Method
    ensures { result ≡ method_in text.now }
{
    if first_of(text) == b'e' {
        return Method::Elimination;
    }
    match second_of(text) {
        b'o' => Method::Both,
        _ => Method::Branchwise,
    }
}
