// The numbers at the keys of an entry.
ghost use Rattle.std.specs.Prelude.{◌≡◌, unsigned_abs};
ghost use Rattle.toml.specs.View.{view};
ghost use Rattle.study_reader.specs.Checks.{Reads, range_fault, millionths_of, decimal_check, decimal_in, optional_fault, decimal_fault, default_fault, option_value, decimal_or, decimal_value, is_zero, both_zero_fault, version_fault, version_value, scale_fault, scale_value, sections_of, sections_fault, sections_value};

use crate::keys::{find, key_of};
use fixed_decimal::Decimal;
use study_model::{Key, MAX_SECTIONS, Place, Range, StudyFault};
use toml::Value;

/// A decimal in its range.
fn ranged(decimal: Option<Decimal>, place: Place, range: Range) -> Result<Decimal, StudyFault>
    ensures read { Reads result (range_fault place range decimal) (millionths_of decimal) }
{
    let Some(decimal) = decimal else {
        return Err(StudyFault::BadDecimal(place));
    };
    if range.contains(decimal) {
        Ok(decimal)
    } else {
        Err(StudyFault::OutOfRange(place))
    }
}

/// A value that is a decimal in its range.
pub(crate) fn decimal_in(value: &Value, place: Place, range: Range) -> Result<Decimal, StudyFault>
    ensures read { Reads result (decimal_check place range (view value.now)) (decimal_in (view value.now)) }
{
    match value {
        Value::String(text) => ranged(Decimal::from_text(text.as_str()), place, range),
        Value::Integer(number) => ranged(Decimal::from_whole(*number).ok(), place, range),
        Value::Float(_) => Err(StudyFault::BareDecimal(place)),
        _ => Err(StudyFault::WrongKind(place)),
    }
}

/// A decimal in its range, which may be absent unless it is needed.
#[tactic(auto, unfolding(crate::specs::Checks::optional_fault, crate::specs::Checks::option_value))]
pub(crate) fn optional_decimal(
    entry: &Value,
    place: Place,
    key: Key,
    needed: bool,
    range: Range,
) -> Result<Option<Decimal>, StudyFault>
    ensures read { Reads result (optional_fault place key needed range (view entry.now)) (option_value key (view entry.now)) }
{
    match find(entry, key) {
        None => {
            if needed {
                Err(StudyFault::MissingKey(key_of(place, key)))
            } else {
                Ok(None)
            }
        }
        Some(value) => {
            let decimal = decimal_in(value, key_of(place, key), range)?;
            Ok(Some(decimal))
        }
    }
}

/// A decimal in its range, which has to stand there.
#[tactic(auto, unfolding(crate::specs::Checks::decimal_fault, crate::specs::Checks::decimal_value))]
pub(crate) fn decimal(
    entry: &Value,
    place: Place,
    key: Key,
    range: Range,
) -> Result<Decimal, StudyFault>
    ensures read { Reads result (decimal_fault place key range (view entry.now)) (decimal_value key (view entry.now)) }
{
    match find(entry, key) {
        None => Err(StudyFault::MissingKey(key_of(place, key))),
        Some(value) => decimal_in(value, key_of(place, key), range),
    }
}

/// A decimal in its range, or its default where it is absent.
#[tactic(auto, unfolding(crate::specs::Checks::default_fault, crate::specs::Checks::decimal_or))]
pub(crate) fn decimal_or(
    entry: &Value,
    place: Place,
    key: Key,
    range: Range,
    default: Decimal,
) -> Result<Decimal, StudyFault>
    ensures read { Reads result (default_fault place key range (view entry.now)) (decimal_or default key (view entry.now)) }
{
    match find(entry, key) {
        None => Ok(default),
        Some(value) => decimal_in(value, key_of(place, key), range),
    }
}

fn is_zero(decimal: &Option<Decimal>) -> bool
    ensures { result ≡ is_zero decimal.now }
{
    match decimal {
        Some(decimal) => decimal.millionths == 0,
        None => false,
    }
}

/// Two decimals aren't both 0, where both are there.
#[tactic(auto, unfolding(crate::specs::Checks::both_zero_fault))]
pub(crate) fn not_both_zero(
    place: Place,
    key: Key,
    a: &Option<Decimal>,
    b: &Option<Decimal>,
) -> Result<(), StudyFault>
    ensures read { Reads result (both_zero_fault place key a.now b.now) tt }
{
    if is_zero(a) && is_zero(b) {
        return Err(StudyFault::OutOfRange(key_of(place, key)));
    }
    Ok(())
}

/// The version, which is 1 or 2.
#[tactic(auto, unfolding(crate::specs::Checks::version_fault, crate::specs::Checks::version_value))]
pub(crate) fn version(entry: &Value, place: Place) -> Result<u32, StudyFault>
    ensures read { Reads result (version_fault place (view entry.now)) (version_value (view entry.now)) }
{
    match find(entry, Key::Version) {
        None => Err(StudyFault::MissingKey(key_of(place, Key::Version))),
        Some(Value::Integer(1)) => Ok(1),
        Some(Value::Integer(2)) => Ok(2),
        Some(Value::Integer(_)) => Err(StudyFault::VersionUnknown),
        Some(_) => Err(StudyFault::WrongKind(key_of(place, Key::Version))),
    }
}

/// How many binary places intervals have: 40, or 48.
#[tactic(auto, unfolding(crate::specs::Checks::scale_fault, crate::specs::Checks::scale_value))]
pub(crate) fn scale(entry: &Value, place: Place) -> Result<u32, StudyFault>
    ensures read { Reads result (scale_fault place (view entry.now)) (scale_value (view entry.now)) }
{
    match find(entry, Key::Scale) {
        None => Ok(40),
        Some(Value::Integer(40)) => Ok(40),
        Some(Value::Integer(48)) => Ok(48),
        Some(Value::Integer(_)) => Err(StudyFault::OutOfRange(key_of(place, Key::Scale))),
        Some(_) => Err(StudyFault::WrongKind(key_of(place, Key::Scale))),
    }
}

fn section_count(number: i64, place: Place) -> Result<u32, StudyFault>
    ensures read { Reads result (sections_of place number) (unsigned_abs number) }
{
    if number < 1 || number > i64::from(MAX_SECTIONS) {
        return Err(StudyFault::OutOfRange(place));
    }
    Ok(number as u32)
}

/// The number of a line's sections.
#[tactic(auto, unfolding(crate::specs::Checks::sections_fault, crate::specs::Checks::sections_value))]
pub(crate) fn sections(entry: &Value, place: Place) -> Result<u32, StudyFault>
    ensures read { Reads result (sections_fault place (view entry.now)) (sections_value (view entry.now)) }
{
    match find(entry, Key::Sections) {
        None => Ok(1),
        Some(Value::Integer(number)) => section_count(*number, key_of(place, Key::Sections)),
        Some(_) => Err(StudyFault::WrongKind(key_of(place, Key::Sections))),
    }
}
