// What the rows of a spectrum and of a levels file share.
ghost use Rattle.std.specs.Prelude.{◌≡◌, ◌≤◌, length, option_map};
ghost use Rattle.spectrum_reader.specs.Fields.{order_of, bus_named, decimal_in};
ghost use Rattle.study_model.specs.declared.limits.TheConstants.{MAX_BUSES};

use fixed_decimal::Decimal;
use std::str;
use study_model::Bus;

/// The least harmonic order of a row.
pub const MIN_ORDER: u32 = 2;

/// The greatest harmonic order of a row.
pub const MAX_ORDER: u32 = 50;

/// The order that a field writes: one or two digits without a leading zero, from 2 to 50.
#[tactic(auto, unfolding(crate::specs::Fields::order_of))]
pub(crate) fn order_of(field: &[u8]) -> Option<u32>
    ensures { result ≡ order_of field.now }
{
    let order = match field {
        [ones] if ones.is_ascii_digit() => u32::from(*ones - b'0'),
        [tens, ones] if tens.is_ascii_digit() && *tens != b'0' && ones.is_ascii_digit() => {
            u32::from(*tens - b'0') * 10 + u32::from(*ones - b'0')
        }
        _ => return None,
    };
    if order < MIN_ORDER || order > MAX_ORDER {
        return None;
    }
    Some(order)
}

/// The number of the bus of a name, from 0.
#[tactic(auto, unfolding(crate::specs::Fields::bus_named))]
pub(crate) fn bus_named(buses: &[Bus], name: &[u8]) -> Option<u32>
    requires { length buses.now ≤ MAX_BUSES }
    ensures { result ≡ bus_named buses.now name.now }
{
    let mut place = 0;
    for bus in buses {
        if bus.name.as_bytes() == name {
            return Some(place);
        }
        place += 1;
    }
    None
}

/// The decimal that a field writes, which is text.
#[tactic(auto, unfolding(crate::specs::Fields::decimal_in), using(crate::proofs::Ascii::no_decimal))]
pub(crate) fn decimal_in(field: &[u8]) -> Option<Decimal>
    ensures { result ≡ decimal_in field.now }
{
    match str::from_utf8(field) {
        Ok(text) => Decimal::from_text(text),
        Err(_) => None,
    }
}
