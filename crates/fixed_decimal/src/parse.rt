// Decimals from their text and from whole numbers.
ghost use Rattle.std.specs.Prelude.{pos, ◌≡◌, ◌≤◌, ◌<◌, ◌^◌, ◌*◌, ◌-◌, ◌+◌, List, ℕ, length, min, true};
ghost use Rattle.std.specs.Result.{result_ok};
ghost use Rattle.std.specs.List.{prefix_len};
ghost use Rattle.std.specs.Char.{is_ascii_digit};
ghost use Rattle.fixed_decimal.specs.Parsed.{number, AreDigits, parts_of, with_digits, is_decimal, decimal_in, decimal_of, whole_decimal_of};
ghost use Rattle.fixed_decimal.specs.Grammar.{IsAnswer};
ghost use Rattle.fixed_decimal.specs.Seen.{parts_seen};

use crate::decimal::Decimal;
use crate::fault::DecimalFault;

/// A decimal's size is below this number.
const LIMIT: u64 = 1_000_000;

/// The parts of a text, from its front on: a minus, digits, a point behind them, digits behind it, and what is left.
#[derive(Drop)]
struct Parts<'a> {
    negative: bool,
    whole: &'a [u8],
    pointed: bool,
    places: &'a [u8],
    rest: &'a [u8],
}

/// How many digits a text begins with.
fn digit_count(text: &[u8]) -> usize
    ensures count { result ≡ prefix_len is_ascii_digit text.now }
    ensures within { result ≤ length text.now }
{
    text.iter().take_while(|byte| byte.is_ascii_digit()).count()
}

/// The parts from the first digit on.
#[tactic(auto, using(crate::proofs::Digits::digits_are))]
fn with_digits<'a>(negative: bool, text: &'a [u8]) -> Parts<'a>
    ensures parts { parts_seen result ≡ with_digits negative text.now }
    ensures whole { AreDigits result.whole.now }
    ensures places { AreDigits result.places.now }
    ensures rest { length result.rest.now ≤ length text.now }
{
    let (whole, after) = text.split_at(digit_count(text));
    match after {
        [b'.', tail @ ..] if !whole.is_empty() => {
            let (places, rest) = tail.split_at(digit_count(tail));
            Parts {
                negative,
                whole,
                pointed: true,
                places,
                rest,
            }
        }
        _ => Parts {
            negative,
            whole,
            pointed: false,
            places: &[],
            rest: after,
        },
    }
}

#[tactic(auto, unfolding(crate::specs::Parsed::parts_of))]
fn parts_of(text: &[u8]) -> Parts<'_>
    ensures parts { parts_seen result ≡ parts_of text.now }
    ensures whole { AreDigits result.whole.now }
    ensures places { AreDigits result.places.now }
    ensures rest { length result.rest.now ≤ length text.now }
{
    match text {
        [b'-', tail @ ..] => with_digits(true, tail),
        _ => with_digits(false, text),
    }
}

#[tactic(auto, using(crate::proofs::Digits::number_steps))]
/// The whole number that digits write, or 1,000,000 where it is greater.
fn capped_number(digits: &[u8]) -> u64
    requires { AreDigits digits.now }
    ensures { result ≡ min (number digits.now) LIMIT }
{
    let mut number = 0;
    for digit in digits {
        number = (number * 10 + u64::from(*digit - b'0')).min(LIMIT);
    }
    number
}

#[tactic(auto, using(crate::proofs::Digits::places_steps))]
/// The millionths of parts whose whole number is known.
fn millionths(whole: u64, places: &[u8]) -> i64
    requires digits { AreDigits places.now }
    requires few { length places.now ≤ 6 }
    requires small { whole < LIMIT }
    ensures value { result ≡ pos (whole * 10 ^ 6 + number places.now * 10 ^ (6 - length places.now)) }
    ensures small { whole * 10 ^ 6 + number places.now * 10 ^ (6 - length places.now) < 10 ^ 12 }
{
    (whole * LIMIT + capped_number(places) * 10_u64.pow(6 - places.len() as u32)) as i64
}

impl Parts<'_> {
    /// Whether digits stand before the point, and behind it where there is one, and nothing is left.
    fn is_decimal(&self) -> bool
        ensures { result ≡ is_decimal (parts_seen self.now) }
    {
        !self.whole.is_empty() && (!self.pointed || !self.places.is_empty()) && self.rest.is_empty()
    }

    /// The decimal of parts in the grammar, whatever the length of their text.
    fn value(&self) -> Result<Decimal, DecimalFault>
        requires whole { AreDigits self.now.whole.now }
        requires places { AreDigits self.now.places.now }
        requires grammar { is_decimal (parts_seen self.now) ≡ true }
        ensures { (len : ℕ) → result ≡ decimal_in len (parts_seen self.now) }
    {
        if self.places.len() > 6 {
            return Err(DecimalFault::TooManyPlaces);
        }
        let whole = capped_number(self.whole);
        if whole >= LIMIT {
            return Err(DecimalFault::TooLarge);
        }
        let size = millionths(whole, self.places);
        Ok(Decimal {
            millionths: if self.negative { -size } else { size },
        })
    }

    /// The decimal of the parts of a text of this length.
    fn decimal(&self, len: usize) -> Result<Decimal, DecimalFault>
        requires whole { AreDigits self.now.whole.now }
        requires places { AreDigits self.now.places.now }
        requires rest { length self.now.rest.now ≤ len }
        requires len { len < 2 ^ 32 }
        ensures { result ≡ decimal_in len (parts_seen self.now) }
    {
        if self.is_decimal() {
            self.value()
        } else {
            Err(DecimalFault::BadByte((len - self.rest.len()) as u32))
        }
    }
}

impl Decimal {
    /// The decimal of a text: an optional `-`, one or more digits, and optionally a point with one or more digits.
    #[tactic(auto, unfolding(crate::specs::Parsed::decimal_of))]
    pub fn parse(text: &str) -> Result<Decimal, DecimalFault>
        requires { length text.now < 2 ^ 32 }
        ensures value { result ≡ decimal_of text.now }
        ensures grammar { IsAnswer text.now result }
    {
        if text.is_empty() {
            return Err(DecimalFault::Empty);
        }
        parts_of(text.as_bytes()).decimal(text.len())
    }

    /// The decimal of a text of any length, where `parse` has no fault of it.
    #[tactic(auto, unfolding(crate::specs::Parsed::decimal_of))]
    pub fn from_text(text: &str) -> Option<Decimal>
        ensures { result ≡ result_ok (decimal_of text.now) }
    {
        let parts = parts_of(text.as_bytes());
        if text.is_empty() || !parts.is_decimal() {
            return None;
        }
        parts.value().ok()
    }

    /// The decimal of a whole number.
    #[tactic(auto, unfolding(crate::specs::Parsed::whole_decimal_of))]
    pub fn from_whole(value: i64) -> Result<Decimal, DecimalFault>
        ensures value { result ≡ whole_decimal_of value }
    {
        if value.unsigned_abs() >= LIMIT {
            return Err(DecimalFault::TooLarge);
        }
        Ok(Decimal {
            millionths: value * 1_000_000,
        })
    }
}
