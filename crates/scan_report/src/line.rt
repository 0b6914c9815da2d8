// A line that is written piece by piece.
ghost use Rattle.std.specs.Prelude.{◌≡◌, ◌+◌, ◌^◌, ◌*◌, ◌/◌, ◌<◌, ◌≤◌, [], ◌∷◌, ◌++◌, length, take};
ghost use Rattle.std.specs.Fmt.{decimal};
ghost use Rattle.scan_report.specs.Text.{places, four_places};

use std::marker::Model;

/// A line that is being written: at most 256 bytes. Contracts see the list of its first `len` bytes.
#[derive(Drop)]
pub struct LineBuf {
    pub bytes: [u8; 256],
    pub len: u16,
}

impl Model for LineBuf {
    ghost use Rattle.std.specs.Prelude.{List, ℕ, take, ◌≤◌};

    ghost Value = { List ℕ };

    ghost view = { λ b. take b.len b.bytes };

    ghost invariant = { λ b. b.len ≤ 256 };
}

impl LineBuf {
    /// A line with nothing in it.
    pub fn new() -> LineBuf
        ensures { result ≡ [] }
    {
        LineBuf {
            bytes: [0; 256],
            len: 0,
        }
    }

    /// Takes everything out of the line.
    pub fn clear(&mut self)
        ensures { self.new ≡ [] }
    {
        self.len = 0;
    }

    /// The bytes of the line.
    pub fn as_bytes(&self) -> &[u8]
        ensures { result.now ≡ self.now }
    {
        &self.bytes[..self.len as usize]
    }

    /// Puts a byte at the end. Condition: the line has fewer than 256 bytes.
    pub fn push(&mut self, byte: u8)
        requires { length self.old < 256 }
        ensures text { self.new ≡ self.old ++ byte ∷ [] }
        ensures len { length self.new ≡ length self.old + 1 }
    {
        self.bytes[self.len as usize] = byte;
        self.len += 1;
    }

    /// Puts a text at the end. Condition: it fits in 256 bytes.
    pub fn push_text(&mut self, text: &[u8])
        requires { length self.old + length text.now ≤ 256 }
        ensures text { self.new ≡ self.old ++ text.now }
        ensures len { length self.new ≡ length self.old + length text.now }
    {
        for byte in text {
            self.push(*byte);
        }
    }
}

/// A number in decimal digits, at least one.
#[tactic(auto, using(crate::proofs::Digits::digits_steps))]
fn push_digits(line: &mut LineBuf, number: u128)
    requires small { number < 10 ^ 38 }
    requires room { length line.old + length (decimal number) ≤ 256 }
    ensures text { line.new ≡ line.old ++ decimal number }
    ensures len { length line.new ≡ length line.old + length (decimal number) }
{
    if number < 10 {
        line.push(b'0' + number as u8);
    } else {
        push_digits(line, number / 10);
        line.push(b'0' + (number % 10) as u8);
    }
}

/// A number of 32 bits in decimal digits.
#[tactic(auto, using(crate::proofs::Digits::digits_steps))]
pub fn push_number(line: &mut LineBuf, number: u32)
    requires { length line.old + 10 ≤ 256 }
    ensures text { line.new ≡ line.old ++ decimal number }
    ensures len { length line.new ≤ length line.old + 10 }
{
    push_digits(line, u128::from(number));
}

/// A number of millionths, with six places. Condition: it fits in 256 bytes.
pub(crate) fn push_places(line: &mut LineBuf, millionths: u128)
    requires small { millionths ≤ 2 ^ 120 }
    requires room { length line.old + length (decimal (millionths / 1000000)) + 7 ≤ 256 }
    ensures text { line.new ≡ line.old ++ places millionths }
    ensures len { length line.new ≡ length line.old + length (decimal (millionths / 1000000)) + 7 }
{
    push_digits(line, millionths / 1_000_000);
    let part = (millionths % 1_000_000) as u32;
    line.push_text(&[
        b'.',
        b'0' + (part / 100_000 % 10) as u8,
        b'0' + (part / 10_000 % 10) as u8,
        b'0' + (part / 1_000 % 10) as u8,
        b'0' + (part / 100 % 10) as u8,
        b'0' + (part / 10 % 10) as u8,
        b'0' + (part % 10) as u8,
    ]);
}

/// A number of millionths of 64 bits, with six places: at most 21 bytes.
#[tactic(auto, using(crate::proofs::Digits::length_millionths))]
pub(crate) fn push_millionths(line: &mut LineBuf, millionths: u64)
    requires { length line.old + 21 ≤ 256 }
    ensures text { line.new ≡ line.old ++ places millionths }
    ensures len { length line.new ≤ length line.old + 21 }
{
    push_places(line, u128::from(millionths));
}

/// A number of ten-thousandths of 64 bits, with four places: at most 21 bytes.
#[tactic(auto, using(crate::proofs::Digits::length_percent))]
pub(crate) fn push_percent(line: &mut LineBuf, ten_thousandths: u64)
    requires { length line.old + 21 ≤ 256 }
    ensures text { line.new ≡ line.old ++ four_places ten_thousandths }
    ensures len { length line.new ≤ length line.old + 21 }
{
    push_digits(line, u128::from(ten_thousandths / 10_000));
    let part = (ten_thousandths % 10_000) as u32;
    line.push_text(&[
        b'.',
        b'0' + (part / 1_000 % 10) as u8,
        b'0' + (part / 100 % 10) as u8,
        b'0' + (part / 10 % 10) as u8,
        b'0' + (part % 10) as u8,
    ]);
}
