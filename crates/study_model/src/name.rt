// Names, of 1 to 32 bytes that need no quotes in a line of a report.
ghost use Rattle.std.specs.Prelude.{◌≡◌, ◌-◌, ◌≤◌, ◌++◌, length, replicate};
ghost use Rattle.std.specs.List.{list_all};
ghost use Rattle.study_model.specs.NameText.{name_of, is_name, is_name_byte};

use std::marker::Model;

/// The most bytes of a name, which has at least one.
pub const MAX_NAME_LEN: usize = 32;

/// A name: its first `len` bytes, each a letter, a digit or one of `_ . -`, and zeros after them.
#[derive(Clone, Copy, Debug, PartialEq, Eq)]
pub struct Name {
    pub len: u8,
    pub bytes: [u8; MAX_NAME_LEN],
}

impl Model for Name {
    ghost use Rattle.std.specs.Prelude.{List, ℕ, length, take};

    ghost Value = { List ℕ };

    ghost use Rattle.study_model.specs.Name.{IsPadded, inverse_of, inverse_is};

    ghost view = { λ n. take n.len n.bytes };

    ghost invariant = { λ n. IsPadded n.len n.bytes };

    ghost inverse = { inverse_of };

    ghost inverse_ok = { inverse_is };
}

fn is_name_byte(byte: u8) -> bool
    ensures { result ≡ is_name_byte byte }
{
    matches!(byte, b'A'..=b'Z' | b'a'..=b'z' | b'0'..=b'9' | b'_' | b'.' | b'-')
}

fn are_name_bytes(text: &[u8]) -> bool
    ensures { result ≡ list_all is_name_byte text.now }
{
    text.iter().all(|byte| is_name_byte(*byte))
}

/// Whether a text is a name.
#[tactic(auto, using(std::proofs::lemmas::Bool::Decides::nat_tests))]
fn is_name(text: &[u8]) -> bool
    ensures { result ≡ is_name text.now }
{
    text.len() >= 1 && text.len() <= MAX_NAME_LEN && are_name_bytes(text)
}

/// The text, and zeros up to the most bytes of a name.
#[tactic(auto, using(crate::proofs::Names::zeros_left))]
fn padded(text: &[u8]) -> [u8; MAX_NAME_LEN]
    requires { length text.now ≤ MAX_NAME_LEN }
    ensures { result ≡ text.now ++ replicate (MAX_NAME_LEN - length text.now) 0 }
{
    let mut bytes = [0; MAX_NAME_LEN];
    bytes[..text.len()].copy_from_slice(text);
    bytes
}

impl Name {
    ghost use Rattle.std.specs.Prelude.{◌≡◌, ◌≤◌, length};

    /// The text as a name, where it is one: 1 to 32 bytes of letters, digits and `_ . -`.
    #[tactic(auto, using(crate::proofs::Names::name_steps))]
    pub fn parse(text: &[u8]) -> Option<Name>
        ensures { result ≡ name_of text.now }
    {
        if !is_name(text) {
            return None;
        }
        Some(Name {
            len: text.len() as u8,
            bytes: padded(text),
        })
    }

    /// The name's bytes.
    pub fn as_bytes(&self) -> &[u8]
        ensures bytes { result.now ≡ self.now }
        ensures len { length result.now ≤ MAX_NAME_LEN }
    {
        &self.bytes[..self.len as usize]
    }
}
