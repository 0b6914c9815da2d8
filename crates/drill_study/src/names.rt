// Names of a letter and a number.
ghost use Rattle.std.specs.Prelude.{◌≡◌, ◌<◌, IsTrue};
ghost use Rattle.study_model.specs.NameText.{is_name, is_name_byte};
ghost use Rattle.drill_study.specs.Drill.{numbered};

use study_model::Name;

// The name of these bytes.
fn name_of(text: &[u8]) -> Name
    requires { IsTrue (is_name text.now) }
    ensures { result ≡ text.now }
{
    match Name::parse(text) {
        Some(name) => name,
        None => unreachable!(),
    }
}

/// A letter and a number below 100.
#[tactic(auto, using(crate::proofs::NameTexts::short_name, crate::proofs::NameTexts::long_name))]
pub fn numbered(letter: u8, n: u8) -> Name
    requires letter { IsTrue (is_name_byte letter) }
    requires number { n < 100 }
    ensures { result ≡ numbered letter n }
{
    if n < 10 {
        name_of(&[letter, b'0' + n])
    } else {
        name_of(&[letter, b'0' + n / 10, b'0' + n % 10])
    }
}
