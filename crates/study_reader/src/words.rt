// The words at the keys of an entry.
ghost use Rattle.std.specs.Prelude.{◌≡◌, ℕ, List, Option};
ghost use Rattle.toml.specs.View.{view};
ghost use Rattle.study_reader.specs.Checks.{Reads, word_fault, word_value};

use crate::keys::{find, key_of};
use study_model::{
    Connection, FilterKind, Key, LoadModel, Method, Phase, Place, Sequence, StudyFault, StudyModel,
};
use toml::Value;

/// A type whose values are written as words.
pub(crate) trait HasWord: Copy {
    ghost word: { List ℕ → Option Self };

    /// The value that a text is the word of, where there is one.
    fn of_text(text: &str) -> Option<Self>
        ensures { result ≡ word text.now };
}

impl HasWord for StudyModel {
    ghost use Rattle.study_model.specs.ValueWords.{study_model_of};

    ghost word = { study_model_of };

    fn of_text(text: &str) -> Option<Self> {
        StudyModel::from_text(text)
    }
}

impl HasWord for Method {
    ghost use Rattle.study_model.specs.ValueWords.{method_of};

    ghost word = { method_of };

    fn of_text(text: &str) -> Option<Self> {
        Method::from_text(text)
    }
}

impl HasWord for Sequence {
    ghost use Rattle.study_model.specs.ValueWords.{sequence_of};

    ghost word = { sequence_of };

    fn of_text(text: &str) -> Option<Self> {
        Sequence::from_text(text)
    }
}

impl HasWord for Phase {
    ghost use Rattle.study_model.specs.ValueWords.{phase_of};

    ghost word = { phase_of };

    fn of_text(text: &str) -> Option<Self> {
        Phase::from_text(text)
    }
}

impl HasWord for Connection {
    ghost use Rattle.study_model.specs.ValueWords.{connection_of};

    ghost word = { connection_of };

    fn of_text(text: &str) -> Option<Self> {
        Connection::from_text(text)
    }
}

impl HasWord for LoadModel {
    ghost use Rattle.study_model.specs.ValueWords.{load_model_of};

    ghost word = { load_model_of };

    fn of_text(text: &str) -> Option<Self> {
        LoadModel::from_text(text)
    }
}

impl HasWord for FilterKind {
    ghost use Rattle.study_model.specs.ValueWords.{filter_kind_of};

    ghost word = { filter_kind_of };

    fn of_text(text: &str) -> Option<Self> {
        FilterKind::from_text(text)
    }
}

/// What the word at a key means, where it isn't absent. It may be absent unless it is needed.
#[tactic(auto, unfolding(crate::specs::Checks::word_fault, crate::specs::Checks::word_value))]
pub(crate) fn word<W: HasWord>(
    entry: &Value,
    place: Place,
    key: Key,
    needed: bool,
) -> Result<Option<W>, StudyFault>
    ensures read { Reads result (word_fault place key needed W.word (view entry.now)) (word_value W.word key (view entry.now)) }
{
    match find(entry, key) {
        None => {
            if needed {
                Err(StudyFault::MissingKey(key_of(place, key)))
            } else {
                Ok(None)
            }
        }
        Some(Value::String(text)) => match W::of_text(text.as_str()) {
            Some(meaning) => Ok(Some(meaning)),
            None => Err(StudyFault::WrongKind(key_of(place, key))),
        },
        Some(_) => Err(StudyFault::WrongKind(key_of(place, key))),
    }
}
