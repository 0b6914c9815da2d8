// What the words of the command line ask for. They are read by hand, since a reading takes no memory.
ghost use Rattle.std.specs.Prelude.{◌≡◌, option_map};
ghost use Rattle.std.specs.Char.{is_ascii_digit};
ghost use Rattle.std.specs.List.{list_all};
ghost use Rattle.harm_io.specs.Memory.{names_of};
ghost use Rattle.harmscan_core.specs.Words.{is_file_word, has_no_leading_zero, is_number_word, number_in, reading, reading_of, reading_of_one, reading_of_two, reading_of_three, seen};

/// What the words ask for.
#[derive(Clone, Copy)]
pub enum Command<'a> {
    /// The scan of the study in the file of this name.
    Scan(&'a str),
    /// Which size of its candidate banks is safe.
    Candidates(&'a str),
    /// Its scan for all values within its tolerances.
    Tolerance(&'a str),
    /// Its scan without each of its outages in turn.
    Outages(&'a str),
    /// The distortion of the spectrum in the study, by the names of their files, and the name of the file of planning levels.
    Limits(&'a str, &'a str, Option<&'a str>),
    /// The drill of this number.
    Drill(u32),
    /// Whether a report is right of a study, by the names of their files.
    Verify(&'a str, &'a str),
}

fn is_file_word(word: &[u8]) -> bool
    ensures { result ≡ is_file_word word.now }
{
    match word {
        [] => false,
        [first, ..] => *first != b'-',
    }
}

fn has_no_leading_zero(word: &[u8]) -> bool
    ensures { result ≡ has_no_leading_zero word.now }
{
    match word {
        [] => false,
        [_] => true,
        [first, _, ..] => *first != b'0',
    }
}

fn are_digits(word: &[u8]) -> bool
    ensures { result ≡ list_all is_ascii_digit word.now }
{
    word.iter().all(|byte| byte.is_ascii_digit())
}

fn is_number_word(word: &[u8]) -> bool
    ensures { result ≡ is_number_word word.now }
{
    has_no_leading_zero(word) && word.len() <= 6 && are_digits(word)
}

/// The number that a word writes, which is one to six digits without a leading zero unless it is `0`.
fn number_in(word: &str) -> Option<u32>
    ensures { result ≡ number_in word.now }
{
    if is_number_word(word.as_bytes()) {
        word.parse().ok()
    } else {
        None
    }
}

/// What a command with the name of one file asks for, where it is one.
fn reading_of_one<'a>(first: &str, study: &'a str) -> Option<Command<'a>>
    ensures { option_map seen result ≡ reading_of_one first.now study.now }
{
    if first == "scan" {
        Some(Command::Scan(study))
    } else if first == "candidates" {
        Some(Command::Candidates(study))
    } else if first == "tolerance" {
        Some(Command::Tolerance(study))
    } else if first == "outages" {
        Some(Command::Outages(study))
    } else {
        None
    }
}

/// What two words ask for, where they have a reading.
fn reading_of<'a>(first: &str, word: &'a str) -> Option<Command<'a>>
    ensures { option_map seen result ≡ reading_of first.now word.now }
{
    if first == "drill" {
        match number_in(word) {
            Some(number) => Some(Command::Drill(number)),
            None => None,
        }
    } else if is_file_word(word.as_bytes()) {
        reading_of_one(first, word)
    } else {
        None
    }
}

/// What a command with the names of two files asks for, where it is one.
fn reading_of_two<'a>(first: &str, study: &'a str, other: &'a str) -> Option<Command<'a>>
    ensures { option_map seen result ≡ reading_of_two first.now study.now other.now }
{
    if !is_file_word(study.as_bytes()) || !is_file_word(other.as_bytes()) {
        None
    } else if first == "limits" {
        Some(Command::Limits(study, other, None))
    } else if first == "verify" {
        Some(Command::Verify(study, other))
    } else {
        None
    }
}

/// What `limits` with planning levels asks for.
fn reading_of_three<'a>(
    first: &str,
    study: &'a str,
    spectrum: &'a str,
    levels: &'a str,
) -> Option<Command<'a>>
    ensures { option_map seen result ≡ reading_of_three first.now study.now spectrum.now levels.now }
{
    if first == "limits"
        && is_file_word(study.as_bytes())
        && is_file_word(spectrum.as_bytes())
        && is_file_word(levels.as_bytes())
    {
        Some(Command::Limits(study, spectrum, Some(levels)))
    } else {
        None
    }
}

/// What the words ask for, where they have a reading.
#[tactic(auto, using(crate::proofs::WordCounts::reading_few, crate::proofs::WordCounts::reading_more))]
pub fn reading<'a>(words: &'a [String]) -> Option<Command<'a>>
    ensures { option_map seen result ≡ reading (names_of words.now) }
{
    match words {
        [first, word] => reading_of(first.as_str(), word.as_str()),
        [first, study, other] => reading_of_two(first.as_str(), study.as_str(), other.as_str()),
        [first, study, spectrum, levels] => reading_of_three(
            first.as_str(),
            study.as_str(),
            spectrum.as_str(),
            levels.as_str(),
        ),
        [] => None,
        [_] => None,
        [_, _, _, _, _, ..] => None,
    }
}
