// From the words to the status: the way of a run, from its first line to its last, and the clauses that say what it means.
ghost use Rattle.std.specs.Prelude.{◌≡◌, ◌≢◌, ◌↔◌, ◌<◌, ℕ, IfOk, IfErr, option_map, Some, None, Ok, Err};
ghost use Rattle.std.specs.IoError.{error_kind};
ghost use Rattle.harm_io.specs.Causes.{Rose};
ghost use Rattle.harm_io.specs.Memory.{names_of};
ghost use Rattle.harmscan_core.specs.Subject.{Subject, TellsFor, drilled};
ghost use Rattle.harmscan_core.specs.Words.{Reading, reading, scan, candidates, tolerance, outages, limits, drill, verify};
ghost use Rattle.harmscan_core.specs.Outcome.{Reports, Happens, HappensFor, Runs, IsComplete, IsWritten, WritesReport, Asks, IsRefusal, StopsWithin, RefusesFor, EndsAtOnce};

use crate::distortion::report_limits;
use crate::drill::report_drill;
use crate::inputs::{accepted_networks, checked_from, inputs_from, study_from};
use crate::lines::say;
use crate::outcome::{Outcome, after_put, after_words, status};
use crate::scans::{report_scans, report_tolerance};
use crate::variants::{report_candidates, report_outages};
use crate::verified::report_verified;
use crate::words::{Command, reading};
use drill_study::drill_study;
use harm_io::{Shelf, Sink};
use std::alloc::Global;
use std::io;
use std::io::ErrorKind;

/// The scan of a file.
fn scan<F: Shelf, O: Sink>(alloc: Global, name: &str, shelf: &mut F, out: &mut O) -> Outcome
    ensures { Happens (scan name.now) (F.state shelf.old) (F.state shelf.new) (O.state out.old) (O.state out.new) result }
{
    match study_from(alloc, name, shelf) {
        Err(outcome) => outcome,
        Ok(accepted) => report_scans(alloc, &accepted.study, &accepted.networks, out),
    }
}

/// Which size of the candidate banks of a file is safe.
fn candidates<F: Shelf, O: Sink>(alloc: Global, name: &str, shelf: &mut F, out: &mut O) -> Outcome
    ensures { Happens (candidates name.now) (F.state shelf.old) (F.state shelf.new) (O.state out.old) (O.state out.new) result }
{
    match study_from(alloc, name, shelf) {
        Err(outcome) => outcome,
        Ok(accepted) => report_candidates(alloc, &accepted.study, &accepted.networks, out),
    }
}

/// The scan of a file for all values within its tolerances.
fn tolerance<F: Shelf, O: Sink>(alloc: Global, name: &str, shelf: &mut F, out: &mut O) -> Outcome
    ensures { Happens (tolerance name.now) (F.state shelf.old) (F.state shelf.new) (O.state out.old) (O.state out.new) result }
{
    match study_from(alloc, name, shelf) {
        Err(outcome) => outcome,
        Ok(accepted) => report_tolerance(alloc, &accepted.study, &accepted.networks, out),
    }
}

/// The scan of a file without each of its outages in turn.
fn outages<F: Shelf, O: Sink>(alloc: Global, name: &str, shelf: &mut F, out: &mut O) -> Outcome
    ensures { Happens (outages name.now) (F.state shelf.old) (F.state shelf.new) (O.state out.old) (O.state out.new) result }
{
    match study_from(alloc, name, shelf) {
        Err(outcome) => outcome,
        Ok(accepted) => report_outages(alloc, &accepted.study, &accepted.networks, out),
    }
}

/// The distortion of a spectrum in a study, beside planning levels or none.
fn limits<F: Shelf, O: Sink>(
    alloc: Global,
    study: &str,
    spectrum: &str,
    levels: Option<&str>,
    shelf: &mut F,
    out: &mut O,
) -> Outcome
    ensures { Happens (limits study.now spectrum.now (option_map (λ name. name.now) levels.entry)) (F.state shelf.old) (F.state shelf.new) (O.state out.old) (O.state out.new) result }
{
    match inputs_from(alloc, study, spectrum, levels, shelf) {
        Err(outcome) => outcome,
        Ok(inputs) => report_limits(alloc, &inputs, out),
    }
}

/// Whether a report is right of a study.
fn verify<F: Shelf, O: Sink>(
    alloc: Global,
    study: &str,
    report: &str,
    shelf: &mut F,
    out: &mut O,
) -> Outcome
    ensures { Happens (verify study.now report.now) (F.state shelf.old) (F.state shelf.new) (O.state out.old) (O.state out.new) result }
{
    match checked_from(alloc, study, report, shelf) {
        Err(outcome) => outcome,
        Ok(checked) => report_verified(&checked, out),
    }
}

/// The drill of a number. Its study is accepted, whatever the number.
#[tactic(auto, using(crate::proofs::Drills::is_lawful, crate::proofs::Drills::not_accepted))]
fn drill<O: Sink>(alloc: Global, number: u32, out: &mut O) -> Outcome
    ensures { Reports (drilled number) (O.state out.old) (O.state out.new) result }
{
    match drill_study(alloc, number) {
        Err(_) => Outcome::NoMemory,
        Ok(study) => match accepted_networks(alloc, &study) {
            Err(outcome) => outcome,
            Ok(networks) => report_drill(alloc, number, &study, &networks, out),
        },
    }
}

/// What the words ask for.
fn perform<F: Shelf, O: Sink>(
    alloc: Global,
    words: &[String],
    shelf: &mut F,
    out: &mut O,
) -> Outcome
    ensures { HappensFor (reading (names_of words.now)) (F.state shelf.old) (F.state shelf.new) (O.state out.old) (O.state out.new) result }
{
    match reading(words) {
        Some(Command::Scan(name)) => scan(alloc, name, shelf, out),
        Some(Command::Candidates(name)) => candidates(alloc, name, shelf, out),
        Some(Command::Tolerance(name)) => tolerance(alloc, name, shelf, out),
        Some(Command::Outages(name)) => outages(alloc, name, shelf, out),
        Some(Command::Limits(study, spectrum, levels)) => {
            limits(alloc, study, spectrum, levels, shelf, out)
        }
        Some(Command::Drill(number)) => drill(alloc, number, out),
        Some(Command::Verify(study, report)) => verify(alloc, study, report, shelf, out),
        None => Outcome::WordsRefused,
    }
}

/// Runs the words of the command line, and answers the program's status. `words` are without the
/// program's name; the readings are `scan STUDY`, `candidates STUDY`, `tolerance STUDY`,
/// `outages STUDY`, `limits STUDY SPECTRUM`, `limits STUDY SPECTRUM LEVELS`, `drill N` and `verify STUDY REPORT`.
pub fn run<F: Shelf, O: Sink, E: Sink>(
    alloc: Global,
    words: &[String],
    shelf: &mut F,
    out: &mut O,
    err: &mut E,
) -> u8
    // The whole of it: one outcome, with its status, its line and all that the shelf and the sinks saw.
    ensures runs { Runs (reading (names_of words.now)) (F.state shelf.old) (F.state shelf.new) (O.state out.old) (O.state out.new)
        (E.state err.old) (E.state err.new) result }
    // At 0, 3 and 4 every file that the words name was asked for, the whole report of what they are was written, and all that it claims holds.
    ensures report { IsWritten result → WritesReport (reading (names_of words.now)) (F.state shelf.old) (F.state shelf.new) (O.state out.old) (O.state out.new) result }
    // Where the shelf tells each file, and none is refused, their report is written whole where no fault came, unless memory is wanting.
    ensures complete { (r : Reading) (subject : Subject) → reading (names_of words.now) ≡ Some r → TellsFor r (F.state shelf.old) (Ok subject)
        → (Rose (F.state shelf.old).faults (F.state shelf.new).faults → ⊥) → (Rose (O.state out.old).faults (O.state out.new).faults → ⊥)
        → IsComplete result (O.state out.old) (O.state out.new) subject }
    // So is a drill, whatever the shelf does.
    ensures drilled { (number : ℕ) → reading (names_of words.now) ≡ Some (drill number) → (Rose (O.state out.old).faults (O.state out.new).faults → ⊥)
        → IsComplete result (O.state out.old) (O.state out.new) (drilled number) }

    // No files are asked for but those that the words name, in their order, and each word once at most.
    ensures asks { Asks (reading (names_of words.now)) (F.state shelf.old) (F.state shelf.new) }
    ensures nothing_put { IsRefusal result → O.state out.new ≡ O.state out.old }
    ensures front_put { result ≡ 6 → StopsWithin (reading (names_of words.now)) (F.state shelf.old) (F.state shelf.new) (O.state out.old) (O.state out.new) }

    // The causes of single statuses.
    ensures words { (result ≡ 1) ↔ (reading (names_of words.now) ≡ None) }
    ensures read_fault { (F.state shelf.old).faults < (F.state shelf.new).faults → result ≡ 5 }
    ensures write_fault { (O.state out.old).faults < (O.state out.new).faults → result ≡ 6 }
    ensures write_memory { (O.state out.old).refused < (O.state out.new).refused → result ≡ 7 }
    // Where the shelf tells that a file is refused, or is too large, and that none before it is, the run is refused so, where the shelf had no fault, unless memory is wanting.
    ensures refused { (r : Reading) (o : Outcome) → reading (names_of words.now) ≡ Some r → TellsFor r (F.state shelf.old) (Err o)
        → (Rose (F.state shelf.old).faults (F.state shelf.new).faults → ⊥)
        → RefusesFor o result (O.state out.old) (O.state out.new) (E.state err.old) (E.state err.new) }
{
    let outcome = perform(alloc, words, shelf, out);
    say(&outcome, err);
    status(&outcome)
}

/// Runs the words as they were collected, and answers the program's status. Where they could not be collected,
/// the shelf and `out` stay as they were, and `err` gets the line of words that have no reading or of want of memory.
pub fn run_collected<F: Shelf, O: Sink, E: Sink>(
    alloc: Global,
    words: &io::Result<Vec<String>>,
    shelf: &mut F,
    out: &mut O,
    err: &mut E,
) -> u8
    ensures collected { IfOk words.now (λ words. Runs (reading (names_of words.items)) (F.state shelf.old) (F.state shelf.new) (O.state out.old) (O.state out.new)
        (E.state err.old) (E.state err.new) result) }
    ensures no_text { IfErr words.now (λ error. error_kind error ≡ ErrorKind.InvalidData →
        EndsAtOnce Outcome.WordsRefused (F.state shelf.old) (F.state shelf.new) (O.state out.old) (O.state out.new) (E.state err.old) (E.state err.new) result) }
    ensures no_memory { IfErr words.now (λ error. error_kind error ≢ ErrorKind.InvalidData →
        EndsAtOnce Outcome.NoMemory (F.state shelf.old) (F.state shelf.new) (O.state out.old) (O.state out.new) (E.state err.old) (E.state err.new) result) }
{
    match words {
        Ok(words) => run(alloc, words, shelf, out, err),
        Err(error) => {
            let outcome = after_words(error);
            say(&outcome, err);
            status(&outcome)
        }
    }
}
