//! What the command words ask for.
ghost use Rattle.std.specs.Prelude.{◌≡◌, ℕ, List, ◌<◌, ◌≤◌, ◌&&◌, if◌then◌else◌, nat_lt, nat_le, length, bytes_eq, Some, None, IfOk, IfSome};
ghost use Rattle.std.specs.Char.{is_ascii_digit};
ghost use Rattle.std.specs.List.{list_all};
ghost use Rattle.std.specs.Option.{option_map};
ghost use Rattle.inputs.specs.declared.subjects.Subject.TheVariants.{Lone, Named};
ghost use Rattle.syswcet.specs.Words as shapes;
ghost use Rattle.syswcet.specs.Words.{word, place_behind, IsInRange};

use bound_commands::USUAL_PIVOTS;
use inputs::Subject;
use listed::Memory;
use split_commands::USUAL_CUTS;
use std::alloc::Global;
use wcet_io::{Text, Words};

/// The greatest limit on pivots that the words may name.
const MOST_PIVOTS: u64 = 10_000_000;

/// The greatest limit on cuts that the words may name.
const MOST_CUTS: u64 = 100;

/// The greatest seed.
const MOST_SEED: u64 = 4_294_967_295;

/// The most tasks that a generated system may have.
const MOST_TASKS: u64 = 8;

/// A command, with its files by name.
#[derive(Debug, Drop)]
pub enum Command {
    /// `check` judges a certificate.
    Check {
        subject: Subject,
        certificate: Text,
    },
    /// `bound` finds the task's bound over a list of scheduler states, with at most that many
    /// pivots, which `--pivots N` sets.
    Bound {
        subject: Subject,
        states: Text,
        pivots: u32,
    },
    /// `certify` writes a certificate for that bound.
    Certify {
        subject: Subject,
        states: Text,
        pivots: u32,
    },
    /// `all` finds the bound of each task of a system.
    All {
        oil: Text,
        elf: Text,
        timing: Text,
        states: Text,
    },
    /// `show oil` writes an OIL file in the one layout.
    ShowOil {
        oil: Text,
    },
    /// `show code` tells how many nodes, blocks and loops each context has.
    ShowCode {
        oil: Text,
        elf: Text,
        timing: Text,
    },
    /// `replay` plays a schedule, and tells how long each activation lasts.
    Replay {
        oil: Text,
        elf: Text,
        timing: Text,
        schedule: Text,
    },
    /// `loops` finds the bounds of counted loops, and bounds a task with them.
    Loops {
        oil: Text,
        elf: Text,
        timing: Text,
        task: Text,
        states: Text,
    },
    /// `split check` judges a certificate of cuts.
    SplitCheck {
        oil: Text,
        elf: Text,
        timing: Text,
        task: Text,
        certificate: Text,
    },
    /// `split find` searches for a certificate of cuts for a bound, in cycles, with at most that many
    /// cuts, which `--cuts C` sets.
    SplitFind {
        oil: Text,
        elf: Text,
        timing: Text,
        task: Text,
        states: Text,
        bound: u64,
        cuts: u32,
    },
    /// `trace record` writes the recording of the run that a schedule plays.
    TraceRecord {
        oil: Text,
        elf: Text,
        timing: Text,
        schedule: Text,
    },
    /// `trace judge` judges a recording by a certificate.
    TraceJudge {
        oil: Text,
        elf: Text,
        timing: Text,
        task: Text,
        certificate: Text,
        trace: Text,
    },
    /// `demo` generates a system of that many tasks from a seed, and bounds each of them.
    Demo {
        seed: u32,
        count: usize,
    },
}

/// The command of the words; `None` exactly where they have no shape.
pub fn command_of(alloc: Global, words: &Words) -> Result<Option<Command>, Memory>
    ensures shape { IfOk result (λ command. command ≡ shapes.command_of words.now) }
    ensures range { IfOk result (λ command. IfSome command IsInRange) }
{
    in_range();
    shaped(alloc, words)
}

/// Numbers that the words name are within their ranges.
fn in_range()
    ensures { (words : List (List ℕ)) → IfSome (shapes.command_of words) IsInRange }
{}

fn shaped(alloc: Global, words: &Words) -> Result<Option<Command>, Memory>
    ensures { IfOk result (λ command. command ≡ shapes.command_of words.now) }
{
    if has_word(words, 0, "check") {
        return check(alloc, words);
    }
    if has_word(words, 0, "bound") {
        return bound(alloc, words);
    }
    if has_word(words, 0, "certify") {
        return certify(alloc, words);
    }
    if is_single(words, "all", 5) {
        return all(alloc, words);
    }
    if is_shape(words, "show", "oil", 3) {
        return show_oil(alloc, words);
    }
    if is_shape(words, "show", "code", 5) {
        return show_code(alloc, words);
    }
    if is_single(words, "replay", 5) {
        return replay(alloc, words);
    }
    if is_single(words, "loops", 6) {
        return loops(alloc, words);
    }
    if is_shape(words, "split", "check", 7) {
        return split_check(alloc, words);
    }
    if begins(words, "split", "find") {
        return split_find(alloc, words);
    }
    if is_shape(words, "trace", "record", 6) {
        return trace_record(alloc, words);
    }
    if is_shape(words, "trace", "judge", 8) {
        return trace_judge(alloc, words);
    }
    if is_single(words, "demo", 3) {
        return Ok(demo(words));
    }
    Ok(None)
}

fn check(alloc: Global, words: &Words) -> Result<Option<Command>, Memory>
    ensures { IfOk result (λ command. command
        ≡ (if shapes.is_last words.now then Some (shapes.check words.now) else None)) }
{
    if !is_last(words) {
        return Ok(None);
    }
    let subject = subject_of(alloc, words)?;
    let certificate = file_of(alloc, words)?;
    Ok(Some(Command::Check {
        subject,
        certificate,
    }))
}

/// The command with its limit on pivots, if the words set one.
fn bound(alloc: Global, words: &Words) -> Result<Option<Command>, Memory>
    ensures { IfOk result (λ command. command
        ≡ option_map (shapes.bound words.now) (shapes.limit_of words.now)) }
{
    match limit_of(words) {
        Some(pivots) => {
            let subject = subject_of(alloc, words)?;
            let states = file_of(alloc, words)?;
            Ok(Some(Command::Bound {
                subject,
                states,
                pivots,
            }))
        }
        None => Ok(None),
    }
}

fn certify(alloc: Global, words: &Words) -> Result<Option<Command>, Memory>
    ensures { IfOk result (λ command. command
        ≡ option_map (shapes.certify words.now) (shapes.limit_of words.now)) }
{
    match limit_of(words) {
        Some(pivots) => {
            let subject = subject_of(alloc, words)?;
            let states = file_of(alloc, words)?;
            Ok(Some(Command::Certify {
                subject,
                states,
                pivots,
            }))
        }
        None => Ok(None),
    }
}

fn all(alloc: Global, words: &Words) -> Result<Option<Command>, Memory>
    requires { length words.now ≡ 5 }
    ensures { IfOk result (λ command. command ≡ Some (shapes.all words.now)) }
{
    let oil = word(alloc, words, 1)?;
    let elf = word(alloc, words, 2)?;
    let timing = word(alloc, words, 3)?;
    let states = word(alloc, words, 4)?;
    Ok(Some(Command::All {
        oil,
        elf,
        timing,
        states,
    }))
}

fn show_oil(alloc: Global, words: &Words) -> Result<Option<Command>, Memory>
    requires { length words.now ≡ 3 }
    ensures { IfOk result (λ command. command ≡ Some (shapes.show_oil words.now)) }
{
    let oil = word(alloc, words, 2)?;
    Ok(Some(Command::ShowOil { oil }))
}

fn show_code(alloc: Global, words: &Words) -> Result<Option<Command>, Memory>
    requires { length words.now ≡ 5 }
    ensures { IfOk result (λ command. command ≡ Some (shapes.show_code words.now)) }
{
    let oil = word(alloc, words, 2)?;
    let elf = word(alloc, words, 3)?;
    let timing = word(alloc, words, 4)?;
    Ok(Some(Command::ShowCode { oil, elf, timing }))
}

fn replay(alloc: Global, words: &Words) -> Result<Option<Command>, Memory>
    requires { length words.now ≡ 5 }
    ensures { IfOk result (λ command. command ≡ Some (shapes.replay words.now)) }
{
    let oil = word(alloc, words, 1)?;
    let elf = word(alloc, words, 2)?;
    let timing = word(alloc, words, 3)?;
    let schedule = word(alloc, words, 4)?;
    Ok(Some(Command::Replay {
        oil,
        elf,
        timing,
        schedule,
    }))
}

fn loops(alloc: Global, words: &Words) -> Result<Option<Command>, Memory>
    requires { length words.now ≡ 6 }
    ensures { IfOk result (λ command. command ≡ Some (shapes.loops words.now)) }
{
    let oil = word(alloc, words, 1)?;
    let elf = word(alloc, words, 2)?;
    let timing = word(alloc, words, 3)?;
    let task = word(alloc, words, 4)?;
    let states = word(alloc, words, 5)?;
    Ok(Some(Command::Loops {
        oil,
        elf,
        timing,
        task,
        states,
    }))
}

fn split_check(alloc: Global, words: &Words) -> Result<Option<Command>, Memory>
    requires { length words.now ≡ 7 }
    ensures { IfOk result (λ command. command ≡ Some (shapes.split_check words.now)) }
{
    let oil = word(alloc, words, 2)?;
    let elf = word(alloc, words, 3)?;
    let timing = word(alloc, words, 4)?;
    let task = word(alloc, words, 5)?;
    let certificate = word(alloc, words, 6)?;
    Ok(Some(Command::SplitCheck {
        oil,
        elf,
        timing,
        task,
        certificate,
    }))
}

/// The search, if the words behind the list of states are a bound and no more than a limit on cuts.
fn split_find(alloc: Global, words: &Words) -> Result<Option<Command>, Memory>
    ensures { IfOk result (λ command. command ≡ shapes.split_find_of words.now) }
{
    match cuts_limit(words) {
        Some(cuts) => split_find_within(alloc, words, cuts),
        None => Ok(None),
    }
}

/// The search with this limit on cuts, if the word for its bound is a number.
fn split_find_within(alloc: Global, words: &Words, cuts: u32) -> Result<Option<Command>, Memory>
    requires { 7 < length words.now }
    ensures { IfOk result (λ command. command
        ≡ option_map (shapes.split_find words.now cuts) (shapes.number_of (word words.now 7))) }
{
    match number_of(words.get(7).as_str()) {
        Some(bound) => {
            let oil = word(alloc, words, 2)?;
            let elf = word(alloc, words, 3)?;
            let timing = word(alloc, words, 4)?;
            let task = word(alloc, words, 5)?;
            let states = word(alloc, words, 6)?;
            Ok(Some(Command::SplitFind {
                oil,
                elf,
                timing,
                task,
                states,
                bound,
                cuts,
            }))
        }
        None => Ok(None),
    }
}

/// The limit on cuts that the words behind the bound set, if they set one.
fn cuts_limit(words: &Words) -> Option<u32>
    ensures limit { result ≡ shapes.cuts_limit words.now }
    ensures behind { IfSome result (λ _. 7 < length words.now) }
{
    if words.len() == 8 {
        return Some(USUAL_CUTS);
    }
    if words.len() == 10 && has_word(words, 8, "--cuts") {
        return cuts_of(words.get(9));
    }
    None
}

/// The limit on cuts that a word names, if it names one.
fn cuts_of(word: &Text) -> Option<u32>
    ensures { result ≡ shapes.cuts_of word.now }
{
    match number_within(word, 1, MOST_CUTS) {
        Some(cuts) => Some(cuts as u32),
        None => None,
    }
}

fn demo(words: &Words) -> Option<Command>
    requires { length words.now ≡ 3 }
    ensures { result ≡ shapes.demo_of words.now }
{
    let seed = number_within(words.get(1), 0, MOST_SEED)?;
    let count = number_within(words.get(2), 1, MOST_TASKS)?;
    Some(Command::Demo {
        seed: seed as u32,
        count: count as usize,
    })
}

fn trace_record(alloc: Global, words: &Words) -> Result<Option<Command>, Memory>
    requires { length words.now ≡ 6 }
    ensures { IfOk result (λ command. command ≡ Some (shapes.trace_record words.now)) }
{
    let oil = word(alloc, words, 2)?;
    let elf = word(alloc, words, 3)?;
    let timing = word(alloc, words, 4)?;
    let schedule = word(alloc, words, 5)?;
    Ok(Some(Command::TraceRecord {
        oil,
        elf,
        timing,
        schedule,
    }))
}

fn trace_judge(alloc: Global, words: &Words) -> Result<Option<Command>, Memory>
    requires { length words.now ≡ 8 }
    ensures { IfOk result (λ command. command ≡ Some (shapes.trace_judge words.now)) }
{
    let oil = word(alloc, words, 2)?;
    let elf = word(alloc, words, 3)?;
    let timing = word(alloc, words, 4)?;
    let task = word(alloc, words, 5)?;
    let certificate = word(alloc, words, 6)?;
    let trace = word(alloc, words, 7)?;
    Ok(Some(Command::TraceJudge {
        oil,
        elf,
        timing,
        task,
        certificate,
        trace,
    }))
}

/// What the words analyse.
fn subject_of(alloc: Global, words: &Words) -> Result<Subject, Memory>
    requires { place_behind words.now < length words.now }
    ensures { IfOk result (λ subject. subject ≡ shapes.subject_of words.now) }
{
    if is_lone(words) {
        lone(alloc, words)
    } else {
        named(alloc, words)
    }
}

fn lone(alloc: Global, words: &Words) -> Result<Subject, Memory>
    requires { 2 < length words.now }
    ensures { IfOk result (λ subject. subject ≡ Lone (word words.now 2)) }
{
    let image = word(alloc, words, 2)?;
    Ok(Subject::Lone { image })
}

fn named(alloc: Global, words: &Words) -> Result<Subject, Memory>
    requires { 4 < length words.now }
    ensures { IfOk result (λ subject. subject ≡ Named (word words.now 1) (word words.now 2)
        (word words.now 3) (word words.now 4)) }
{
    let oil = word(alloc, words, 1)?;
    let elf = word(alloc, words, 2)?;
    let timing = word(alloc, words, 3)?;
    let task = word(alloc, words, 4)?;
    Ok(Subject::Named {
        oil,
        elf,
        timing,
        task,
    })
}

fn is_lone(words: &Words) -> bool
    ensures { result ≡ shapes.is_lone words.now }
{
    has_word(words, 1, "lone")
}

/// The place of the word behind what is analysed.
fn place_behind(words: &Words) -> usize
    ensures place { result ≡ place_behind words.now }
    ensures few { result ≤ 5 }
{
    if is_lone(words) { 3 } else { 5 }
}

/// That word, which names a file.
fn file_of(alloc: Global, words: &Words) -> Result<Text, Memory>
    requires { place_behind words.now < length words.now }
    ensures { IfOk result (λ text. text ≡ shapes.file_of words.now) }
{
    word(alloc, words, place_behind(words))
}

/// Whether that word is the last one.
fn is_last(words: &Words) -> bool
    ensures { result ≡ shapes.is_last words.now }
{
    words.len() == place_behind(words) + 1
}

/// Whether `--pivots N` stands behind it, and nothing else.
fn has_option(words: &Words) -> bool
    ensures { result ≡ shapes.has_option words.now }
{
    let place = place_behind(words);
    words.len() == place + 3 && has_word(words, place + 1, "--pivots")
}

/// The limit on pivots that the words behind the file set, if they set one.
fn limit_of(words: &Words) -> Option<u32>
    ensures limit { result ≡ shapes.limit_of words.now }
    ensures behind { IfSome result (λ _. place_behind words.now < length words.now) }
{
    if is_last(words) {
        return Some(USUAL_PIVOTS);
    }
    if has_option(words) {
        return pivots_of(words.get(place_behind(words) + 2));
    }
    None
}

/// The word at a place, counted from 0.
fn word(alloc: Global, words: &Words, place: usize) -> Result<Text, Memory>
    requires { place < length words.now }
    ensures { IfOk result (λ text. text ≡ word words.now place) }
{
    Text::from_str(alloc, words.get(place).as_str())
}

/// Whether the first two words are these.
fn begins(words: &Words, first: &str, second: &str) -> bool
    ensures { result ≡ shapes.begins words.now first.now second.now }
{
    has_word(words, 0, first) && has_word(words, 1, second)
}

/// Whether there are so many words, the first two of which are these.
fn is_shape(words: &Words, first: &str, second: &str, count: usize) -> bool
    ensures { result ≡ shapes.is_shape words.now first.now second.now count }
{
    is_single(words, first, count) && has_word(words, 1, second)
}

/// Whether there are so many words, the first of which is this.
fn is_single(words: &Words, first: &str, count: usize) -> bool
    ensures { result ≡ shapes.is_single words.now first.now count }
{
    words.len() == count && has_word(words, 0, first)
}

/// Whether there is a word at the place, and it is that text.
fn has_word(words: &Words, place: usize, text: &str) -> bool
    ensures { result ≡ shapes.has_word words.now place text.now }
{
    place < words.len() && is(words.get(place), text)
}

/// Whether the word is that text.
fn is(word: &Text, text: &str) -> bool
    ensures { result ≡ bytes_eq word.now text.now }
{
    word.as_slice() == text.as_bytes()
}

/// The limit on pivots that a word names, if it names one.
fn pivots_of(word: &Text) -> Option<u32>
    ensures { result ≡ shapes.pivots_of word.now }
{
    match number_within(word, 1, MOST_PIVOTS) {
        Some(pivots) => Some(pivots as u32),
        None => None,
    }
}

/// The number that a word writes, where it lies from `low` to `high`.
fn number_within(word: &Text, low: u64, high: u64) -> Option<u64>
    ensures number { result ≡ shapes.number_within low high word.now }
    ensures most { IfSome result (λ n. n ≤ high) }
{
    let number = number_of(word.as_str())?;
    if low <= number && number <= high {
        Some(number)
    } else {
        None
    }
}

/// The number that a text writes in 1 to 10 decimal digits.
fn number_of(text: &str) -> Option<u64>
    ensures { result ≡ shapes.number_of text.now }
{
    if !is_number(text.as_bytes()) {
        return None;
    }
    text.parse::<u64>().ok()
}

fn is_number(text: &[u8]) -> bool
    ensures { result ≡ shapes.is_number text.now }
{
    has_length(text) && all_digits(text)
}

/// Whether there are 1 to 10 bytes.
fn has_length(text: &[u8]) -> bool
    ensures { result ≡ (nat_lt 0 (length text.now) && nat_le (length text.now) 10) }
{
    0 < text.len() && text.len() <= 10
}

fn all_digits(text: &[u8]) -> bool
    ensures { result ≡ list_all is_ascii_digit text.now }
{
    text.iter().all(|c| c.is_ascii_digit())
}
