// What the words of a command line ask for.

ghost use Rattle.std.specs.Prelude.{◌≡◌, ◌≢◌, Ok, Err, MatchResult, option_map};
ghost use Rattle.std.specs.Option.{ok_or};
ghost use Rattle.std.specs.Str.{all_ascii_digits};
ghost use Rattle.pra_words.specs.Words.{texts, mode_of, file_of, is_number, number_within};
ghost use Rattle.pra_words.specs.Words.{value_of, cost_word, cost_word_of, image_of};
ghost use Rattle.pra_words.specs.Words.{file_kind, file_kind_of, kind_in};
ghost use Rattle.pra_words.specs.Texts.{word_name};
ghost use Rattle.pra_words.specs.Words.{writes_image, is_image, values_of, asked_of};
ghost use Rattle.pra_words.specs.Written.{asked_by, text_in, written};

use crate::line::{Line, read_line};
use pra_base::OutOfMemory;
use std::alloc::Global;

/// The file that the image is written to, where the words don't say.
const DEFAULT_IMAGE: &str = "out.pri";

// The numbers that an option may have, and the one where the words don't say.
#[derive(Clone, Copy)]
struct Numbers {
    default: u32,
    least: u32,
    most: u32,
}

// How many rounds of allocation are made at most.
const ROUNDS: Numbers = Numbers {
    default: 10,
    least: 0,
    most: 1000,
};

// How many steps a run is granted.
const STEPS: Numbers = Numbers {
    default: 10_000_000,
    least: 0,
    most: 200_000_000,
};

// How far above the bound a cost is good enough.
const GAP: Numbers = Numbers {
    default: 0,
    least: 0,
    most: 4_294_967_295,
};

// Where the numbers that a module is generated from begin.
const SEED: Numbers = Numbers {
    default: 1,
    least: 0,
    most: 2_147_483_647,
};

// How large a generated module is.
const SIZE: Numbers = Numbers {
    default: 10,
    least: 1,
    most: 200,
};

/// What is done with FILE.
#[derive(Clone, Copy, Debug, PartialEq, Eq)]
pub enum Mode {
    /// It is compiled, and its image runs.
    Run,
    /// It is compiled.
    Compile,
    /// A module is generated and written to it, compiled, and its image runs.
    Gen,
    /// It is an image, and is listed.
    List,
    /// It is the listing of an image, and is assembled.
    Asm,
    /// It is compiled, and runs by its meaning.
    Interp,
    /// It is compiled, and what its registers cost is certified.
    Cert,
    /// It is a certificate, and is tested.
    Check,
    /// It is an image, and runs.
    Exec,
    /// It is compiled with the routes of a certificate.
    Apply,
}

impl Mode {
    // Whether it writes an image file.
    fn writes_image(self) -> bool
        ensures { result ≡ writes_image self }
    {
        matches!(
            self,
            Mode::Run | Mode::Compile | Mode::Gen | Mode::Asm | Mode::Apply
        )
    }
}

/// What the code is to be cheap in.
#[derive(Clone, Copy, Debug, PartialEq, Eq)]
pub enum CostWord {
    /// Its bytes.
    Size,
    /// Its time.
    Speed,
}

/// What FILE is.
#[derive(Clone, Copy, Debug, PartialEq, Eq)]
pub enum FileKind {
    /// A module.
    Module,
    /// Selected code.
    Code,
}

/// A word of the command line that has a value, in the order in which the values are told of.
#[derive(Clone, Copy, Debug, PartialEq, Eq)]
pub enum Word {
    Mode,
    File,
    Rounds,
    Cost,
    Steps,
    Gap,
    From,
    Image,
    Seed,
    Size,
}

impl Word {
    /// Its name in the usage line.
    pub(crate) fn name(self) -> &'static str
        ensures { result.now ≡ word_name self }
    {
        match self {
            Word::Mode => "MODE",
            Word::File => "FILE",
            Word::Rounds => "--rounds",
            Word::Cost => "--cost",
            Word::Steps => "--steps",
            Word::Gap => "--gap",
            Word::From => "--from",
            Word::Image => "--image",
            Word::Seed => "--seed",
            Word::Size => "--size",
        }
    }
}

/// Why the words are refused, or not read.
#[derive(Clone, Copy, Debug, PartialEq, Eq)]
pub enum WordsFault {
    /// They are no command line.
    Words,
    /// The value of this word is none that it may have.
    Value(Word),
    /// Memory was wanting.
    OutOfMemory,
}

/// What the words ask for.
#[derive(Clone, Copy, Drop)]
pub struct Request<'a> {
    /// What is done with FILE.
    pub mode: Mode,
    /// The name of FILE.
    pub file: &'a str,
    /// How many rounds of allocation are made at most.
    pub rounds: u32,
    /// What the code is to be cheap in.
    pub cost: CostWord,
    /// The steps that a run is granted.
    pub steps: u32,
    /// The rounds stop where a cost is above the bound by no more than this.
    pub gap: u32,
    /// What FILE is.
    pub from: FileKind,
    /// The name of the file that the image is written to.
    pub image: &'a str,
    /// Where the numbers that a module is generated from begin.
    pub seed: u32,
    /// How large a generated module is.
    pub size: u32,
}

/// Reads MODE, FILE and the options, and then their values, also of options that the mode does not
/// use.
///
/// | Word | Values | Where it is left out |
/// |---|---|---|
/// | MODE | `run`, `compile`, `gen`, `list`, `asm`, `interp`, `cert`, `check`, `exec`, `apply` | |
/// | FILE | not empty | |
/// | `--rounds` | 0 to 1000 | 10 |
/// | `--cost` | `size`, `speed` | `size` |
/// | `--steps` | 0 to 200000000 | 10000000 |
/// | `--gap` | 0 to 4294967295 | 0 |
/// | `--from` | `module`; `code`, but not of `gen`, which writes FILE | `module` |
/// | `--image` | not empty; where an image is written not FILE | `out.pri` |
/// | `--seed` | 0 to 2147483647 | 1 |
/// | `--size` | 1 to 200 | 10 |
///
/// A number is one to ten decimal digits.
///
/// # Errors
///
/// `WordsFault::Words` where the words are no such line, and else `WordsFault::Value` of the first
/// word, in the order of the table, whose value is none that it may have. `WordsFault::OutOfMemory`
/// where there is no memory for reading.
pub fn read_words(alloc: Global, words: &[String]) -> Result<Request<'_>, WordsFault>
    ensures { MatchResult result (λ r. asked_of (texts words.now) ≡ Ok (asked_by r))
        (λ fault. fault ≢ WordsFault.OutOfMemory → asked_of (texts words.now) ≡ Err fault) }
{
    match read_line(alloc, words) {
        Ok(Some(line)) => values(&line),
        Ok(None) => Err(WordsFault::Words),
        Err(OutOfMemory) => Err(WordsFault::OutOfMemory),
    }
}

// Reads the values of a line.
fn values<'a>(line: &Line<'a>) -> Result<Request<'a>, WordsFault>
    ensures { MatchResult result (λ r. values_of (written line.now) ≡ Ok (asked_by r))
        (λ fault. values_of (written line.now) ≡ Err fault) }
{
    let mode = told(mode_of(line.mode), Word::Mode)?;
    let file = told(file_of(line.file), Word::File)?;
    let rounds = told(value_of(line.rounds, ROUNDS), Word::Rounds)?;
    let cost = told(cost_of(line.cost), Word::Cost)?;
    let steps = told(value_of(line.steps, STEPS), Word::Steps)?;
    let gap = told(value_of(line.gap, GAP), Word::Gap)?;
    let from = told(kind_of(mode, line.from), Word::From)?;
    let image = told(image_of(mode, file, line.image), Word::Image)?;
    let seed = told(value_of(line.seed, SEED), Word::Seed)?;
    let size = told(value_of(line.size, SIZE), Word::Size)?;
    Ok(Request {
        mode,
        file,
        rounds,
        cost,
        steps,
        gap,
        from,
        image,
        seed,
        size,
    })
}

// The value of a word, or that it has none that it may have.
fn told<T: Copy>(value: Option<T>, word: Word) -> Result<T, WordsFault>
    ensures { result ≡ ok_or value (WordsFault.Value word) }
{
    match value {
        Some(value) => Ok(value),
        None => Err(WordsFault::Value(word)),
    }
}

fn mode_of(word: &str) -> Option<Mode>
    ensures { result ≡ mode_of word.now }
{
    if word == "run" {
        Some(Mode::Run)
    } else if word == "compile" {
        Some(Mode::Compile)
    } else if word == "gen" {
        Some(Mode::Gen)
    } else if word == "list" {
        Some(Mode::List)
    } else if word == "asm" {
        Some(Mode::Asm)
    } else if word == "interp" {
        Some(Mode::Interp)
    } else if word == "cert" {
        Some(Mode::Cert)
    } else if word == "check" {
        Some(Mode::Check)
    } else if word == "exec" {
        Some(Mode::Exec)
    } else if word == "apply" {
        Some(Mode::Apply)
    } else {
        None
    }
}

fn file_of(word: &str) -> Option<&str>
    ensures { text_in result ≡ file_of word.now }
{
    if word.is_empty() { None } else { Some(word) }
}

fn cost_of(word: Option<&str>) -> Option<CostWord>
    ensures { result ≡ cost_word_of (text_in word.entry) }
{
    match word {
        Some(word) => cost_word(word),
        None => Some(CostWord::Size),
    }
}

fn cost_word(word: &str) -> Option<CostWord>
    ensures { result ≡ cost_word word.now }
{
    if word == "size" {
        Some(CostWord::Size)
    } else if word == "speed" {
        Some(CostWord::Speed)
    } else {
        None
    }
}

fn kind_of(mode: Mode, word: Option<&str>) -> Option<FileKind>
    ensures { result ≡ file_kind_of mode (text_in word.entry) }
{
    match word {
        Some(word) => kind_in(mode, file_kind(word)?),
        None => Some(FileKind::Module),
    }
}

fn file_kind(word: &str) -> Option<FileKind>
    ensures { result ≡ file_kind word.now }
{
    if word == "module" {
        Some(FileKind::Module)
    } else if word == "code" {
        Some(FileKind::Code)
    } else {
        None
    }
}

// The kind, where the mode takes FILE for one.
fn kind_in(mode: Mode, kind: FileKind) -> Option<FileKind>
    ensures { result ≡ kind_in mode kind }
{
    match (mode, kind) {
        (Mode::Gen, FileKind::Code) => None,
        _ => Some(kind),
    }
}

fn image_of<'a>(mode: Mode, file: &str, word: Option<&'a str>) -> Option<&'a str>
    ensures { text_in result ≡ image_of mode file.now (text_in word.entry) }
{
    let image = word.unwrap_or(DEFAULT_IMAGE);
    if is_image(mode, file, image) {
        Some(image)
    } else {
        None
    }
}

fn is_image(mode: Mode, file: &str, word: &str) -> bool
    ensures { result ≡ is_image mode file.now word.now }
{
    !word.is_empty() && !(mode.writes_image() && word == file)
}

fn value_of(word: Option<&str>, numbers: Numbers) -> Option<u32>
    ensures { result ≡ value_of numbers.default numbers.least numbers.most (text_in word.entry) }
{
    match word {
        Some(word) => number_within(word, numbers.least, numbers.most),
        None => Some(numbers.default),
    }
}

fn all_digits(bytes: &[u8]) -> bool
    ensures { result ≡ all_ascii_digits bytes.now }
{
    let mut rest = bytes;
    while let [first, others @ ..] = rest {
        if !first.is_ascii_digit() {
            return false;
        }
        rest = others;
    }
    true
}

fn is_number(word: &str) -> bool
    ensures { result ≡ is_number word.now }
{
    all_digits(word.as_bytes()) && 1 <= word.len() && word.len() <= 10
}

#[tactic(auto, using(crate::proofs::Numbers::number_parsed))]
fn number_within(word: &str, least: u32, most: u32) -> Option<u32>
    ensures { result ≡ number_within least most word.now }
{
    if !is_number(word) {
        return None;
    }
    match word.parse::<u64>() {
        Ok(number) if least as u64 <= number && number <= most as u64 => Some(number as u32),
        _ => None,
    }
}
