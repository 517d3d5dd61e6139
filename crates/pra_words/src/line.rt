// The command line, read as a simple command.

ghost use Rattle.std.specs.Prelude.{◌≡◌, IfOk, false, option_map};
ghost use Rattle.clap.specs.Matches.{found_of, first_value};
ghost use Rattle.clap.specs.Walk.{rule_of};
ghost use Rattle.clap.specs.Simple.{app_of};
ghost use Rattle.pra_words.specs.CommandLine.{line_in, line_of};
ghost use Rattle.pra_words.specs.Command.{command, option, wanted};
ghost use Rattle.pra_words.specs.Texts.{word_name};
ghost use Rattle.pra_words.specs.Words.{texts};
ghost use Rattle.pra_words.specs.Written.{written};

use crate::words::Word;
use clap::error::ErrorKind;
use clap::{Arg, ArgAction, ArgMatches, Command};
use pra_base::OutOfMemory;
use std::alloc::{AllocError, Global};

/// The values of a command line, as they are written.
#[derive(Clone, Copy, Drop)]
pub struct Line<'a> {
    pub mode: &'a str,
    pub file: &'a str,
    pub rounds: Option<&'a str>,
    pub cost: Option<&'a str>,
    pub steps: Option<&'a str>,
    pub gap: Option<&'a str>,
    pub from: Option<&'a str>,
    pub image: Option<&'a str>,
    pub seed: Option<&'a str>,
    pub size: Option<&'a str>,
}

/// The values of a command line; `None` where the words are none.
///
/// # Errors
///
/// Where there is no memory for reading.
pub fn read_line(alloc: Global, words: &[String]) -> Result<Option<Line<'_>>, OutOfMemory>
    ensures { IfOk result (λ line. option_map written line ≡ line_of (texts words.now)) }
{
    let command = command(alloc)?;
    match command.try_get_matches_from(words) {
        Ok(matches) => Ok(line_in(&matches)),
        Err(error) => match error.kind() {
            ErrorKind::OutOfMemory => Err(OutOfMemory),
            _ => Ok(None),
        },
    }
}

// The simple command: the values MODE and FILE, and the options.
fn command<'a>(alloc: Global) -> Result<Command<'a>, AllocError>
    ensures { IfOk result (λ c. app_of c ≡ command) }
{
    let mode = wanted(alloc, "MODE");
    let file = wanted(alloc, "FILE");
    let rounds = option(alloc, "--rounds", "rounds");
    let cost = option(alloc, "--cost", "cost");
    let steps = option(alloc, "--steps", "steps");
    let gap = option(alloc, "--gap", "gap");
    let from = option(alloc, "--from", "from");
    let image = option(alloc, "--image", "image");
    let seed = option(alloc, "--seed", "seed");
    let size = option(alloc, "--size", "size");
    Command::new(alloc, "pra")
        .no_binary_name(true)
        .disable_help_flag(true)
        .arg(mode)?
        .arg(file)?
        .arg(rounds)?
        .arg(cost)?
        .arg(steps)?
        .arg(gap)?
        .arg(from)?
        .arg(image)?
        .arg(seed)?
        .arg(size)
}

// The values that the words gave.
fn line_in<'a>(matches: &ArgMatches<'a>) -> Option<Line<'a>>
    ensures { option_map written result
        ≡ line_in (λ word. first_value (found_of matches.now) (word_name word)) }
{
    match (value(matches, Word::Mode), value(matches, Word::File)) {
        (Some(mode), Some(file)) => Some(Line {
            mode,
            file,
            rounds: value(matches, Word::Rounds),
            cost: value(matches, Word::Cost),
            steps: value(matches, Word::Steps),
            gap: value(matches, Word::Gap),
            from: value(matches, Word::From),
            image: value(matches, Word::Image),
            seed: value(matches, Word::Seed),
            size: value(matches, Word::Size),
        }),
        _ => None,
    }
}

fn value<'a>(matches: &ArgMatches<'a>, word: Word) -> Option<&'a str>
    ensures { option_map (λ s. s.now) result
        ≡ first_value (found_of matches.now) (word_name word) }
{
    matches.get_str(word.name())
}

// A value that is wanted, at its place in the line.
fn wanted<'a>(alloc: Global, name: &'a str) -> Arg<'a>
    ensures rule { rule_of result ≡ wanted name.entry.now }
    ensures local { result.global ≡ false }
{
    Arg::new(alloc, name).required(true).action(ArgAction::Set)
}

// An option with a value.
fn option<'a>(alloc: Global, id: &'a str, name: &'a str) -> Arg<'a>
    ensures rule { rule_of result ≡ option id.entry.now name.entry.now }
    ensures local { result.global ≡ false }
{
    Arg::new(alloc, id).long(name).action(ArgAction::Set)
}
