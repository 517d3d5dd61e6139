// The numbers in a program's input.

ghost use Rattle.std.specs.Prelude.{◌≡◌, ℕ, ◌≤◌, ◌<◌, ◌^◌, ℤ, List, Ok, Err, length, position};
ghost use Rattle.std.specs.Prelude.{IfOk, IfErr, IsOkUnless};
ghost use Rattle.pra_report.specs.Input.{is_separator, numeral, word_of, input_words, IsCause};
ghost use Rattle.pra_report.specs.Parts.{IsFirstPart};

use std::alloc::Global;
use thiserror::Error;

/// The greatest number of a word.
const GREATEST: u32 = 2_147_483_647;

/// The magnitude of the least number of a word.
const LEAST: u32 = 2_147_483_648;

/// Why an input has no list of numbers.
#[derive(Clone, Copy, Debug, PartialEq, Eq, Error)]
pub enum InputFault {
    /// The run of bytes that begins there, counted from 0, is no word, and all before it are.
    #[error("byte {0} of the input begins no number")]
    BadInput(u32),
    #[error("out of memory")]
    OutOfMemory,
}

/// The numbers that an input's words write, in order.
pub fn input_words(alloc: Global, bytes: &[u8]) -> Result<Vec<i32>, InputFault>
    requires { length bytes.now ≤ 4294967295 }

    ensures words { IfOk result (λ words. input_words bytes.now ≡ Ok words.items) }
    ensures cause { IfErr result (IsCause bytes.now) }
{
    let mut words = Vec::new(alloc);
    let mut rest = bytes;
    'parts: while !rest.is_empty() {
        let at = (bytes.len() - rest.len()) as u32;
        let part = first_part(rest);
        rest = part.rest;
        if part.bytes.is_empty() {
            continue;
        }
        let Some(word) = word_of(part.bytes) else {
            return Err(InputFault::BadInput(at));
        };
        words.push(word).map_err(|_| InputFault::OutOfMemory)?;
    }
    Ok(words)
}

/// The front of a text up to a separator, and what stands behind this.
#[derive(Clone, Copy)]
struct Part<'a> {
    bytes: &'a [u8],
    rest: &'a [u8],
}

fn first_part(text: &[u8]) -> Part<'_>
    ensures { IsFirstPart text.now result.bytes.now result.rest.now }
{
    match first_separator(text) {
        Some(at) => Part {
            bytes: &text[..at],
            rest: &text[at + 1..],
        },
        None => Part {
            bytes: text,
            rest: &[],
        },
    }
}

fn first_separator(text: &[u8]) -> Option<usize>
    ensures { result ≡ position is_separator text.now }
{
    text.iter().position(|b| is_separator(*b))
}

fn is_separator(byte: u8) -> bool
    ensures { result ≡ is_separator byte }
{
    byte == b' ' || byte == b'\t' || byte == b'\n' || byte == b'\r'
}

/// The number that a run of bytes writes, where it is a word.
fn word_of(run: &[u8]) -> Option<i32>
    ensures { result ≡ word_of run.now }
{
    let [first, digits @ ..] = run else {
        return None;
    };
    if *first == b'-' {
        let magnitude = numeral(digits, LEAST)?;
        Some(-(magnitude as i64) as i32)
    } else {
        let value = numeral(run, GREATEST)?;
        Some(value as i32)
    }
}

/// The value of one or more digits, where it is at most so much.
fn numeral(digits: &[u8], most: u32) -> Option<u32>
    ensures { result ≡ numeral most digits.now }
{
    if digits.is_empty() {
        return None;
    }
    let mut value = 0;
    let mut rest = digits;
    'digits: while let [digit, others @ ..] = rest {
        if !digit.is_ascii_digit() {
            return None;
        }
        value = value * 10 + (*digit - b'0') as u64;
        if value > most as u64 {
            return None;
        }
        rest = others;
    }
    Some(value as u32)
}
