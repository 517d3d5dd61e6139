// What is read from the input: the numbers of a program, or a certificate.

ghost use Rattle.std.specs.Prelude.{IfOk, IfErr};
ghost use Rattle.pra_tool.specs.Applied.{HasGivenCert, certificate_texts};
ghost use Rattle.pra_tool.specs.Inputs.{HasGiven, IsInputCause, inputs};
ghost use Rattle.pra_tool.specs.Outside.{stream_seen};

use crate::certified::{Uncertified, certificate_in};
use cert_form::{Certificate, MAX_CERT_BYTES};
use pra_io::{ReadAll, Source, read_all};
use pra_report::input_words;
use std::alloc::Global;

/// The most bytes of an input.
const MAX_INPUT: usize = 1_048_576;

/// What may be wrong with an input.
#[derive(Clone, Copy, Debug, PartialEq, Eq)]
pub enum WrongInput {
    /// It has more than 1,048,576 bytes.
    TooLong,
    /// The run of bytes that begins there, counted from 0, is no word of a number.
    NoWord(u32),
}

/// Why an input was not read.
#[derive(Clone, Copy, Debug, PartialEq, Eq)]
pub(crate) enum InputFault<W> {
    /// This is wrong with it.
    Wrong(W),
    /// The input failed.
    NotRead,
    OutOfMemory,
}

/// Reads the numbers of a program from the input, up to its end.
///
/// # Errors
///
/// What is wrong with the input, or that it failed, or that memory was wanting.
pub(crate) fn read_numbers<I: Source>(
    alloc: Global,
    input: &mut I,
) -> Result<Vec<i32>, InputFault<WrongInput>>
    ensures numbers { IfOk result (λ numbers. HasGiven (stream_seen I.left I.faults input.old)
        (stream_seen I.left I.faults input.new) numbers.items) }
    ensures cause { IfErr result (λ fault. IsInputCause inputs fault
        (stream_seen I.left I.faults input.old) (stream_seen I.left I.faults input.new)) }
{
    let bytes = match read_all(alloc, input, MAX_INPUT) {
        Ok(bytes) => bytes,
        Err(ReadAll::TooLong) => return Err(InputFault::Wrong(WrongInput::TooLong)),
        Err(ReadAll::ReadFault) => return Err(InputFault::NotRead),
        Err(ReadAll::OutOfMemory) => return Err(InputFault::OutOfMemory),
    };
    match input_words(alloc, &bytes) {
        Ok(numbers) => Ok(numbers),
        Err(pra_report::InputFault::BadInput(at)) => {
            Err(InputFault::Wrong(WrongInput::NoWord(at)))
        }
        Err(pra_report::InputFault::OutOfMemory) => Err(InputFault::OutOfMemory),
    }
}

/// Reads a certificate from the input, up to its end.
///
/// # Errors
///
/// Why what the input has is no text of a certificate, or that it failed, or that memory was
/// wanting.
pub(crate) fn read_certificate<I: Source>(
    alloc: Global,
    input: &mut I,
) -> Result<Certificate, InputFault<Uncertified>>
    ensures given { IfOk result (λ c. HasGivenCert (stream_seen I.left I.faults input.old)
        (stream_seen I.left I.faults input.new) c) }
    ensures cause { IfErr result (λ fault. IsInputCause certificate_texts fault
        (stream_seen I.left I.faults input.old) (stream_seen I.left I.faults input.new)) }
{
    let text = match read_all(alloc, input, MAX_CERT_BYTES) {
        Ok(text) => text,
        Err(ReadAll::TooLong) => return Err(InputFault::Wrong(Uncertified::TooLong)),
        Err(ReadAll::ReadFault) => return Err(InputFault::NotRead),
        Err(ReadAll::OutOfMemory) => return Err(InputFault::OutOfMemory),
    };
    match certificate_in(alloc, &text) {
        Ok(certificate) => Ok(certificate),
        Err(Uncertified::OutOfMemory) => Err(InputFault::OutOfMemory),
        Err(wrong) => Err(InputFault::Wrong(wrong)),
    }
}
