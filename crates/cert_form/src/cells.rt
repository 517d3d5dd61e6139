// Short lists of a text: what stands in them, and lists that begin with a word.

ghost use Rattle.std.specs.Prelude.{◌≡◌, ◌∷◌, ◌↔◌, IsTrue, Some, option_map, map, ⊤};
ghost use Rattle.json.specs.Reads.{token_of};
ghost use Rattle.serde_json.specs.Data.{Num, Data, Items, null, number, array};
ghost use Rattle.serde_json.specs.Read.{number_of};
ghost use Rattle.cert_form.specs.Streams.{IsFigure, IsIntegerTold};
ghost use Rattle.pra_list.specs.Each.{Each};
ghost use Rattle.cert_form.specs.Form.{integer, address_data, operand_data};
ghost use Rattle.cert_form.specs.Whole.{AddressFits};
ghost use Rattle.cert_form.specs.Streams.{values, rests, Took, TookWord, IsAnswer, IsListAnswer};
ghost use Rattle.cert_form.specs.Streams.{is_null, text_in, number_in, IsText, mark_data, cell_data};
ghost use Rattle.cert_form.specs.Streams.{CellFits, worded, spelled, AreSpelled};

use crate::figures::{Figure, figure_of};
use crate::lists::{Part, begins_list, is_bracket, items};
use crate::passing::{Unread, pass_begun, pass_items};
use crate::reading::address;
use crate::table::{Operand, Spelling};
use crate::writing::{base_name, base_number, condition_number};
use json::{Reader, Token};
use pra_base::Addr;
use std::alloc::Global;

/// A number, or null.
#[derive(Clone, Copy, Debug, Drop)]
pub enum Mark {
    Null,
    Integer(i128),
}

/// What stands in a list of the form behind its word.
#[derive(Clone, Copy, Debug, Drop)]
pub enum Cell {
    Integer(i128),
    Address(Addr),
}

fn is_null(token: Token<'_>) -> bool
    ensures { result ≡ is_null (token_of token.entry) }
{
    matches!(token, Token::Null)
}

fn text_in<'a>(token: Token<'a>) -> Option<&'a str>
    ensures { option_map (λ s. s.now) result ≡ text_in (token_of token.entry) }
{
    if let Token::String(text) = token {
        Some(text)
    } else {
        None
    }
}

fn number_in<'a>(token: Token<'a>) -> Option<&'a str>
    ensures { option_map (λ s. s.now) result ≡ number_in (token_of token.entry) }
{
    if let Token::Number(text) = token {
        Some(text)
    } else {
        None
    }
}

fn whole(figure: Figure) -> Option<i128>
    ensures { (n : Num) → IsFigure figure n → IsAnswer integer (λ z. ⊤) result (number n) }
{
    match figure {
        Figure::Integer(z) => Some(z),
        Figure::Float => None,
    }
}

/// The integer that the token of a number writes.
fn integer_told(text: &str) -> Result<Option<i128>, Unread>
    ensures { IsIntegerTold (number_of text.now) result }
{
    match figure_of(text) {
        Some(figure) => Ok(whole(figure)),
        None => Err(Unread::NotJson),
    }
}

/// An integer of which the token was taken, or passes over another value.
fn integer_begun(
    reader: &mut Reader<'_>,
    depth: usize,
    token: Token<'_>,
) -> Result<Option<i128>, Unread>
    ensures { Took (IsAnswer integer (λ z. ⊤)) (values depth (token_of token.entry ∷ reader.old))
        result reader.new }
{
    match number_in(token) {
        Some(text) => integer_told(text),
        None => {
            pass_begun(reader, depth, token)?;
            Ok(None)
        }
    }
}

/// An integer, or passes over another value.
pub(crate) fn integer(reader: &mut Reader<'_>, depth: usize) -> Result<Option<i128>, Unread>
    ensures { Took (IsAnswer integer (λ z. ⊤)) (values depth reader.old) result reader.new }
{
    let Some(token) = reader.next() else {
        return Err(Unread::NotJson);
    };
    integer_begun(reader, depth, token)
}

fn mark_in(found: Option<i128>) -> Option<Mark>
    ensures { (d : Data) → (d ≡ null → ⊥) → IsAnswer integer (λ z. ⊤) found d →
        IsAnswer mark_data (λ m. ⊤) result d }
{
    match found {
        Some(z) => Some(Mark::Integer(z)),
        None => None,
    }
}

/// A number or null, or passes over another value.
fn read_mark(reader: &mut Reader<'_>, depth: usize) -> Result<Option<Mark>, Unread>
    ensures { Took (IsAnswer mark_data (λ m. ⊤)) (values depth reader.old) result reader.new }
{
    let Some(token) = reader.next() else {
        return Err(Unread::NotJson);
    };
    if is_null(token) {
        return Ok(Some(Mark::Null));
    }
    let found = integer_begun(reader, depth, token)?;
    Ok(mark_in(found))
}

/// A text, or passes over another value.
pub(crate) fn word<'a>(reader: &mut Reader<'a>, depth: usize) -> Result<Option<&'a str>, Unread>
    ensures { Took IsText (values depth reader.old) result reader.new }
{
    let Some(token) = reader.next() else {
        return Err(Unread::NotJson);
    };
    match text_in(token) {
        Some(text) => Ok(Some(text)),
        None => {
            pass_begun(reader, depth, token)?;
            Ok(None)
        }
    }
}

/// The word that what is left of a list begins with, or passes over it.
fn first_word<'a>(reader: &mut Reader<'a>, depth: usize) -> Result<Option<&'a str>, Unread>
    ensures { TookWord depth reader.old result reader.new }
{
    if reader.take_end_array() {
        return Ok(None);
    }
    match word(reader, depth)? {
        Some(word) => Ok(Some(word)),
        None => {
            pass_items(reader, depth)?;
            Ok(None)
        }
    }
}

impl Part for Mark {
    ghost use Rattle.std.specs.Prelude.{⊤};
    ghost use Rattle.cert_form.specs.Streams.{mark_data};

    ghost form = { mark_data };

    ghost fits = { λ n m. ⊤ };

    fn part(
        _alloc: Global,
        _number: usize,
        reader: &mut Reader<'_>,
        depth: usize,
    ) -> Result<Option<Mark>, Unread> {
        read_mark(reader, depth)
    }
}

/// The address that is what is left of a list.
fn address_left(
    alloc: Global,
    reader: &mut Reader<'_>,
    depth: usize,
) -> Result<Option<Addr>, Unread>
    ensures { Took (IsListAnswer address_data AddressFits) (rests depth reader.old) result
        reader.new }
{
    match first_word(reader, depth)? {
        Some(word) => match items(alloc, reader, depth, Some(3))? {
            Some(marks) => Ok(address(word, marks.as_slice())),
            None => Ok(None),
        },
        None => Ok(None),
    }
}

impl Part for Cell {
    ghost use Rattle.cert_form.specs.Streams.{cell_data, CellFits};

    ghost form = { cell_data };

    ghost fits = { λ n c. CellFits c };

    fn part(
        alloc: Global,
        _number: usize,
        reader: &mut Reader<'_>,
        depth: usize,
    ) -> Result<Option<Cell>, Unread> {
        read_cell(alloc, reader, depth)
    }
}

fn integer_cell(found: Option<i128>) -> Option<Cell>
    ensures { (d : Data) → ((ds : Items) → d ≡ array ds → ⊥) →
        IsAnswer integer (λ z. ⊤) found d → IsAnswer cell_data CellFits result d }
{
    match found {
        Some(z) => Some(Cell::Integer(z)),
        None => None,
    }
}

fn address_cell(found: Option<Addr>) -> Option<Cell>
    ensures { (ds : Items) → IsListAnswer address_data AddressFits found ds →
        IsListAnswer cell_data CellFits result ds }
{
    match found {
        Some(a) => Some(Cell::Address(a)),
        None => None,
    }
}

fn read_cell(alloc: Global, reader: &mut Reader<'_>, depth: usize) -> Result<Option<Cell>, Unread>
    ensures { Took (IsAnswer cell_data CellFits) (values depth reader.old) result reader.new }
{
    let Some(token) = reader.next() else {
        return Err(Unread::NotJson);
    };
    if !is_bracket(token) {
        let found = integer_begun(reader, depth, token)?;
        return Ok(integer_cell(found));
    }
    if depth == 0 {
        return Err(Unread::NotJson);
    }
    let found = address_left(alloc, reader, depth - 1)?;
    Ok(address_cell(found))
}

/// A part that is a list of a word and operands.
pub(crate) trait Worded: Drop {
    ghost use Rattle.std.specs.Prelude.{◌≡◌, ℕ, List, Option};
    ghost use Rattle.serde_json.specs.Data.{Data};
    ghost use Rattle.pra_list.specs.Each.{Each};
    ghost use Rattle.cert_form.specs.Streams.{worded, CellFits};
    ghost use Rattle.cert_form.specs.declared.table.Operand.{Operand};

    ghost of: { Data → Option Self };

    ghost form: { Self → Data };

    ghost fits: { Self → Type 0 };

    ghost says: { Self → List ℕ };

    ghost operands: { Self → List Operand };

    fn of_row(word: &str, cells: &[Cell]) -> Option<Self>
        requires { Each CellFits cells.now }
        ensures { result ≡ of (worded word.now cells.now) };

    fn spell(&self) -> Spelling
        ensures says { result.word.now ≡ says self.now }
        ensures operands { result.operands.items ≡ operands self.now };
}

fn is_number(cell: Cell, number: i128) -> bool
    ensures { IsTrue result ↔ (cell_data cell ≡ integer number) }
{
    match cell {
        Cell::Integer(z) => z == number,
        Cell::Address(_) => false,
    }
}

fn are_same(a: Addr, b: Addr) -> bool
    ensures { IsTrue result ↔ (address_data a ≡ address_data b) }
{
    base_name(a.base).as_bytes() == base_name(b.base).as_bytes()
        && base_number(a.base) == base_number(b.base)
        && a.offset == b.offset
        && a.index == b.index
}

/// Whether a cell is what an operand is written as.
fn is_operand(cell: Cell, operand: Operand) -> bool
    ensures { IsTrue result ↔ (cell_data cell ≡ operand_data operand) }
{
    match operand {
        Operand::Variable(v) => is_number(cell, v.0 as i128),
        Operand::Number(n) => is_number(cell, n as i128),
        Operand::Address(a) => match cell {
            Cell::Integer(_) => false,
            Cell::Address(b) => are_same(b, a),
        },
        Operand::Condition(k) => is_number(cell, condition_number(k) as i128),
        Operand::Procedure(p) => is_number(cell, p.0 as i128),
    }
}

fn are_operands(cells: &[Cell], operands: &[Operand]) -> bool
    ensures { IsTrue result ↔ (map cell_data cells.now ≡ map operand_data operands.now) }
{
    if cells.len() != operands.len() {
        return false;
    }
    for at in 0..cells.len() {
        if !is_operand(cells[at], operands[at]) {
            return false;
        }
    }
    true
}

/// Whether a row is of these operands behind this word.
fn is_spelled(word: &str, cells: &[Cell], other: &str, operands: &[Operand]) -> bool
    ensures { IsTrue result ↔ (worded word.now cells.now ≡ spelled other.now operands.now) }
{
    if word.as_bytes() != other.as_bytes() {
        return false;
    }
    are_operands(cells, operands)
}

/// The part that a word and what stands behind it spell.
fn part_spelled<T: Worded>(word: &str, cells: &[Cell]) -> Option<T>
    requires { AreSpelled T.of T.form T.fits T.says T.operands × Each CellFits cells.now }
    ensures { IsAnswer T.form T.fits result (worded word.now cells.now) }
{
    let Some(found) = T::of_row(word, cells) else {
        return None;
    };
    let spelling = found.spell();
    if is_spelled(word, cells, spelling.word, spelling.operands.as_slice()) {
        Some(found)
    } else {
        None
    }
}

/// A part that is a list of a word and operands, or passes over another value.
pub(crate) fn read_worded<T: Worded>(
    alloc: Global,
    reader: &mut Reader<'_>,
    depth: usize,
) -> Result<Option<T>, Unread>
    requires { AreSpelled T.of T.form T.fits T.says T.operands }
    ensures { Took (IsAnswer T.form T.fits) (values depth reader.old) result reader.new }
{
    if !begins_list(reader, depth)? {
        return Ok(None);
    }
    worded_left(alloc, reader, depth - 1)
}

/// The part that is what is left of a list.
fn worded_left<T: Worded>(
    alloc: Global,
    reader: &mut Reader<'_>,
    depth: usize,
) -> Result<Option<T>, Unread>
    requires { AreSpelled T.of T.form T.fits T.says T.operands }
    ensures { Took (IsListAnswer T.form T.fits) (rests depth reader.old) result reader.new }
{
    match first_word(reader, depth)? {
        Some(word) => match items(alloc, reader, depth, Some(4))? {
            Some(cells) => Ok(part_spelled(word, cells.as_slice())),
            None => Ok(None),
        },
        None => Ok(None),
    }
}
