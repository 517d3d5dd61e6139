// The parts of a certificate and of a code file, read of a text.

ghost use Rattle.std.specs.Prelude.{◌≡◌, ◌∷◌, ℕ, List, codes, option_map, map, slice_get, ⊤};
ghost use Rattle.std.specs.Option.{option_copied};
ghost use Rattle.pra_list.specs.Each.{Each};
ghost use Rattle.ia_code.specs.Reading.{cond_of};
ghost use Rattle.cert_form.specs.Form.{integer, row, address_data, place_data, path_data, list};
ghost use Rattle.cert_form.specs.Form.{block_data, cap_data, tie_data};
ghost use Rattle.cert_form.specs.Reading.{long_natural, natural_of, long_integer, integer_of};
ghost use Rattle.cert_form.specs.Reading.{natural_at, integer_at, variable_at, condition_at};
ghost use Rattle.cert_form.specs.Reading.{address_at, kind_named, base_of, index_of, made, place_of};
ghost use Rattle.cert_form.specs.Reading.{end_named, cost_word_of, shift_made};
ghost use Rattle.cert_form.specs.Whole.{AddressFits, BlockFits, CapFits, TieFits};
ghost use Rattle.cert_form.specs.Found.{ArePaths};
ghost use Rattle.cert_form.specs.Streams.{address_in, cap_in, tie_in, long_natural_at};
ghost use Rattle.cert_form.specs.Streams.{long_integer_at, index_at};
ghost use Rattle.cert_form.specs.Streams.{rests, Took, IsListAnswer, mark_data, CellFits};
ghost use Rattle.cert_form.specs.Streams.{marks_row, cells_row, cell_data, worded};
ghost use Rattle.serde_json.specs.Find.{at as item_at};
ghost use Rattle.serde_json.specs.Data.{Data, string};
ghost use Rattle.cert_form.specs.Form.{natural, cost_name};
ghost use Rattle.cert_form.specs.Whole.{IsNatural, IsLong};
ghost use Rattle.cert_form.specs.Streams.{IsAnswer, IsText};

use crate::cells::{Cell, Mark, Worded, integer, read_worded, word};
use crate::certificate::{CapAt, CostWord, TieAt};
use crate::lists::{Part, begins_list, ends, item, list};
use crate::passing::{Unread, pass_items};
use crate::table::{Form, Operand, Spelling, form_named, name, row, spelling_of};
use json::Reader;
use pra_base::{
    Addr, Base, Block, BlockId, Cond, End, Place, ProcId, ShiftOp, VInstr, VarId, VarKind,
};
use pra_packed::Packed;
use std::alloc::Global;

/// A number of 64 bits without a sign.
fn long_natural(z: i128) -> Option<u64>
    ensures { result ≡ long_natural (integer z) }
{
    if 0 <= z && z < 18446744073709551616 {
        Some(z as u64)
    } else {
        None
    }
}

/// A number of 32 bits without a sign.
fn natural(z: i128) -> Option<u32>
    ensures { result ≡ natural_of (integer z) }
{
    if 0 <= z && z < 4294967296 {
        Some(z as u32)
    } else {
        None
    }
}

/// A number of 64 bits with a sign.
fn long_integer(z: i128) -> Option<i64>
    ensures { result ≡ long_integer (integer z) }
{
    if -9223372036854775808 <= z && z <= 9223372036854775807 {
        Some(z as i64)
    } else {
        None
    }
}

/// A number of 32 bits with a sign.
fn short_integer(z: i128) -> Option<i32>
    ensures { result ≡ integer_of (integer z) }
{
    if -2147483648 <= z && z <= 2147483647 {
        Some(z as i32)
    } else {
        None
    }
}

fn item_ref<T>(items: &[T], at: usize) -> Option<&T>
    ensures { option_copied result ≡ slice_get items.now at }
{
    items.get(at)
}

fn cell_at(cells: &[Cell], at: usize) -> Option<Cell>
    ensures { option_map cell_data result ≡ item_at at (cells_row cells.now) }
{
    item_ref(cells, at).copied()
}

fn natural_at(cells: &[Cell], at: usize) -> Option<u32>
    ensures { result ≡ natural_at at (cells_row cells.now) }
{
    match cell_at(cells, at)? {
        Cell::Integer(z) => natural(z),
        Cell::Address(_) => None,
    }
}

fn integer_at(cells: &[Cell], at: usize) -> Option<i32>
    ensures { result ≡ integer_at at (cells_row cells.now) }
{
    match cell_at(cells, at)? {
        Cell::Integer(z) => short_integer(z),
        Cell::Address(_) => None,
    }
}

fn variable_at(cells: &[Cell], at: usize) -> Option<VarId>
    ensures { result ≡ variable_at at (cells_row cells.now) }
{
    let n = natural_at(cells, at)?;
    Some(VarId(n))
}

fn address_at(cells: &[Cell], at: usize) -> Option<Addr>
    requires { Each CellFits cells.now }
    ensures { result ≡ address_at at (cells_row cells.now) }
{
    match cell_at(cells, at)? {
        Cell::Integer(_) => None,
        Cell::Address(a) => Some(a),
    }
}

/// The condition of a number.
fn condition(n: u32) -> Option<Cond>
    ensures { result ≡ cond_of n }
{
    match n {
        2 => Some(Cond::B),
        3 => Some(Cond::Ae),
        4 => Some(Cond::E),
        5 => Some(Cond::Ne),
        6 => Some(Cond::Be),
        7 => Some(Cond::A),
        8 => Some(Cond::S),
        9 => Some(Cond::Ns),
        12 => Some(Cond::L),
        13 => Some(Cond::Ge),
        14 => Some(Cond::Le),
        15 => Some(Cond::G),
        _ => None,
    }
}

fn condition_at(cells: &[Cell], at: usize) -> Option<Cond>
    ensures { result ≡ condition_at at (cells_row cells.now) }
{
    let n = natural_at(cells, at)?;
    condition(n)
}

fn kind_named(word: &str, cells: &[Cell]) -> Option<VarKind>
    ensures { result ≡ kind_named word.now (worded word.now cells.now) }
{
    if word == "param" {
        let i = natural_at(cells, 0)?;
        Some(VarKind::Param(i))
    } else if word == "plain" {
        Some(VarKind::Plain)
    } else if word == "constant" {
        let c = integer_at(cells, 0)?;
        Some(VarKind::Constant(c))
    } else {
        None
    }
}

impl Worded for VarKind {
    ghost use Rattle.cert_form.specs.Reading.{kind_of};
    ghost use Rattle.cert_form.specs.Form.{kind_data};
    ghost use Rattle.cert_form.specs.Whole.{KindFits};
    ghost use Rattle.cert_form.specs.Streams.{kind_word, kind_operands};

    ghost of = { kind_of };

    ghost form = { kind_data };

    ghost fits = { KindFits };

    ghost says = { kind_word };

    ghost operands = { kind_operands };

    fn of_row(word: &str, cells: &[Cell]) -> Option<VarKind> {
        kind_named(word, cells)
    }

    fn spell(&self) -> Spelling {
        match *self {
            VarKind::Param(i) => spelling_of("param", &[Operand::Variable(VarId(i))]),
            VarKind::Plain => spelling_of("plain", &[]),
            VarKind::Constant(c) => spelling_of("constant", &[Operand::Number(c)]),
        }
    }
}

impl Part for VarKind {
    ghost use Rattle.cert_form.specs.Form.{kind_data};
    ghost use Rattle.cert_form.specs.Whole.{KindFits};

    ghost form = { kind_data };

    ghost fits = { λ n k. KindFits k };

    fn part(
        alloc: Global,
        _number: usize,
        reader: &mut Reader<'_>,
        depth: usize,
    ) -> Result<Option<VarKind>, Unread> {
        read_worded(alloc, reader, depth)
    }
}

fn base(word: &str, n: u32) -> Option<Base>
    ensures { result ≡ base_of word.now n }
{
    if word == "global" {
        Some(Base::Global(n))
    } else if word == "frame" {
        Some(Base::Frame(n))
    } else if word == "cell" {
        Some(Base::Cell(n))
    } else if word == "via" {
        Some(Base::Via(VarId(n)))
    } else {
        None
    }
}

fn index(mark: Mark) -> Option<Option<VarId>>
    ensures { result ≡ index_of (mark_data mark) }
{
    match mark {
        Mark::Null => Some(None),
        Mark::Integer(z) => Some(Some(VarId(natural(z)?))),
    }
}

fn mark_at(marks: &[Mark], at: usize) -> Option<Mark>
    ensures { option_map mark_data result ≡ item_at at (marks_row marks.now) }
{
    item_ref(marks, at).copied()
}

fn natural_mark(marks: &[Mark], at: usize) -> Option<u32>
    ensures { result ≡ natural_at at (marks_row marks.now) }
{
    match mark_at(marks, at)? {
        Mark::Null => None,
        Mark::Integer(z) => natural(z),
    }
}

fn integer_mark(marks: &[Mark], at: usize) -> Option<i32>
    ensures { result ≡ integer_at at (marks_row marks.now) }
{
    match mark_at(marks, at)? {
        Mark::Null => None,
        Mark::Integer(z) => short_integer(z),
    }
}

fn long_natural_mark(marks: &[Mark], at: usize) -> Option<u64>
    ensures { result ≡ long_natural_at at (marks_row marks.now) }
{
    match mark_at(marks, at)? {
        Mark::Null => None,
        Mark::Integer(z) => long_natural(z),
    }
}

fn long_integer_mark(marks: &[Mark], at: usize) -> Option<i64>
    ensures { result ≡ long_integer_at at (marks_row marks.now) }
{
    match mark_at(marks, at)? {
        Mark::Null => None,
        Mark::Integer(z) => long_integer(z),
    }
}

fn index_mark(marks: &[Mark], at: usize) -> Option<Option<VarId>>
    ensures { result ≡ index_at at (marks_row marks.now) }
{
    let mark = mark_at(marks, at)?;
    index(mark)
}

/// The address of a word and three numbers.
pub(crate) fn address(word: &str, marks: &[Mark]) -> Option<Addr>
    ensures { result ≡ address_in word.now marks.now }
{
    if marks.len() != 3 {
        return None;
    }
    let n = natural_mark(marks, 0)?;
    let base = base(word, n)?;
    let offset = integer_mark(marks, 1)?;
    let index = index_mark(marks, 2)?;
    Some(Addr {
        base,
        offset,
        index,
    })
}

/// A shift: its variable, and by how many bits.
fn shift(op: ShiftOp, cells: &[Cell]) -> Option<VInstr>
    ensures { (w : List ℕ) → result ≡ shift_made op (worded w cells.now) }
{
    let v = variable_at(cells, 0)?;
    let n = natural_at(cells, 1)?;
    Some(VInstr::Shift(op, v, n))
}

/// The instruction of a form that a list spells.
fn made(form: Form, cells: &[Cell]) -> Option<VInstr>
    requires { Each CellFits cells.now }
    ensures { (w : List ℕ) → result ≡ made form (worded w cells.now) }
{
    match form {
        Form::Set => Some(VInstr::Set(variable_at(cells, 0)?, integer_at(cells, 1)?)),
        Form::Copy => Some(VInstr::Copy(variable_at(cells, 0)?, variable_at(cells, 1)?)),
        Form::Add => Some(VInstr::Add(variable_at(cells, 0)?, variable_at(cells, 1)?)),
        Form::Sub => Some(VInstr::Sub(variable_at(cells, 0)?, variable_at(cells, 1)?)),
        Form::And => Some(VInstr::And(variable_at(cells, 0)?, variable_at(cells, 1)?)),
        Form::Or => Some(VInstr::Or(variable_at(cells, 0)?, variable_at(cells, 1)?)),
        Form::Xor => Some(VInstr::Xor(variable_at(cells, 0)?, variable_at(cells, 1)?)),
        Form::Mul => Some(VInstr::Mul(variable_at(cells, 0)?, variable_at(cells, 1)?)),
        Form::Neg => Some(VInstr::Neg(variable_at(cells, 0)?)),
        Form::Shl => shift(ShiftOp::Shl, cells),
        Form::Shr => shift(ShiftOp::Shr, cells),
        Form::Sar => shift(ShiftOp::Sar, cells),
        Form::Cmp => Some(VInstr::Cmp(variable_at(cells, 0)?, variable_at(cells, 1)?)),
        Form::CmpSet => Some(VInstr::CmpSet(
            condition_at(cells, 0)?,
            variable_at(cells, 1)?,
            variable_at(cells, 2)?,
            variable_at(cells, 3)?,
        )),
        Form::DivMod => Some(VInstr::DivMod(
            variable_at(cells, 0)?,
            variable_at(cells, 1)?,
            variable_at(cells, 2)?,
            variable_at(cells, 3)?,
        )),
        Form::Check => Some(VInstr::Check(variable_at(cells, 0)?, integer_at(cells, 1)?)),
        Form::CheckPos => Some(VInstr::CheckPos(variable_at(cells, 0)?)),
        Form::Load => Some(VInstr::Load(variable_at(cells, 0)?, address_at(cells, 1)?)),
        Form::Store => Some(VInstr::Store(address_at(cells, 0)?, variable_at(cells, 1)?)),
        Form::Addr => Some(VInstr::Addr(variable_at(cells, 0)?, address_at(cells, 1)?)),
        Form::Push => Some(VInstr::Push(variable_at(cells, 0)?)),
        Form::Call => Some(VInstr::Call(ProcId(natural_at(cells, 0)?))),
        Form::Read => Some(VInstr::Read(variable_at(cells, 0)?)),
        Form::Write => Some(VInstr::Write(variable_at(cells, 0)?)),
        Form::Line => Some(VInstr::Line),
        Form::Clear => Some(VInstr::Clear),
    }
}

impl Worded for VInstr {
    ghost use Rattle.cert_form.specs.Reading.{instruction_of};
    ghost use Rattle.cert_form.specs.Form.{instruction_data};
    ghost use Rattle.cert_form.specs.Whole.{InstructionFits};
    ghost use Rattle.cert_form.specs.Table.{name, form_of, operands_of};

    ghost of = { instruction_of };

    ghost form = { instruction_data };

    ghost fits = { InstructionFits };

    ghost says = { λ i. name (form_of i) };

    ghost operands = { operands_of };

    fn of_row(word: &str, cells: &[Cell]) -> Option<VInstr> {
        let form = form_named(word)?;
        made(form, cells)
    }

    fn spell(&self) -> Spelling {
        let spelled = row(*self);
        Spelling {
            word: name(spelled.form),
            operands: spelled.operands,
        }
    }
}

impl Part for VInstr {
    ghost use Rattle.cert_form.specs.Form.{instruction_data};
    ghost use Rattle.cert_form.specs.Whole.{InstructionFits};

    ghost form = { instruction_data };

    ghost fits = { λ n i. InstructionFits i };

    fn part(
        alloc: Global,
        _number: usize,
        reader: &mut Reader<'_>,
        depth: usize,
    ) -> Result<Option<VInstr>, Unread> {
        read_worded(alloc, reader, depth)
    }
}

fn end_named(word: &str, cells: &[Cell]) -> Option<End>
    ensures { result ≡ end_named word.now (worded word.now cells.now) }
{
    if word == "jump" {
        let b = natural_at(cells, 0)?;
        Some(End::Jump(BlockId(b)))
    } else if word == "branch" {
        let k = condition_at(cells, 0)?;
        let yes = natural_at(cells, 1)?;
        let no = natural_at(cells, 2)?;
        Some(End::Branch(k, BlockId(yes), BlockId(no)))
    } else if word == "return" {
        Some(End::Return)
    } else {
        None
    }
}

impl Worded for End {
    ghost use Rattle.cert_form.specs.Reading.{end_of};
    ghost use Rattle.cert_form.specs.Form.{end_data};
    ghost use Rattle.cert_form.specs.Whole.{EndFits};
    ghost use Rattle.cert_form.specs.Streams.{end_word, end_operands};

    ghost of = { end_of };

    ghost form = { end_data };

    ghost fits = { EndFits };

    ghost says = { end_word };

    ghost operands = { end_operands };

    fn of_row(word: &str, cells: &[Cell]) -> Option<End> {
        end_named(word, cells)
    }

    fn spell(&self) -> Spelling {
        match *self {
            End::Jump(b) => spelling_of("jump", &[Operand::Variable(VarId(b.0))]),
            End::Branch(k, yes, no) => spelling_of(
                "branch",
                &[
                    Operand::Condition(k),
                    Operand::Variable(VarId(yes.0)),
                    Operand::Variable(VarId(no.0)),
                ],
            ),
            End::Return => spelling_of("return", &[]),
        }
    }
}

impl Part for End {
    ghost use Rattle.cert_form.specs.Form.{end_data};
    ghost use Rattle.cert_form.specs.Whole.{EndFits};

    ghost form = { end_data };

    ghost fits = { λ n e. EndFits e };

    fn part(
        alloc: Global,
        _number: usize,
        reader: &mut Reader<'_>,
        depth: usize,
    ) -> Result<Option<End>, Unread> {
        read_worded(alloc, reader, depth)
    }
}

fn natural_in(found: Option<i128>) -> Option<u32>
    ensures { (d : Data) → IsAnswer integer (λ z. ⊤) found d → IsAnswer natural IsNatural result d }
{
    match found {
        Some(z) => natural(z),
        None => None,
    }
}

fn long_in(found: Option<i128>) -> Option<u64>
    ensures { (d : Data) → IsAnswer integer (λ z. ⊤) found d → IsAnswer natural IsLong result d }
{
    match found {
        Some(z) => long_natural(z),
        None => None,
    }
}

impl Part for u32 {
    ghost use Rattle.cert_form.specs.Form.{natural};
    ghost use Rattle.cert_form.specs.Whole.{IsNatural};

    ghost form = { natural };

    ghost fits = { λ n x. IsNatural x };

    fn part(
        _alloc: Global,
        _number: usize,
        reader: &mut Reader<'_>,
        depth: usize,
    ) -> Result<Option<u32>, Unread> {
        let found = integer(reader, depth)?;
        Ok(natural_in(found))
    }
}

impl Part for u64 {
    ghost use Rattle.cert_form.specs.Form.{natural};
    ghost use Rattle.cert_form.specs.Whole.{IsLong};

    ghost form = { natural };

    ghost fits = { λ n x. IsLong x };

    fn part(
        _alloc: Global,
        _number: usize,
        reader: &mut Reader<'_>,
        depth: usize,
    ) -> Result<Option<u64>, Unread> {
        let found = integer(reader, depth)?;
        Ok(long_in(found))
    }
}

/// The block that is what is left of a list.
fn block_left(alloc: Global, reader: &mut Reader<'_>, depth: usize) -> Result<Option<Block>, Unread>
    ensures { Took (IsListAnswer block_data BlockFits) (rests depth reader.old) result reader.new }
{
    let Some(nested) = item(alloc, reader, depth)? else {
        return Ok(None);
    };
    let Some(code) = item(alloc, reader, depth)? else {
        return Ok(None);
    };
    let Some(end) = item(alloc, reader, depth)? else {
        return Ok(None);
    };
    if !ends(reader, depth)? {
        return Ok(None);
    }
    Ok(Some(Block {
        depth: nested,
        code,
        end,
    }))
}

impl Part for Block {
    ghost use Rattle.cert_form.specs.Form.{block_data};
    ghost use Rattle.cert_form.specs.Whole.{BlockFits};

    ghost form = { block_data };

    ghost fits = { λ n b. BlockFits b };

    fn part(
        alloc: Global,
        _number: usize,
        reader: &mut Reader<'_>,
        depth: usize,
    ) -> Result<Option<Block>, Unread> {
        if !begins_list(reader, depth)? {
            return Ok(None);
        }
        block_left(alloc, reader, depth - 1)
    }
}

fn place(z: i128) -> Option<Place>
    ensures { result ≡ place_of (integer z) }
{
    let n = natural(z)?;
    if n < 14 {
        Place::of_number(n as u8)
    } else {
        None
    }
}

fn place_in(found: Option<i128>) -> Option<Place>
    ensures { (d : Data) → IsAnswer integer (λ z. ⊤) found d →
        IsAnswer place_data (λ p. ⊤) result d }
{
    match found {
        Some(z) => place(z),
        None => None,
    }
}

impl Part for Place {
    ghost use Rattle.std.specs.Prelude.{⊤};
    ghost use Rattle.cert_form.specs.Form.{place_data};

    ghost form = { place_data };

    ghost fits = { λ n p. ⊤ };

    fn part(
        _alloc: Global,
        _number: usize,
        reader: &mut Reader<'_>,
        depth: usize,
    ) -> Result<Option<Place>, Unread> {
        let found = integer(reader, depth)?;
        Ok(place_in(found))
    }
}

/// The lists of places that are what is left of a list.
fn paths_left(
    alloc: Global,
    reader: &mut Reader<'_>,
    depth: usize,
) -> Result<Option<Packed<Place>>, Unread>
    ensures { Took (IsListAnswer (list path_data) ArePaths) (rests depth reader.old) result
        reader.new }
{
    let mut paths = Packed::new(alloc);
    'paths: while !reader.take_end_array() {
        let Some(path) = list(alloc, reader, depth, None)? else {
            pass_items(reader, depth)?;
            return Ok(None);
        };
        paths.push(path.as_slice())?;
    }
    Ok(Some(paths))
}

impl Part for Packed<Place> {
    ghost use Rattle.cert_form.specs.Form.{path_data, list};
    ghost use Rattle.cert_form.specs.Found.{ArePaths};

    ghost form = { list path_data };

    ghost fits = { λ n ps. ArePaths ps };

    fn part(
        alloc: Global,
        _number: usize,
        reader: &mut Reader<'_>,
        depth: usize,
    ) -> Result<Option<Packed<Place>>, Unread> {
        if !begins_list(reader, depth)? {
            return Ok(None);
        }
        paths_left(alloc, reader, depth - 1)
    }
}

fn cap(marks: &[Mark]) -> Option<CapAt>
    ensures { result ≡ cap_in marks.now }
{
    if marks.len() != 2 {
        return None;
    }
    let at = natural_mark(marks, 0)?;
    let price = long_natural_mark(marks, 1)?;
    Some(CapAt { at, price })
}

impl Part for CapAt {
    ghost use Rattle.cert_form.specs.Form.{cap_data};
    ghost use Rattle.cert_form.specs.Whole.{CapFits};

    ghost form = { cap_data };

    ghost fits = { λ n c. CapFits c };

    fn part(
        alloc: Global,
        _number: usize,
        reader: &mut Reader<'_>,
        depth: usize,
    ) -> Result<Option<CapAt>, Unread> {
        match list(alloc, reader, depth, Some(2))? {
            Some(marks) => Ok(cap(marks.as_slice())),
            None => Ok(None),
        }
    }
}

fn tie(marks: &[Mark]) -> Option<TieAt>
    ensures { result ≡ tie_in marks.now }
{
    if marks.len() != 2 {
        return None;
    }
    let at = natural_mark(marks, 0)?;
    let number = long_integer_mark(marks, 1)?;
    Some(TieAt { at, number })
}

impl Part for TieAt {
    ghost use Rattle.cert_form.specs.Form.{tie_data};
    ghost use Rattle.cert_form.specs.Whole.{TieFits};

    ghost form = { tie_data };

    ghost fits = { λ n t. TieFits t };

    fn part(
        alloc: Global,
        _number: usize,
        reader: &mut Reader<'_>,
        depth: usize,
    ) -> Result<Option<TieAt>, Unread> {
        match list(alloc, reader, depth, Some(2))? {
            Some(marks) => Ok(tie(marks.as_slice())),
            None => Ok(None),
        }
    }
}

fn cost(word: &str) -> Option<CostWord>
    ensures { result ≡ cost_word_of word.now }
{
    if word == "size" {
        Some(CostWord::Size)
    } else if word == "speed" {
        Some(CostWord::Speed)
    } else {
        None
    }
}

fn cost_in(found: Option<&str>) -> Option<CostWord>
    ensures { (d : Data) → IsText found.entry d →
        IsAnswer (λ c. string (cost_name c)) (λ c. ⊤) result d }
{
    match found {
        Some(word) => cost(word),
        None => None,
    }
}

impl Part for CostWord {
    ghost use Rattle.std.specs.Prelude.{⊤};
    ghost use Rattle.cert_form.specs.Form.{cost_name};
    ghost use Rattle.serde_json.specs.Data.{string};

    ghost form = { λ c. string (cost_name c) };

    ghost fits = { λ n c. ⊤ };

    fn part(
        _alloc: Global,
        _number: usize,
        reader: &mut Reader<'_>,
        depth: usize,
    ) -> Result<Option<CostWord>, Unread> {
        let found = word(reader, depth)?;
        Ok(cost_in(found))
    }
}

/// The version of these forms.
#[derive(Clone, Copy, Drop)]
pub(crate) struct Version;

fn version_in(found: Option<i128>) -> Option<Version>
    ensures { (d : Data) → IsAnswer integer (λ z. ⊤) found d →
        IsAnswer (λ v. natural 1) (λ v. ⊤) result d }
{
    match found {
        Some(z) => if z == 1 { Some(Version) } else { None },
        None => None,
    }
}

impl Part for Version {
    ghost use Rattle.std.specs.Prelude.{⊤};
    ghost use Rattle.cert_form.specs.Form.{natural};

    ghost form = { λ v. natural 1 };

    ghost fits = { λ n v. ⊤ };

    fn part(
        _alloc: Global,
        _number: usize,
        reader: &mut Reader<'_>,
        depth: usize,
    ) -> Result<Option<Version>, Unread> {
        let found = integer(reader, depth)?;
        Ok(version_in(found))
    }
}
