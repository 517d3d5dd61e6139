// The table of instructions: for each its name and its operands, as they stand in a certificate.

ghost use Rattle.std.specs.Prelude.{◌≡◌, ◌≤◌, length, OnSome};
ghost use Rattle.std.specs.Str.{bytes_eq};
ghost use Rattle.cert_form.specs.Table.{name, all_forms, first_named, form_named, form_of};
ghost use Rattle.cert_form.specs.Table.{operands_of, shift_form};

use arrayvec::ArrayVec;
use pra_base::{Addr, Cond, ProcId, ShiftOp, VInstr, VarId};

/// An instruction without its operands.
#[derive(Clone, Copy, Drop)]
pub enum Form {
    Set,
    Copy,
    Add,
    Sub,
    And,
    Or,
    Xor,
    Mul,
    Neg,
    Shl,
    Shr,
    Sar,
    Cmp,
    CmpSet,
    DivMod,
    Check,
    CheckPos,
    Load,
    Store,
    Addr,
    Push,
    Call,
    Read,
    Write,
    Line,
    Clear,
}

/// What stands behind an instruction's name.
#[derive(Clone, Copy, Drop)]
pub enum Operand {
    Variable(VarId),
    Number(i32),
    Address(Addr),
    Condition(Cond),
    Procedure(ProcId),
}

impl Default for Operand {
    fn default() -> Operand {
        Operand::Number(0)
    }
}

/// An instruction in two parts.
#[derive(Drop)]
pub(crate) struct Spelled {
    pub form: Form,
    pub operands: ArrayVec<Operand, 4>,
}

/// A word and operands.
#[derive(Drop)]
pub(crate) struct Spelling {
    pub word: &'static str,
    pub operands: ArrayVec<Operand, 4>,
}

/// All forms.
fn all_forms() -> &'static [Form]
    ensures { result.now ≡ all_forms }
{
    &[
        Form::Set,
        Form::Copy,
        Form::Add,
        Form::Sub,
        Form::And,
        Form::Or,
        Form::Xor,
        Form::Mul,
        Form::Neg,
        Form::Shl,
        Form::Shr,
        Form::Sar,
        Form::Cmp,
        Form::CmpSet,
        Form::DivMod,
        Form::Check,
        Form::CheckPos,
        Form::Load,
        Form::Store,
        Form::Addr,
        Form::Push,
        Form::Call,
        Form::Read,
        Form::Write,
        Form::Line,
        Form::Clear,
    ]
}

/// What a form is called.
pub(crate) fn name(form: Form) -> &'static str
    ensures { result.now ≡ name form }
{
    match form {
        Form::Set => "set",
        Form::Copy => "copy",
        Form::Add => "add",
        Form::Sub => "sub",
        Form::And => "and",
        Form::Or => "or",
        Form::Xor => "xor",
        Form::Mul => "mul",
        Form::Neg => "neg",
        Form::Shl => "shl",
        Form::Shr => "shr",
        Form::Sar => "sar",
        Form::Cmp => "cmp",
        Form::CmpSet => "cmpset",
        Form::DivMod => "divmod",
        Form::Check => "check",
        Form::CheckPos => "checkpos",
        Form::Load => "load",
        Form::Store => "store",
        Form::Addr => "addr",
        Form::Push => "push",
        Form::Call => "call",
        Form::Read => "read",
        Form::Write => "write",
        Form::Line => "line",
        Form::Clear => "clear",
    }
}

/// The form of a name.
pub(crate) fn form_named(word: &str) -> Option<Form>
    ensures { result ≡ form_named word.now }
{
    for form in all_forms() {
        if word.as_bytes() == name(*form).as_bytes() {
            return Some(*form);
        }
    }
    None
}

fn parts(form: Form, operands: &[Operand]) -> Spelled
    requires { length operands.now ≤ 4 }
    ensures form { result.form ≡ form }
    ensures operands { result.operands.items ≡ operands.now }
{
    let mut listed = ArrayVec::new();
    for operand in operands {
        listed.push(*operand);
    }
    Spelled {
        form,
        operands: listed,
    }
}

pub(crate) fn spelling_of(word: &'static str, operands: &[Operand]) -> Spelling
    requires { length operands.now ≤ 4 }
    ensures word { result.word.now ≡ word.now }
    ensures operands { result.operands.items ≡ operands.now }
{
    let mut listed = ArrayVec::new();
    for operand in operands {
        listed.push(*operand);
    }
    Spelling {
        word,
        operands: listed,
    }
}

/// The form of a shift.
fn shift_form(op: ShiftOp) -> Form
    ensures { result ≡ shift_form op }
{
    match op {
        ShiftOp::Shl => Form::Shl,
        ShiftOp::Shr => Form::Shr,
        ShiftOp::Sar => Form::Sar,
    }
}

/// An instruction's form and operands.
pub(crate) fn row(i: VInstr) -> Spelled
    ensures form { result.form ≡ form_of i }
    ensures operands { result.operands.items ≡ operands_of i }
{
    use Operand::{Address, Condition, Number, Procedure, Variable};
    match i {
        VInstr::Set(v, c) => parts(Form::Set, &[Variable(v), Number(c)]),
        VInstr::Copy(v, s) => parts(Form::Copy, &[Variable(v), Variable(s)]),
        VInstr::Add(v, s) => parts(Form::Add, &[Variable(v), Variable(s)]),
        VInstr::Sub(v, s) => parts(Form::Sub, &[Variable(v), Variable(s)]),
        VInstr::And(v, s) => parts(Form::And, &[Variable(v), Variable(s)]),
        VInstr::Or(v, s) => parts(Form::Or, &[Variable(v), Variable(s)]),
        VInstr::Xor(v, s) => parts(Form::Xor, &[Variable(v), Variable(s)]),
        VInstr::Mul(v, s) => parts(Form::Mul, &[Variable(v), Variable(s)]),
        VInstr::Neg(v) => parts(Form::Neg, &[Variable(v)]),
        VInstr::Shift(op, v, n) => parts(shift_form(op), &[Variable(v), Variable(VarId(n))]),
        VInstr::Cmp(a, b) => parts(Form::Cmp, &[Variable(a), Variable(b)]),
        VInstr::CmpSet(k, v, a, b) => parts(
            Form::CmpSet,
            &[Condition(k), Variable(v), Variable(a), Variable(b)],
        ),
        VInstr::DivMod(q, r, a, d) => parts(
            Form::DivMod,
            &[Variable(q), Variable(r), Variable(a), Variable(d)],
        ),
        VInstr::Check(i, n) => parts(Form::Check, &[Variable(i), Number(n)]),
        VInstr::CheckPos(d) => parts(Form::CheckPos, &[Variable(d)]),
        VInstr::Load(v, m) => parts(Form::Load, &[Variable(v), Address(m)]),
        VInstr::Store(m, s) => parts(Form::Store, &[Address(m), Variable(s)]),
        VInstr::Addr(v, m) => parts(Form::Addr, &[Variable(v), Address(m)]),
        VInstr::Push(s) => parts(Form::Push, &[Variable(s)]),
        VInstr::Call(p) => parts(Form::Call, &[Procedure(p)]),
        VInstr::Read(v) => parts(Form::Read, &[Variable(v)]),
        VInstr::Write(s) => parts(Form::Write, &[Variable(s)]),
        VInstr::Line => parts(Form::Line, &[]),
        VInstr::Clear => parts(Form::Clear, &[]),
    }
}
