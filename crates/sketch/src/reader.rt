// Selected code from text, an instruction a line: a name, its variables and numbers, and for an
// address its base, an offset in bytes and a variable that counts words, as
// `load v1 frame 2 8 v3`.

use crate::selected::{block, by, cell, frame, global, module, plus, procedure, via};
use pra_base::{
    Addr, Block, BlockId, Cond, End, OutOfMemory, ProcId, ShiftOp, VInstr, VModule, VProc, VarId,
    VarKind,
};
use std::alloc::Global;
use std::mem;
use std::str::Split;

fn number(word: Option<&str>) -> Option<u32> {
    word?.parse::<u32>().ok()
}

fn variable(word: &str) -> Option<VarId> {
    let number = word.strip_prefix("v")?.parse::<u32>().ok()?;
    Some(VarId(number))
}

const CONDITIONS: &[(&str, Cond)] = &[
    ("b", Cond::B),
    ("ae", Cond::Ae),
    ("e", Cond::E),
    ("ne", Cond::Ne),
    ("be", Cond::Be),
    ("a", Cond::A),
    ("s", Cond::S),
    ("ns", Cond::Ns),
    ("l", Cond::L),
    ("ge", Cond::Ge),
    ("le", Cond::Le),
    ("g", Cond::G),
];

fn condition(word: &str) -> Option<Cond> {
    for (name, cond) in CONDITIONS {
        if *name == word {
            return Some(*cond);
        }
    }
    None
}

fn alone(name: &str) -> Option<VInstr> {
    if name == "line" {
        return Some(VInstr::Line);
    }
    if name == "clear" {
        return Some(VInstr::Clear);
    }
    None
}

fn one(name: &str, v: VarId) -> Option<VInstr> {
    if name == "neg" {
        return Some(VInstr::Neg(v));
    }
    if name == "checkpos" {
        return Some(VInstr::CheckPos(v));
    }
    if name == "push" {
        return Some(VInstr::Push(v));
    }
    if name == "read" {
        return Some(VInstr::Read(v));
    }
    if name == "write" {
        return Some(VInstr::Write(v));
    }
    None
}

fn shift(name: &str) -> Option<ShiftOp> {
    if name == "shl" {
        return Some(ShiftOp::Shl);
    }
    if name == "shr" {
        return Some(ShiftOp::Shr);
    }
    if name == "sar" {
        return Some(ShiftOp::Sar);
    }
    None
}

fn with_number(name: &str, v: VarId, n: i32) -> Option<VInstr> {
    if name == "set" {
        return Some(VInstr::Set(v, n));
    }
    if name == "check" {
        return Some(VInstr::Check(v, n));
    }
    let op = shift(name)?;
    Some(VInstr::Shift(op, v, n.cast_unsigned()))
}

fn two(name: &str, v: VarId, s: VarId) -> Option<VInstr> {
    if name == "copy" {
        return Some(VInstr::Copy(v, s));
    }
    if name == "add" {
        return Some(VInstr::Add(v, s));
    }
    if name == "sub" {
        return Some(VInstr::Sub(v, s));
    }
    if name == "and" {
        return Some(VInstr::And(v, s));
    }
    if name == "or" {
        return Some(VInstr::Or(v, s));
    }
    if name == "xor" {
        return Some(VInstr::Xor(v, s));
    }
    if name == "mul" {
        return Some(VInstr::Mul(v, s));
    }
    if name == "cmp" {
        return Some(VInstr::Cmp(v, s));
    }
    None
}

fn base(name: &str, word: &str) -> Option<Addr> {
    if name == "via" {
        return Some(via(variable(word)?));
    }
    let n = word.parse::<u32>().ok()?;
    if name == "global" {
        return Some(global(n));
    }
    if name == "frame" {
        return Some(frame(n));
    }
    if name == "cell" {
        return Some(cell(n));
    }
    None
}

fn address<'a>(name: &str, words: &mut Split<'a, char>) -> Option<Addr> {
    let mut addr = base(name, words.next()?)?;
    while let Some(word) = words.next() {
        addr = match variable(word) {
            Some(v) => by(addr, v),
            None => plus(addr, word.parse::<i32>().ok()?),
        };
    }
    Some(addr)
}

fn at_address(name: &str, v: VarId, addr: Addr) -> Option<VInstr> {
    if name == "load" {
        return Some(VInstr::Load(v, addr));
    }
    if name == "store" {
        return Some(VInstr::Store(addr, v));
    }
    if name == "addr" {
        return Some(VInstr::Addr(v, addr));
    }
    None
}

fn compared<'a>(words: &mut Split<'a, char>) -> Option<VInstr> {
    let cond = condition(words.next()?)?;
    let v = variable(words.next()?)?;
    let a = variable(words.next()?)?;
    let b = variable(words.next()?)?;
    Some(VInstr::CmpSet(cond, v, a, b))
}

fn divided<'a>(words: &mut Split<'a, char>) -> Option<VInstr> {
    let q = variable(words.next()?)?;
    let r = variable(words.next()?)?;
    let a = variable(words.next()?)?;
    let d = variable(words.next()?)?;
    Some(VInstr::DivMod(q, r, a, d))
}

/// The instruction of a line, or None where it is none.
pub fn instruction(line: &str) -> Option<VInstr> {
    let mut words = line.split(' ');
    let name = words.next()?;
    if let Some(i) = alone(name) {
        return Some(i);
    }
    if name == "cmpset" {
        return compared(&mut words);
    }
    if name == "divmod" {
        return divided(&mut words);
    }
    if name == "call" {
        return Some(VInstr::Call(ProcId(number(words.next())?)));
    }
    let v = variable(words.next()?)?;
    let Some(word) = words.next() else {
        return one(name, v);
    };
    if let Ok(n) = word.parse::<i32>() {
        return with_number(name, v, n);
    }
    match variable(word) {
        Some(s) => two(name, v, s),
        None => at_address(name, v, address(word, &mut words)?),
    }
}

/// The end of a block that a line is, or None where it is none.
pub fn end(line: &str) -> Option<End> {
    let mut words = line.split(' ');
    let name = words.next()?;
    if name == "return" {
        return Some(End::Return);
    }
    if name == "jump" {
        return Some(End::Jump(BlockId(number(words.next())?)));
    }
    if name == "branch" {
        let cond = condition(words.next()?)?;
        let yes = BlockId(number(words.next())?);
        let no = BlockId(number(words.next())?);
        return Some(End::Branch(cond, yes, no));
    }
    None
}

/// A module that is read line by line: the procedures so far, and the one that is being read. A
/// procedure begins with a line `proc`, how many arguments and aggregate words it has, and its
/// variables, each `plain`, `param` with a number, or the number of a constant. A line `loops` with
/// a number says in how many loops the block stands whose instructions follow.
#[derive(Drop)]
pub struct Sketch {
    alloc: Global,
    procs: Vec<VProc>,
    args: u32,
    aggregates: u32,
    vars: Vec<VarKind>,
    blocks: Vec<Block>,
    depth: u32,
    code: Vec<VInstr>,
}

impl Sketch {
    /// No procedure yet.
    pub fn new(alloc: Global) -> Sketch {
        Sketch {
            alloc,
            procs: Vec::new(alloc),
            args: 0,
            aggregates: 0,
            vars: Vec::new(alloc),
            blocks: Vec::new(alloc),
            depth: 0,
            code: Vec::new(alloc),
        }
    }

    // The procedure is whole.
    fn finish(&mut self) -> Result<(), OutOfMemory> {
        if self.blocks.is_empty() {
            return Ok(());
        }
        let id = u32::try_from(self.procs.len()).unwrap_or(0);
        let blocks = mem::replace(&mut self.blocks, Vec::new(self.alloc));
        let proc = procedure(
            self.alloc,
            id,
            self.args,
            self.aggregates,
            &self.vars,
            blocks,
        )?;
        self.procs.push(proc)?;
        Ok(())
    }

    // `proc`, how many arguments and aggregate words, and the kinds of the variables.
    fn begin<'a>(&mut self, words: &mut Split<'a, char>) -> Result<bool, OutOfMemory> {
        self.finish()?;
        self.args = number(words.next()).unwrap_or(0);
        self.aggregates = number(words.next()).unwrap_or(0);
        self.vars = Vec::new(self.alloc);
        while let Some(word) = words.next() {
            let kind = if word == "plain" {
                VarKind::Plain
            } else if word == "param" {
                VarKind::Param(number(words.next()).unwrap_or(0))
            } else {
                VarKind::Constant(word.parse::<i32>().unwrap_or(0))
            };
            self.vars.push(kind)?;
        }
        Ok(true)
    }

    // The block is whole.
    fn end_block(&mut self, end: End) -> Result<bool, OutOfMemory> {
        let mut whole = block(self.alloc, &self.code, end)?;
        whole.depth = self.depth;
        self.code = Vec::new(self.alloc);
        self.depth = 0;
        self.blocks.push(whole)?;
        Ok(true)
    }

    /// Takes a line, unless it says nothing of code. Answers whether it does.
    ///
    /// # Errors
    ///
    /// Where there is no memory for it.
    pub fn line(&mut self, line: &str) -> Result<bool, OutOfMemory> {
        let mut words = line.split(' ');
        let name = words.next();
        if name == Some("proc") {
            return self.begin(&mut words);
        }
        if name == Some("loops") {
            self.depth = number(words.next()).unwrap_or(0);
            return Ok(true);
        }
        if let Some(end) = end(line) {
            return self.end_block(end);
        }
        match instruction(line) {
            Some(i) => {
                self.code.push(i)?;
                Ok(true)
            }
            None => Ok(false),
        }
    }

    /// The module of what was read, with so many words of data.
    ///
    /// # Errors
    ///
    /// Where there is no memory for it.
    pub fn module(mut self, data_words: u32) -> Result<VModule, OutOfMemory> {
        self.finish()?;
        Ok(module(self.procs, data_words))
    }
}
