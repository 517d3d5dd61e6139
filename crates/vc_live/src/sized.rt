// Whether the numbers in selected code are in range, and whether there is not too much of it.

ghost use Rattle.std.specs.Prelude.{◌≡◌, ℕ, ◌<◌, ◌≤◌, ◌↔◌, IsTrue, true, length, Some, slice_get};
ghost use Rattle.std.specs.List.{list_all};
ghost use Rattle.pra_base.specs.Code.{IsTarget, block_in, EachInstr};
ghost use Rattle.pra_base.specs.Valid.{IsSized, instruction_count, most_loops, most_instructions};
ghost use Rattle.vc_live.specs.Equations.{named_in};
ghost use Rattle.vc_live.specs.Sized.{Each, named_cell, NamesBelow, CellsBelow, TargetsBelow};

use pra_base::code::{
    MAX_AGGREGATES, MAX_ARGUMENTS, MAX_BLOCKS, MAX_INSTRUCTIONS, MAX_LOOP_DEPTH, MAX_VARIABLES,
};
use pra_base::{Base, Block, End, VInstr, VProc, VarKind};
use vc_code::{Role, operands};

// Whether the roles name variables below the count alone.
fn roles_below(roles: &[Role], count: usize) -> bool
    ensures { IsTrue result ↔ ((v : ℕ) → named_in roles.now v ≡ true → v < count) }
{
    for role in roles {
        if role.var.0 as usize >= count {
            return false;
        }
    }
    true
}

// Whether the instruction names variables below the count alone.
fn names_below(instr: &VInstr, count: usize) -> bool
    ensures { IsTrue result ↔ NamesBelow count instr.now }
{
    let row = operands(instr);
    roles_below(row.reads.as_slice(), count) && roles_below(row.writes.as_slice(), count)
}

fn all_names_below(instrs: &[VInstr], count: usize) -> bool
    ensures { IsTrue result ↔ Each instrs.now (NamesBelow count) }
{
    for instr in instrs {
        if !names_below(instr, count) {
            return false;
        }
    }
    true
}

// Whether every variable that an instruction names is there, of so many.
fn are_variables_in_range(blocks: &[Block], count: usize) -> bool
    ensures { IsTrue result ↔ EachInstr blocks.now (NamesBelow count) }
{
    for block in blocks {
        if !all_names_below(block.code.as_slice(), count) {
            return false;
        }
    }
    true
}

fn is_target_below(end: &End, count: usize) -> bool
    ensures { IsTrue result ↔ TargetsBelow count end.now }
{
    match end {
        End::Jump(target) => (target.0 as usize) < count,
        End::Branch(_, one, other) => (one.0 as usize) < count && (other.0 as usize) < count,
        End::Return => true,
    }
}

// Whether every block that an end names is there.
fn are_targets_in_range(blocks: &[Block]) -> bool
    ensures { IsTrue result ↔ ((b t : ℕ) → b < length blocks.now →
        IsTarget (block_in blocks.now b).end t → t < length blocks.now) }
{
    for block in blocks {
        if !is_target_below(&block.end, blocks.len()) {
            return false;
        }
    }
    true
}

// The argument in whose cell the instruction's address begins.
fn named_cell(instr: &VInstr) -> Option<u32>
    ensures { result ≡ named_cell instr.now }
{
    let addr = match *instr {
        VInstr::Load(_, addr) => addr,
        VInstr::Store(addr, _) => addr,
        VInstr::Addr(_, addr) => addr,
        _ => return None,
    };
    match addr.base {
        Base::Cell(cell) => Some(cell),
        _ => None,
    }
}

fn all_cells_below(instrs: &[VInstr], count: u32) -> bool
    ensures { IsTrue result ↔ Each instrs.now (CellsBelow count) }
{
    for instr in instrs {
        if let Some(cell) = named_cell(instr) {
            if cell >= count {
                return false;
            }
        }
    }
    true
}

// Whether every argument whose cell an address names is there, of so many.
fn are_cells_in_range(blocks: &[Block], args: u32) -> bool
    ensures { IsTrue result ↔ EachInstr blocks.now (CellsBelow args) }
{
    for block in blocks {
        if !all_cells_below(block.code.as_slice(), args) {
            return false;
        }
    }
    true
}

// Whether every argument that a parameter variable stands for is there, of so many.
fn are_params_in_range(vars: &[VarKind], args: u32) -> bool
    ensures { IsTrue result ↔ ((v i : ℕ) → slice_get vars.now v ≡ Some (VarKind.Param i) →
        i < args) }
{
    for kind in vars {
        if let VarKind::Param(argument) = *kind {
            if argument >= args {
                return false;
            }
        }
    }
    true
}

fn are_depths_in_range(blocks: &[Block]) -> bool
    ensures { IsTrue result ↔ ((b : ℕ) → (block_in blocks.now b).depth ≤ most_loops) }
{
    for block in blocks {
        if block.depth > MAX_LOOP_DEPTH {
            return false;
        }
    }
    true
}

// Whether the blocks together have at most `MAX_INSTRUCTIONS` instructions.
fn are_instructions_few(blocks: &[Block]) -> bool
    ensures { IsTrue result ↔ (instruction_count blocks.now ≤ most_instructions) }
{
    let mut room = MAX_INSTRUCTIONS;
    for block in blocks {
        if block.code.len() > room {
            return false;
        }
        room -= block.code.len();
    }
    true
}

fn all_hold(tests: &[bool]) -> bool
    ensures { result ≡ list_all (λ test. test) tests.now }
{
    tests.iter().all(|test| *test)
}

/// Whether code is sized: it names variables, blocks and arguments that it has, and has no more of
/// anything than a procedure may.
pub fn is_sized(code: &VProc) -> bool
    ensures { IsTrue result ↔ IsSized code.now }
{
    let blocks = code.blocks.as_slice();
    let vars = code.vars.as_slice();
    all_hold(&[
        are_variables_in_range(blocks, vars.len()),
        are_targets_in_range(blocks),
        are_cells_in_range(blocks, code.args),
        are_params_in_range(vars, code.args),
        are_depths_in_range(blocks),
        are_instructions_few(blocks),
        blocks.len() <= MAX_BLOCKS,
        vars.len() <= MAX_VARIABLES,
        code.args <= MAX_ARGUMENTS,
        code.aggregates <= MAX_AGGREGATES,
    ])
}
