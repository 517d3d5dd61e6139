// Marks of variables, while a block is read backwards.

ghost use Rattle.std.specs.Prelude.{◌≡◌, ℕ, ◌<◌, ◌≤◌, ◌||◌, ◌&&◌, not, length, true, false};
ghost use Rattle.std.specs.Prelude.{if◌then◌else◌};
ghost use Rattle.std.specs.List.{list_any};
ghost use Rattle.pra_base.specs.Operands.{reads, writes};
ghost use Rattle.pra_base.specs.Valid.{Names, most_instructions};
ghost use Rattle.vc_live.specs.Equations.{named_in};
ghost use Rattle.vc_live.specs.Rows.{live_at};
ghost use Rattle.vc_same.specs.Pure.{is_pure};
ghost use Rattle.vc_tidy.specs.Thinned.{is_marked, exit_of, HasMarks, AreMarked, Unneeded};

use pra_base::{BlockId, VInstr};
use vc_code::{Role, operands};
use vc_live::Liveness;

/// Whether one of the roles has a marked variable.
fn any_marked(marks: &[bool], roles: &[Role]) -> bool
    requires { (v : ℕ) → named_in roles.now v ≡ true → v < length marks.now }
    ensures { result ≡ list_any (λ role. is_marked marks.now role.var.0) roles.now }
{
    for role in roles {
        if marks[role.var.0 as usize] {
            return true;
        }
    }
    false
}

/// Whether the instruction does nothing but give its results.
fn is_pure(instr: &VInstr) -> bool
    ensures { result ≡ is_pure instr.now }
{
    match instr {
        VInstr::Set(..)
        | VInstr::Copy(..)
        | VInstr::Add(..)
        | VInstr::Sub(..)
        | VInstr::And(..)
        | VInstr::Or(..)
        | VInstr::Xor(..)
        | VInstr::Mul(..)
        | VInstr::Neg(..)
        | VInstr::Shift(..)
        | VInstr::CmpSet(..)
        | VInstr::DivMod(..)
        | VInstr::Load(..)
        | VInstr::Addr(..) => true,
        _ => false,
    }
}

/// Whether the instruction does more than give results that are not marked.
pub fn is_needed(marks: &[bool], instr: &VInstr) -> bool
    requires { (v : ℕ) → Names instr.now v → v < length marks.now }
    ensures needed { result ≡ true → is_pure instr.now ≡ true →
        Unneeded instr.now (is_marked marks.now) → ⊥ }
    ensures dead { result ≡ false → (is_pure instr.now ≡ true)
        × Unneeded instr.now (is_marked marks.now) }
{
    if !is_pure(instr) {
        return true;
    }
    let row = operands(instr);
    any_marked(marks, row.writes.as_slice())
}

/// Marks the variables of the roles, or takes their marks away.
pub fn mark_all(marks: &mut Vec<bool>, roles: &[Role], mark: bool)
    requires { (v : ℕ) → named_in roles.now v ≡ true → v < length marks.old.items }
    ensures count { length marks.new.items ≡ length marks.old.items }
    ensures marks { (v : ℕ) → is_marked marks.new.items v
        ≡ (if named_in roles.now v then mark else is_marked marks.old.items v) }
{
    for role in roles {
        marks[role.var.0 as usize] = mark;
    }
}

/// From what is live behind the instruction to what is live before it.
pub fn step_back(marks: &mut Vec<bool>, instr: &VInstr)
    requires { (v : ℕ) → Names instr.now v → v < length marks.old.items }
    ensures count { length marks.new.items ≡ length marks.old.items }
    ensures marks { (v : ℕ) → is_marked marks.new.items v
        ≡ (reads instr.now v || (is_marked marks.old.items v && not (writes instr.now v))) }
{
    let row = operands(instr);
    mark_all(marks, row.writes.as_slice(), false);
    mark_all(marks, row.reads.as_slice(), true);
}

// Marks those of the roles' variables that are live at a layer.
fn mark_live(marks: &mut Vec<bool>, roles: &[Role], liveness: &Liveness, block: BlockId, layer: u32)
    requires { (v : ℕ) → named_in roles.now v ≡ true → v < length marks.old.items }
    ensures count { length marks.new.items ≡ length marks.old.items }
    ensures marks { (v : ℕ) → is_marked marks.new.items v ≡ (if named_in roles.now v
        then live_at liveness.now v block.0 layer else is_marked marks.old.items v) }
{
    for role in roles {
        marks[role.var.0 as usize] = liveness.at(role.var, block, layer);
    }
}

/// Marks those of the variables of a block's code that are live at its exit.
pub fn mark_exit(marks: &mut Vec<bool>, code: &[VInstr], liveness: &Liveness, block: BlockId)
    requires names { HasMarks marks.old.items code.now }
    requires short { length code.now ≤ most_instructions }
    ensures count { length marks.new.items ≡ length marks.old.items }
    ensures marks { AreMarked marks.new.items code.now (exit_of liveness.now block.0 code.now) }
{
    let exit = 2 * code.len() as u32 + 1;
    for instr in code {
        let row = operands(instr);
        mark_live(marks, row.reads.as_slice(), liveness, block, exit);
        mark_live(marks, row.writes.as_slice(), liveness, block, exit);
    }
}
