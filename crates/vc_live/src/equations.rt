// The equations over blocks: what is live at a block's entry, from what is live at the entries of
// its targets.

ghost use Rattle.std.specs.Prelude.{◌≡◌, ℕ, ◌+◌, ◌/◌, ◌<◌, ◌≤◌, ◌||◌, ◌&&◌, not, length, true};
ghost use Rattle.std.specs.Prelude.{false, if◌then◌else◌, slice_get, Some};
ghost use Rattle.pra_base.specs.Code.{block_in};
ghost use Rattle.pra_base.specs.Operands.{reads, writes};
ghost use Rattle.vc_live.specs.Sets.{contains};
ghost use Rattle.vc_live.specs.Equations.{named_in, before, through, at_exit, HasRoom, Fits};
ghost use Rattle.vc_live.specs.Equations.{FitsEnd, HaveWords, entry, at_targets};

use crate::sets::BitSet;
use pra_base::{BlockId, End, VInstr, VProc};
use vc_code::{Role, operands};

fn insert_all(set: &mut BitSet, roles: &[Role])
    requires { (v : ℕ) → named_in roles.now v ≡ true → v / 64 < length set.old }
    ensures words { length set.new ≡ length set.old }
    ensures members { (v : ℕ) → contains set.new v ≡ (named_in roles.now v || contains set.old v) }
{
    for role in roles {
        set.insert(role.var.0 as usize);
    }
}

fn remove_all(set: &mut BitSet, roles: &[Role], constants: &BitSet)
    requires { (v : ℕ) → named_in roles.now v ≡ true → v / 64 < length set.old }
    ensures words { length set.new ≡ length set.old }
    ensures members { (v : ℕ) → contains set.new v ≡ (contains set.old v
        && (contains constants.now v || not (named_in roles.now v))) }
{
    for role in roles {
        let v = role.var.0 as usize;
        if !constants.contains(v) {
            set.remove(v);
        }
    }
}

/// Marks what the instruction reads.
pub fn mark_reads(set: &mut BitSet, instr: &VInstr)
    requires { HasRoom set.old instr.now }
    ensures words { length set.new ≡ length set.old }
    ensures members { (v : ℕ) → contains set.new v ≡ (reads instr.now v || contains set.old v) }
{
    let marked = operands(instr);
    insert_all(set, marked.reads.as_slice());
}

/// Marks what the instruction writes.
pub fn mark_writes(set: &mut BitSet, instr: &VInstr)
    requires { HasRoom set.old instr.now }
    ensures words { length set.new ≡ length set.old }
    ensures members { (v : ℕ) → contains set.new v ≡ (writes instr.now v || contains set.old v) }
{
    let marked = operands(instr);
    insert_all(set, marked.writes.as_slice());
}

/// From what is live after the instruction to what is live before it.
pub fn step_back(set: &mut BitSet, instr: &VInstr, constants: &BitSet)
    requires { HasRoom set.old instr.now }
    ensures words { length set.new ≡ length set.old }
    ensures members { (v : ℕ) →
        contains set.new v ≡ before (contains constants.now) instr.now (contains set.old) v }
{
    let row = operands(instr);
    remove_all(set, row.writes.as_slice(), constants);
    insert_all(set, row.reads.as_slice());
}

/// From what is live at the end of the code to what is live before it.
pub fn go_back(set: &mut BitSet, code: &[VInstr], constants: &BitSet)
    requires { Fits (length set.old) code.now }
    ensures words { length set.new ≡ length set.old }
    ensures members { (v : ℕ) →
        contains set.new v ≡ through (contains constants.now) code.now (contains set.old) v }
{
    let mut left = code.len();
    while left > 0 {
        left -= 1;
        step_back(set, &code[left], constants);
    }
}

fn take_entry(set: &mut BitSet, entries: &[BitSet], target: BlockId)
    requires target { target.0 < length entries.now }
    requires words { HaveWords (length set.old) entries.now }
    ensures words { length set.new ≡ length set.old }
    ensures members { set.new ≡ entry entries.now target.0 }
{
    set.copy_from(&entries[target.0 as usize]);
}

fn add_entry(set: &mut BitSet, entries: &[BitSet], target: BlockId)
    requires target { target.0 < length entries.now }
    requires words { HaveWords (length set.old) entries.now }
    ensures words { length set.new ≡ length set.old }
    ensures members { (v : ℕ) →
        contains set.new v ≡ (contains set.old v || contains (entry entries.now target.0) v) }
{
    set.unite(&entries[target.0 as usize]);
}

// Makes the set what is live at the entry of one of the targets of an end.
fn take_targets(set: &mut BitSet, end: &End, entries: &[BitSet])
    requires targets { FitsEnd (length entries.now) end.now }
    requires words { HaveWords (length set.old) entries.now }
    ensures words { length set.new ≡ length set.old }
    ensures members { (v : ℕ) → contains set.new v ≡ at_targets entries.now end.now v }
{
    match end {
        End::Jump(target) => take_entry(set, entries, *target),
        End::Branch(_, one, other) => {
            take_entry(set, entries, *one);
            add_entry(set, entries, *other);
        }
        End::Return => set.clear(),
    }
}

/// Makes the set what is live at an end: what is live at the entry of one of its targets, but no
/// constant.
pub fn start_at_exit(set: &mut BitSet, end: &End, entries: &[BitSet], constants: &BitSet)
    requires targets { FitsEnd (length entries.now) end.now }
    requires words { HaveWords (length set.old) entries.now }
    requires constants { length constants.now ≡ length set.old }
    ensures words { length set.new ≡ length set.old }
    ensures members { (v : ℕ) →
        contains set.new v ≡ at_exit (contains constants.now) entries.now end.now v }
{
    take_targets(set, end, entries);
    set.subtract(constants);
}
