// The operand table: where each operand of an instruction may stand, and what the instruction
// destroys.

ghost use Rattle.std.specs.Prelude.{◌≡◌, ◌+◌, ◌≤◌, length, map, fold, count_by, nat_eq, ◌++◌, ◌∷◌};
ghost use Rattle.std.specs.Prelude.{[], option_to_list};
ghost use Rattle.std.specs.List.{list_any};
ghost use Rattle.pra_base.specs.Operands as base;
ghost use Rattle.pra_base.specs.Places.{◌∪◌};
ghost use Rattle.vc_code.specs.Rows.{role_of, roles_of, row_of, line_of, printed, Fits};

use arrayvec::ArrayVec;
use pra_base::places::{BYTE_REGISTERS, CONSTANT, EVERY, MEMORY, REGISTERS, with_both};
use pra_base::{Addr, Base, Mask, Place, VInstr, VarId};

/// A variable in a role of an instruction.
#[derive(Clone, Copy, Debug, PartialEq, Eq, Drop)]
pub struct Role {
    pub var: VarId,
    /// The places that may be its place here. A variable in several roles has one mask in all of
    /// them.
    pub mask: Mask,
    /// The role is in the instruction's memory pair: at most one of the two is in memory.
    pub memory: bool,
}

/// The operands of an instruction, and the registers that hold nothing afterwards: bit r of
/// `clobbers` stands for register r.
#[derive(Debug, Drop)]
pub struct OperandRow {
    pub reads: ArrayVec<Role, 3>,
    pub writes: ArrayVec<Role, 2>,
    pub clobbers: u8,
}

/// A line of the table as it is printed, with no both place in its masks: what is read, what is
/// written where it was read, what is only written, and the registers that are destroyed.
#[derive(Drop)]
struct Printed {
    reads: ArrayVec<Role, 3>,
    in_place: Option<VarId>,
    writes: ArrayVec<Role, 2>,
    clobbers: u8,
}

const EAX: Mask = 1 << (Place::Eax as u16);

const EDX: Mask = 1 << (Place::Edx as u16);

// Sets of registers that are destroyed: none; those that a callee may change; the one that Clear
// counts in.
const NOTHING: u8 = 0;

const COUNTER: u8 = 1 << (Place::Ecx as u8);

const CALLER_SAVED: u8 = 1 << (Place::Eax as u8) | COUNTER | 1 << (Place::Edx as u8);

// The masks of the table, by its letters: a register, memory, a constant; a register with a low
// byte.
const R: Mask = REGISTERS;

const B: Mask = BYTE_REGISTERS;

const RM: Mask = REGISTERS | MEMORY;

const RMK: Mask = RM | CONSTANT;

const RK: Mask = R | CONSTANT;

// A register or memory, but not EAX and EDX, which hold the dividend.
const DIVISOR: Mask = RM & !(EAX | EDX);

impl Default for Role {
    fn default() -> Role {
        Role {
            var: VarId(0),
            mask: 0,
            memory: false,
        }
    }
}

fn at(var: VarId, mask: Mask) -> Role
    ensures { role_of result ≡ base.role var mask }
{
    Role {
        var,
        mask,
        memory: false,
    }
}

fn pair(var: VarId, mask: Mask) -> Role
    ensures { role_of result ≡ base.starred var mask }
{
    Role {
        var,
        mask,
        memory: true,
    }
}

// A row of at most N roles.
fn listed<const N: usize>(roles: &[Role]) -> ArrayVec<Role, N>
    requires { length roles.now ≤ N }
    ensures { result.items ≡ roles.now }
{
    let mut row = ArrayVec::new();
    for role in roles {
        row.push(*role);
    }
    row
}

fn line(reads: &[Role], in_place: Option<VarId>, writes: &[Role], clobbers: u8) -> Printed
    requires reads { length reads.now ≤ 3 }
    requires writes { Fits in_place writes.now }
    ensures value { line_of result ≡ printed reads.now in_place writes.now clobbers }
    ensures fits { Fits result.in_place result.writes.items }
{
    Printed {
        reads: listed(reads),
        in_place,
        writes: listed(writes),
        clobbers,
    }
}

fn arithmetic(v: VarId, s: VarId) -> Printed
    ensures value { line_of result ≡ base.arithmetic v s }
    ensures fits { Fits result.in_place result.writes.items }
{
    line(&[pair(v, RM), pair(s, RMK)], Some(v), &[], NOTHING)
}

fn compares(a: VarId, b: VarId, writes: &[Role]) -> Printed
    requires { length writes.now ≤ 2 }
    ensures value { let reads = base.compared a b in
        line_of result ≡ base.line reads [] (roles_of writes.now) base.none }
    ensures fits { Fits result.in_place result.writes.items }
{
    line(&[pair(a, RM), pair(b, RMK)], None, writes, NOTHING)
}

fn addressed(addr: &Addr) -> ArrayVec<Role, 2>
    ensures { roles_of result.items ≡ base.addressed addr.now }
{
    let mut roles = ArrayVec::new();
    if let Base::Via(v) = addr.base {
        roles.push(at(v, R));
    }
    if let Some(v) = addr.index {
        roles.push(at(v, R));
    }
    roles
}

fn loads(v: VarId, addr: &Addr) -> Printed
    ensures value { let writes = base.role v base.R ∷ [] in
        line_of result ≡ base.line (base.addressed addr.now) [] writes base.none }
    ensures fits { Fits result.in_place result.writes.items }
{
    let reads = addressed(addr);
    line(reads.as_slice(), None, &[at(v, R)], NOTHING)
}

fn stores(addr: &Addr, s: VarId) -> Printed
    ensures value { let stored = base.role s (base.R ∪ base.K) in
        line_of result ≡ base.line (base.addressed addr.now ++ stored ∷ []) [] [] base.none }
    ensures fits { Fits result.in_place result.writes.items }
{
    let variables = addressed(addr);
    let mut reads = listed::<3>(variables.as_slice());
    reads.push(at(s, RK));
    line(reads.as_slice(), None, &[], NOTHING)
}

// The line of an instruction, as the table prints it.
fn table(i: &VInstr) -> Printed
    ensures value { line_of result ≡ base.table i.now }
    ensures fits { Fits result.in_place result.writes.items }
{
    match *i {
        VInstr::Set(v, _) => line(&[], None, &[at(v, RM)], NOTHING),
        VInstr::Copy(v, s) => line(&[pair(s, RM)], None, &[pair(v, RM)], NOTHING),
        VInstr::Add(v, s) => arithmetic(v, s),
        VInstr::Sub(v, s) => arithmetic(v, s),
        VInstr::And(v, s) => arithmetic(v, s),
        VInstr::Or(v, s) => arithmetic(v, s),
        VInstr::Xor(v, s) => arithmetic(v, s),
        VInstr::Mul(v, s) => line(&[at(v, R), at(s, RMK)], Some(v), &[], NOTHING),
        VInstr::Neg(v) => line(&[at(v, RM)], Some(v), &[], NOTHING),
        VInstr::Shift(_, v, _) => line(&[at(v, RM)], Some(v), &[], NOTHING),
        VInstr::Cmp(a, b) => compares(a, b, &[]),
        VInstr::CmpSet(_, v, a, b) => compares(a, b, &[at(v, B)]),
        VInstr::DivMod(q, r, a, d) => line(
            &[at(a, EAX), at(d, DIVISOR)],
            None,
            &[at(q, EAX), at(r, EDX)],
            NOTHING,
        ),
        VInstr::Check(i, _) => line(&[at(i, RM)], None, &[], NOTHING),
        VInstr::CheckPos(d) => line(&[at(d, RM)], None, &[], NOTHING),
        VInstr::Load(v, a) => loads(v, &a),
        VInstr::Store(a, s) => stores(&a, s),
        VInstr::Addr(v, a) => loads(v, &a),
        VInstr::Push(s) => line(&[at(s, RMK)], None, &[], NOTHING),
        VInstr::Call(_) => line(&[], None, &[], CALLER_SAVED),
        VInstr::Read(v) => line(&[], None, &[at(v, EAX)], NOTHING),
        VInstr::Write(s) => line(&[at(s, EAX)], None, &[], NOTHING),
        VInstr::Line => line(&[], None, &[], NOTHING),
        VInstr::Clear => line(&[], None, &[], COUNTER),
    }
}

fn is_in_place(line: &Printed, var: VarId) -> bool
    ensures { result ≡ list_any (nat_eq var.0) (line_of line.now).in_place }
{
    match line.in_place {
        Some(v) => var == v,
        None => false,
    }
}

// How many of the roles are of the variable.
fn roles_among(roles: &[Role], var: VarId) -> usize
    ensures { result ≡ count_by (base.is_role_of var.0) (roles_of roles.now) }
{
    roles.iter().filter(|role| role.var == var).count()
}

fn is_among(roles: &[Role], var: VarId) -> bool
    ensures { result ≡ list_any (base.is_role_of var.0) (roles_of roles.now) }
{
    roles_among(roles, var) > 0
}

// Whether the instruction writes the variable.
fn is_written(line: &Printed, var: VarId) -> bool
    ensures { result ≡ base.line_writes (line_of line.now) var.0 }
{
    is_in_place(line, var) || is_among(line.writes.as_slice(), var)
}

// A role that is only read has with each register its both place too.
fn widened(line: &Printed, role: Role) -> Role
    ensures { role_of result ≡ base.widened (line_of line.now) (role_of role) }
{
    let mask = if is_written(line, role.var) {
        role.mask
    } else {
        with_both(role.mask)
    };
    Role { mask, ..role }
}

// What is left of a mask in the read roles of a variable.
fn meet_reads(start: Mask, line: &Printed, var: VarId) -> Mask
    ensures { let l = line_of line.now in
        result ≡ fold (base.meets var.0) start (map (base.widened l) l.reads) }
{
    let mut mask = start;
    for role in line.reads.as_slice() {
        if role.var == var {
            mask &= widened(line, *role).mask;
        }
    }
    mask
}

// What is left of a mask in the written roles of a variable.
fn meet_writes(start: Mask, roles: &[Role], var: VarId) -> Mask
    ensures { result ≡ fold (base.meets var.0) start (roles_of roles.now) }
{
    let mut mask = start;
    for role in roles {
        if role.var == var {
            mask &= role.mask;
        }
    }
    mask
}

// In how many of the roles the variable is in the memory pair.
fn stars(roles: &[Role], var: VarId) -> usize
    ensures { result ≡ count_by (base.is_star_of var.0) (roles_of roles.now) }
{
    roles
        .iter()
        .filter(|role| role.var == var && role.memory)
        .count()
}

// The places but for memory alone.
fn but_memory(mask: Mask) -> Mask
    ensures { result ≡ base.but_memory mask }
{
    mask & (EVERY & !MEMORY)
}

fn mask_of(line: &Printed, var: VarId) -> Mask
    ensures { result ≡ base.mask_of (line_of line.now) var.0 }
{
    let common = meet_writes(meet_reads(EVERY, line, var), line.writes.as_slice(), var);
    if stars(line.reads.as_slice(), var) + stars(line.writes.as_slice(), var) > 1 {
        but_memory(common)
    } else {
        common
    }
}

fn settled(line: &Printed, role: Role) -> Role
    ensures { role_of result ≡ base.settled (line_of line.now) (role_of role) }
{
    Role {
        mask: mask_of(line, role.var),
        ..role
    }
}

fn rewritten(line: &Printed, var: VarId) -> Role
    ensures { role_of result ≡ base.rewritten (line_of line.now) var.0 }
{
    Role {
        var,
        mask: mask_of(line, var),
        memory: false,
    }
}

fn reads(line: &Printed) -> ArrayVec<Role, 3>
    ensures { roles_of result.items ≡ (base.row_of (line_of line.now)).reads }
{
    let mut reads = ArrayVec::new();
    for role in line.reads.as_slice() {
        reads.push(settled(line, *role));
    }
    reads
}

fn writes(line: &Printed) -> ArrayVec<Role, 2>
    requires { Fits line.now.in_place line.now.writes.items }
    ensures { roles_of result.items ≡ (base.row_of (line_of line.now)).writes }
{
    let mut writes = ArrayVec::new();
    if let Some(var) = line.in_place {
        writes.push(rewritten(line, var));
    }
    for role in line.writes.as_slice() {
        writes.push(settled(line, *role));
    }
    writes
}

/// The operands of an instruction: the roles that are read, then those that are written, a variable
/// that is written in place among them, each in the order of the table. A variable that is only
/// read may be at a both place; one in several roles has what they have in common, and that without
/// memory where two of them are in the memory pair.
pub fn operands(i: &VInstr) -> OperandRow
    ensures { row_of result ≡ base.operands i.now }
{
    let line = table(i);
    OperandRow {
        reads: reads(&line),
        writes: writes(&line),
        clobbers: line.clobbers,
    }
}
