// Which variables have a slot: the local ones that come to memory somewhere.

ghost use Rattle.std.specs.Prelude.{◌≡◌, ◌<◌, ◌&&◌, ◌||◌, ◌++◌, ◌^◌, ℕ, nat_eq, length, map, All};
ghost use Rattle.std.specs.Prelude.{IfOk, OnOk};
ghost use Rattle.pra_base.specs.Code.{kind_of, is_plain};
ghost use Rattle.net_form.specs.Flow.{AreRoutes};
ghost use Rattle.pl_place.specs.Behind.{in_memory, slots_of};
ghost use Rattle.pl_routed.specs.Routed.{routed};
ghost use Rattle.pl_build.specs.Slots.{marked, comes_to_memory, only_if};

use net_form::{Net, Routes};
use pra_base::{OutOfMemory, Place, VProc, VarId, VarKind};
use pra_list::Seq;
use std::alloc::Global;

// Whether a path comes to memory, alone or beside a register.
fn comes_to_memory(path: &[Place]) -> bool
    ensures { result ≡ comes_to_memory path.now }
{
    path.iter().any(|place| place.needs_slot())
}

// A variable that comes to memory is marked.
fn mark(marks: &mut Seq<bool>, var: VarId, comes: bool)
    requires { var.0 < length marks.old }
    ensures long { length marks.new ≡ length marks.old }
    ensures marks { (v : ℕ) →
        marked marks.new v ≡ (marked marks.old v || (nat_eq var.0 v && comes)) }
{
    if !comes {
        return;
    }
    marks.set(var.0 as usize, true);
}

// For each variable whether it comes to memory.
fn marks_of(
    alloc: Global,
    code: &VProc,
    net: &Net,
    routes: &Routes,
) -> Result<Seq<bool>, OutOfMemory>
    requires vars { All (λ t. t.var.0 < length code.now.vars) net.now.strands }
    requires routes { AreRoutes net.now routes.now }
    ensures long { IfOk result (λ marks. length marks ≡ length code.now.vars) }
    ensures marks { IfOk result (λ marks. (v : ℕ) → v < length code.now.vars →
        marked marks v ≡ in_memory (routed code.now net.now routes.now) v) }
{
    let mut marks = Seq::from_vec(vec![in alloc; false; code.vars.len()]?);
    for strand in 0..net.strands.len() {
        let comes = comes_to_memory(routes.places.at(strand));
        mark(&mut marks, net.strands[strand].var, comes);
    }
    Ok(marks)
}

// Whether a variable is local and marked.
fn has_slot(code: &VProc, marks: &Seq<bool>, v: u32) -> bool
    requires vars { v < length code.now.vars }
    requires marks { length marks.now ≡ length code.now.vars }
    ensures { result ≡ (is_plain (kind_of code.now v) && marked marks.now v) }
{
    match code.vars[v as usize] {
        VarKind::Plain => marks[v as usize],
        VarKind::Param(_) | VarKind::Constant(_) => false,
    }
}

// One variable more, if it has a slot.
fn add_slot(
    code: &VProc,
    marks: &Seq<bool>,
    v: u32,
    slots: &mut Seq<VarId>,
) -> Result<(), OutOfMemory>
    requires vars { v < length code.now.vars }
    requires marks { length marks.now ≡ length code.now.vars }
    ensures { OnOk result (map (λ u. u.0) slots.new ≡ map (λ u. u.0) slots.old ++
        only_if (is_plain (kind_of code.now v) && marked marks.now v) v) }
{
    if has_slot(code, marks, v) {
        slots.push(VarId(v))?;
    }
    Ok(())
}

/// The variables that have a slot, in the order of their numbers.
pub(crate) fn slots_of(
    alloc: Global,
    code: &VProc,
    net: &Net,
    routes: &Routes,
) -> Result<Seq<VarId>, OutOfMemory>
    requires vars { All (λ t. t.var.0 < length code.now.vars) net.now.strands }
    requires few { length code.now.vars < 2 ^ 32 }
    requires routes { AreRoutes net.now routes.now }
    ensures { IfOk result (λ slots.
        map (λ u. u.0) slots ≡ slots_of (routed code.now net.now routes.now)) }
{
    let marks = marks_of(alloc, code, net, routes)?;
    let mut slots = Seq::new(alloc);
    for v in 0..code.vars.len() as u32 {
        add_slot(code, &marks, v, &mut slots)?;
    }
    Ok(slots)
}
