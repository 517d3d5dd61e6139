// Classes of variables that are joined.

ghost use Rattle.std.specs.Prelude.{◌≡◌, ℕ, ◌<◌, ◌++◌, [], ◌∷◌, length, slice_set};
ghost use Rattle.std.specs.Prelude.{if◌then◌else◌, nat_eq, IfOk, OnOk};
ghost use Rattle.pra_base.specs.Valid.{IsSized};
ghost use Rattle.vc_tidy.specs.Joined.{AreAlone, group_of, name};

use pra_base::VProc;
use pra_list::Seq;
use std::alloc::{AllocError, Global};

/// The name of each variable, and for each name the variables that have it.
#[derive(Debug, Drop)]
pub struct Classes {
    pub names: Vec<u32>,
    pub groups: Vec<Seq<u32>>,
}

fn alone(alloc: Global, v: u32) -> Result<Seq<u32>, AllocError>
    ensures { IfOk result (λ group. group ≡ v ∷ []) }
{
    let mut group = Seq::new(alloc);
    group.push(v)?;
    Ok(group)
}

/// Each variable alone.
pub fn all_alone(alloc: Global, code: &VProc) -> Result<Classes, AllocError>
    requires { IsSized code.now }
    ensures { IfOk result (λ classes. AreAlone code.now classes) }
{
    let mut names = Vec::with_capacity(alloc, code.vars.len())?;
    let mut groups = Vec::with_capacity(alloc, code.vars.len())?;
    for v in 0..code.vars.len() {
        names.push(v as u32)?;
        groups.push(alone(alloc, v as u32)?)?;
    }
    Ok(Classes { names, groups })
}

fn extend(group: &mut Seq<u32>, more: &[u32]) -> Result<(), AllocError>
    ensures { OnOk result (group.new ≡ group.old ++ more.now) }
{
    for v in more {
        group.push(*v)?;
    }
    Ok(())
}

// Gives the variables of one name another.
fn rename(names: &mut Vec<u32>, from: u32, to: u32)
    ensures count { length names.new.items ≡ length names.old.items }
    ensures names { (v : ℕ) → v < length names.old.items → name names.new.items v
        ≡ (if nat_eq (name names.old.items v) from then to else name names.old.items v) }
{
    for v in 0..names.len() {
        if names[v] == from {
            names[v] = to;
        }
    }
}

impl Classes {
    /// Gives the variables of the second name the first one.
    pub fn join(&mut self, alloc: Global, to: u32, from: u32) -> Result<(), AllocError>
        requires to { to < length self.old.groups.items }
        requires from { from < length self.old.groups.items }
        ensures count { OnOk result (length self.new.names.items ≡ length self.old.names.items) }
        ensures names { OnOk result ((v : ℕ) → v < length self.old.names.items →
            name self.new.names.items v ≡ (if nat_eq (name self.old.names.items v) from
            then to else name self.old.names.items v)) }
        ensures groups { OnOk result (self.new.groups.items
            ≡ slice_set self.old.groups.items to
            (group_of self.old.groups.items to ++ group_of self.old.groups.items from)) }
    {
        let more = Seq::from_slice(alloc, self.groups[from as usize].as_slice())?;
        extend(&mut self.groups[to as usize], more.as_slice())?;
        rename(&mut self.names, from, to);
        Ok(())
    }
}
