//! Which parameters and locals a procedure lends whole to VAR parameters.

ghost use Rattle.std.specs.Prelude.{◌≡◌, ℕ, ◌<◌, ◌++◌, false, ◌||◌, length, map, nat_eq};
ghost use Rattle.std.specs.Prelude.{slice_index_or, OnOk, IfOk};
ghost use Rattle.ob_syntax.specs.WellFormed.{joined, lent_in as lent_in_statement, lent_by};
ghost use Rattle.ob_syntax.specs.WellFormed.{lent_root};
ghost use Rattle.ob_measure.specs.Lending.{AreLent};

use ob_syntax::{Draft, RArg, RStmt, RVar, Root};
use std::alloc::{AllocError, Global};

/// Adds a variable, if it has no selectors.
fn add_whole(roots: &mut Vec<Root>, variable: &RVar) -> Result<(), AllocError>
    ensures { OnOk result (roots.new.items ≡ roots.old.items ++ lent_root variable.now) }
{
    if variable.steps.is_empty() {
        roots.push(variable.root)?;
    }
    Ok(())
}

/// Adds the variables that arguments lend.
fn lent_by_all(roots: &mut Vec<Root>, args: &[RArg]) -> Result<(), AllocError>
    ensures { OnOk result (roots.new.items ≡ roots.old.items ++ lent_by args.now) }
{
    for arg in args {
        match arg {
            RArg::Value(_) => {}
            RArg::Lent(variable) => add_whole(roots, variable)?,
        }
    }
    Ok(())
}

/// Adds the variables that a statement lends.
#[cycle(lending)]
fn lent_in(roots: &mut Vec<Root>, statement: &RStmt) -> Result<(), AllocError>
    ensures { OnOk result (roots.new.items ≡ roots.old.items ++ lent_in_statement statement.now) }
{
    match statement {
        RStmt::If(arms, other) => {
            for arm in arms.as_slice() {
                lent_in_all(roots, arm.body.as_slice())?;
            }
            lent_in_all(roots, other.as_slice())
        }
        RStmt::While(_, body) => lent_in_all(roots, body.as_slice()),
        RStmt::Repeat(body, _) => lent_in_all(roots, body.as_slice()),
        RStmt::Call(_, args) => lent_by_all(roots, args.as_slice()),
        RStmt::Assign(_, _) => Ok(()),
        RStmt::Read(_) => Ok(()),
        RStmt::Write(_) => Ok(()),
        RStmt::WriteLine => Ok(()),
    }
}

/// Adds the variables that statements lend.
#[cycle(lending)]
fn lent_in_all(roots: &mut Vec<Root>, statements: &[RStmt]) -> Result<(), AllocError>
    ensures { OnOk result (
        roots.new.items ≡ roots.old.items ++ joined (map lent_in_statement statements.now)) }
{
    for statement in statements {
        lent_in(roots, statement)?;
    }
    Ok(())
}

/// Marks a number, if it is one of those that can be marked.
fn mark(marks: &mut Vec<bool>, number: u32)
    ensures len { length marks.new.items ≡ length marks.old.items }
    ensures marked { (k : ℕ) → k < length marks.old.items → slice_index_or marks.new.items k false
        ≡ (slice_index_or marks.old.items k false || nat_eq k number) }
{
    let place = number as usize;
    if place < marks.len() {
        marks[place] = true;
    }
}

/// For each parameter and each local of a procedure, whether it is lent.
#[derive(Drop)]
pub struct Lent {
    params: Vec<bool>,
    locals: Vec<bool>,
}

impl Lent {
    /// What a procedure lends.
    pub fn new(alloc: Global, draft: &Draft) -> Result<Lent, AllocError>
        ensures { IfOk result (λ lent. AreLent lent draft.now) }
    {
        let mut roots = Vec::new(alloc);
        lent_in_all(&mut roots, draft.body.as_slice())?;
        let mut params = vec![in alloc; false; draft.params.len()]?;
        let mut locals = vec![in alloc; false; draft.vars.len()]?;
        for root in &roots {
            match root {
                Root::Module(_) => {}
                Root::Param(number) => mark(&mut params, *number),
                Root::Local(number) => mark(&mut locals, *number),
            }
        }
        Ok(Lent { params, locals })
    }

    /// Whether the parameter of this number is lent.
    pub fn has_param(&self, number: usize) -> bool
        ensures { result ≡ slice_index_or self.now.params.items number false }
    {
        self.params.get(number).copied().unwrap_or(false)
    }

    /// Whether the local of this number is lent.
    pub fn has_local(&self, number: usize) -> bool
        ensures { result ≡ slice_index_or self.now.locals.items number false }
    {
        self.locals.get(number).copied().unwrap_or(false)
    }
}
