// Variables without selectors.

ghost use Rattle.std.specs.Prelude.{◌≡◌, Some, slice_get};
ghost use Rattle.ob_mean.specs.Designators.{type_in as type_in_proc, root_type as root_type_of};
ghost use Rattle.vc_select.specs.Targets.{at_base as base_target, home_in as home_of};
ghost use Rattle.vc_select.specs.Targets.{home_target as target_of_home, by_var_of};
ghost use Rattle.vc_select.specs.Targets.{root_target as target_of_root};

use crate::target::{Setting, Target};
use ob_syntax::{CheckedProc, Root};
use pra_base::{Addr, Base};
use vc_relation::Home;

fn at_base(base: Base) -> Target
    ensures { result ≡ base_target base }
{
    Target::Memory(Addr {
        base,
        offset: 0,
        index: None,
    })
}

fn home_target(by_var: bool, home: Home) -> Target
    ensures { result ≡ target_of_home by_var home }
{
    match home {
        Home::Var(v) => {
            if by_var {
                at_base(Base::Via(v))
            } else {
                Target::Var(v)
            }
        }
        Home::Cell(k) => at_base(Base::Cell(k)),
        Home::Frame(word) => at_base(Base::Frame(word)),
    }
}

fn home_in(homes: &[Home], k: u32) -> Home
    ensures { result ≡ home_of homes.now k }
{
    match homes.get(k as usize) {
        Some(home) => *home,
        None => Home::Frame(0),
    }
}

fn is_by_var(proc: &CheckedProc, k: u32) -> bool
    ensures { result ≡ by_var_of (slice_get proc.now.params k) }
{
    match proc.params.get(k as usize) {
        Some(param) => param.by_var,
        None => false,
    }
}

/// Where a variable of the module, a parameter or a local is.
pub fn root_target(setting: &Setting<'_>, root: Root) -> Target
    ensures { result ≡ target_of_root setting.now.program.now setting.now.params.now
        setting.now.locals.now setting.now.id.0 root }
{
    match root {
        Root::Module(n) => match setting.program.vars.get(n as usize) {
            Some(var) => at_base(Base::Global(var.word)),
            None => at_base(Base::Global(0)),
        },
        Root::Param(k) => {
            let by_var = match setting.program.procs.get(setting.id.0 as usize) {
                Some(proc) => is_by_var(proc, k),
                None => false,
            };
            home_target(by_var, home_in(setting.params, k))
        }
        Root::Local(k) => home_target(false, home_in(setting.locals, k)),
    }
}

fn type_in(proc: &CheckedProc, root: Root) -> u32
    ensures { result ≡ type_in_proc (Some proc.now) root }
{
    match root {
        Root::Module(_) => 0,
        Root::Param(k) => match proc.params.get(k as usize) {
            Some(param) => param.type_id,
            None => 0,
        },
        Root::Local(k) => match proc.locals.get(k as usize) {
            Some(local) => local.type_id,
            None => 0,
        },
    }
}

/// The type of a variable, or 0.
pub fn root_type(setting: &Setting<'_>, root: Root) -> u32
    ensures { result ≡ root_type_of setting.now.program.now setting.now.id.0 root }
{
    match root {
        Root::Module(n) => match setting.program.vars.get(n as usize) {
            Some(var) => var.type_id,
            None => 0,
        },
        _ => match setting.program.procs.get(setting.id.0 as usize) {
            Some(found) => type_in(found, root),
            None => 0,
        },
    }
}
