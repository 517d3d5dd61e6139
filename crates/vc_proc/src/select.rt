// The code of one procedure.

ghost use Rattle.std.specs.Prelude.{◌≡◌, ◌<◌, length, slice_get, Some, IfOk};
ghost use Rattle.ob_syntax.specs.declared.checked.CheckedProc.{CheckedProc};
ghost use Rattle.vc_proc.specs.Opening.{IsSettingOf, opened};
ghost use Rattle.vc_proc.specs.Selected.{IsSelected};
ghost use Rattle.vc_typed.specs.Nodes.{HaveTheirNodes};
ghost use Rattle.vc_typed.specs.TypedModules.{IsSelectable};

use crate::finish::finish;
use crate::homes::{Homes, homes_of};
use crate::opening::open_code;
use crate::words::words_of_types;
use ob_syntax::{Checked, CheckedProc};
use pra_base::{BlockId, OutOfMemory, ProcId, VProc};
use pra_list::Seq;
use std::alloc::Global;
use vc_select::{Ctx, Setting};
use vc_stmt::select_statements;

/// The code of a procedure's statements behind its opening, left by Return at its end.
fn select_body(setting: &Setting<'_>, proc: &CheckedProc, code: VProc) -> Result<VProc, OutOfMemory>
    requires selectable { IsSelectable setting.now.program.now }
    requires nodes { HaveTheirNodes setting.now.program.now }
    requires setting { IsSettingOf setting.now proc.now }
    requires opened { code ≡ opened setting.now.id.0 proc.now }
    ensures { IfOk result (λ new.
        IsSelected setting.now.program.now setting.now.id.0 proc.now new) }
{
    let mut order = Seq::new(setting.alloc);
    order.push(BlockId(0))?;
    let mut ctx = Ctx {
        code,
        at: BlockId(0),
        order,
    };
    select_statements(setting, &mut ctx, proc.body.as_slice())?;
    let Ctx { code, at, order } = ctx;
    let code = finish(setting.alloc, code, at, order.as_slice())?;
    Ok(code)
}

/// The selected code of a procedure of a checked module.
///
/// # Errors
///
/// Where there is no memory, or no number.
pub fn select_proc(alloc: Global, checked: &Checked, id: ProcId) -> Result<VProc, OutOfMemory>
    requires selectable { IsSelectable checked.now }
    requires nodes { HaveTheirNodes checked.now }
    requires there { id.0 < length checked.now.procs }
    ensures selected { IfOk result (λ code. (proc : CheckedProc) →
        slice_get checked.now.procs id.0 ≡ Some proc →
        IsSelected checked.now id.0 proc code) }
{
    let proc = &checked.procs[id.0 as usize];
    let words = words_of_types(alloc, checked.types.as_slice())?;
    let Homes {
        kinds,
        first_local,
        params,
        locals,
    } = homes_of(alloc, proc)?;
    let code = open_code(alloc, id, proc, kinds, first_local)?;
    let setting = Setting {
        alloc,
        program: checked,
        words: words.as_slice(),
        id,
        params: params.as_slice(),
        locals: locals.as_slice(),
    };
    let code = select_body(&setting, proc, code)?;
    Ok(code)
}
