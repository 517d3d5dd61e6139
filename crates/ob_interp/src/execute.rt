// A module is run unit by unit, over a stack of what is still to be done. Nothing recurs here but
// the expressions below.

ghost use Rattle.std.specs.Prelude.{◌≡◌, ◌≤◌, ◌+◌, ℕ, List, [], ◌∷◌, map, None};
ghost use Rattle.ob_syntax.specs.declared.checked.Checked.{Checked};
ghost use Rattle.ob_mean.specs.declared.store.LiveCall.{LiveCall};
ghost use Rattle.std.specs.Prelude.{IfOk, OnOk, MatchOption};
ghost use Rattle.ob_mean.specs.Program.{body as body_of_proc};
ghost use Rattle.ob_interp.specs.Units.{Counted, Done, first_true, counted, counted_arm};
ghost use Rattle.ob_interp.specs.Running.{here, leads, weight, first_weight};
ghost use Rattle.ob_interp.specs.Running.{IsRunning, IsBegun, remains, due_remains, counted_of};
ghost use Rattle.ob_interp.specs.declared.task.Due.TheVariants as due;
ghost use Rattle.ob_interp.specs.Running.{comes_to, begun_remains, behind, around, ends_in};

use crate::enter::{arguments, begin, end, passes};
use crate::evaluate::evaluate;
use crate::running::{Finish, Running, Setting};
use crate::simple::{assign, read, write, write_line};
use crate::task::{Due, First, Task};
use ob_syntax::{Checked, RArg, RArm, RExpr, RStmt};
use ob_values::is_true;
use pra_base::TrapKind;
use std::alloc::AllocError;
use std::collections::VecDeque;

/// The most calls that are live at once.
const MOST_CALLS: usize = 4_294_967_294;

/// The statements of a procedure.
pub fn body_of(program: &Checked, proc: u32) -> &[RStmt]
    ensures { result.now ≡ body_of_proc program.now proc }
{
    match program.procs.get(proc as usize) {
        Some(found) => found.body.as_slice(),
        None => &[],
    }
}

/// How a statement begins.
fn first_of(statement: &RStmt) -> First<'_>
    ensures leads { (program : Checked) (frames : List ℕ) (k : ℕ) (calls : List LiveCall)
        (c : Counted) →
        counted program statement.now (here program frames k calls) c ≡
        leads program result (here program frames k calls) c }
    ensures weight { first_weight result ≤ weight statement.now }
{
    match statement {
        RStmt::Assign(v, e) => First::Due(Due::Assign(v, e)),
        RStmt::If(arms, other) => First::Due(Due::If(arms.as_slice(), other.as_slice())),
        RStmt::While(test, body) => First::Due(Due::While(test, body.as_slice())),
        RStmt::Repeat(body, test) => First::Repeat(body.as_slice(), test),
        RStmt::Call(proc, args) => First::Due(Due::Call(proc.0, args.as_slice())),
        RStmt::Read(v) => First::Due(Due::Read(v)),
        RStmt::Write(e) => First::Due(Due::Write(e)),
        RStmt::WriteLine => First::Due(Due::WriteLine),
    }
}

/// The first statement and those behind it.
fn parted(all: &[RStmt]) -> Option<(&RStmt, &[RStmt])>
    ensures { MatchOption result (all.now ≡ []) (λ parts. all.now ≡ parts.0.now ∷ parts.1.now) }
{
    match all {
        [first, more @ ..] => Some((first, more)),
        [] => None,
    }
}

/// Goes on to where the next unit is due; None at the end.
pub fn next_due<'a>(
    setting: &Setting<'_>,
    tasks: &mut VecDeque<Task<'a>>,
    running: &mut Running,
) -> Result<Option<Due<'a>>, AllocError>
    requires { IsRunning setting.now running.old }
    ensures running { IsRunning setting.now running.new }
    ensures units { running.new.units ≡ running.old.units }
    ensures goes { IfOk result (λ o.
        MatchOption o
        (Done (counted_of setting.now.input.now running.new) ≡
        remains setting.now tasks.old.items running.old)
        (λ due. due_remains setting.now due tasks.new.items running.new ≡
        remains setting.now tasks.old.items running.old)) }
{
    while let Some(task) = tasks.pop_front() {
        match task {
            Task::Statements(all) => {
                if let Some((first, more)) = parted(all) {
                    tasks.push_front(Task::Statements(more))?;
                    match first_of(first) {
                        First::Due(due) => return Ok(Some(due)),
                        First::Repeat(body, test) => {
                            tasks.push_front(Task::Until(body, test))?;
                            tasks.push_front(Task::Statements(body))?;
                        }
                    }
                }
            }
            Task::While(test, body) => return Ok(Some(Due::While(test, body))),
            Task::Until(body, test) => return Ok(Some(Due::Until(body, test))),
            Task::Return => end(setting, running),
        }
    }
    Ok(None)
}

/// What has come to its end goes on; all else is a halt.
fn going_on(finish: Finish) -> Option<Finish>
    ensures { result ≡ ends_in finish }
{
    match finish {
        Finish::Done => None,
        Finish::Failed(trap) => Some(Finish::Failed(trap)),
        Finish::Stopped => Some(Finish::Stopped),
    }
}

/// IF: the statements behind the first condition that is TRUE, or those of ELSE.
fn choose<'a>(
    setting: &Setting<'_>,
    tasks: &mut VecDeque<Task<'a>>,
    running: &Running,
    arms: &'a [RArm],
    other: &'a [RStmt],
) -> Result<Option<Finish>, AllocError>
    requires { IsBegun setting.now running.now }
    ensures { IfOk result (λ o. comes_to setting.now tasks.new.items running.now o ≡
        behind setting.now tasks.old.items running.now
        (first_true (map (counted_arm setting.now.program.now) arms.now)
        (map (counted setting.now.program.now) other.now)
        (around setting.now running.now))) }
{
    for arm in arms {
        match evaluate(setting.alloc, setting.program, running, &arm.test)? {
            Ok(x) => {
                if is_true(x) {
                    tasks.push_front(Task::Statements(arm.body.as_slice()))?;
                    return Ok(None);
                }
            }
            Err(trap) => return Ok(Some(Finish::Failed(trap))),
        }
    }
    tasks.push_front(Task::Statements(other))?;
    Ok(None)
}

/// A test of WHILE: where it is TRUE, the statements and the next test are still to be done.
fn while_test<'a>(
    setting: &Setting<'_>,
    tasks: &mut VecDeque<Task<'a>>,
    running: &Running,
    test: &'a RExpr,
    body: &'a [RStmt],
) -> Result<Option<Finish>, AllocError>
    requires { IsBegun setting.now running.now }
    ensures { IfOk result (λ o. comes_to setting.now tasks.new.items running.now o ≡
        begun_remains setting.now (due.While test.entry body.entry) tasks.old.items running.now) }
{
    match evaluate(setting.alloc, setting.program, running, test)? {
        Ok(x) => {
            if is_true(x) {
                tasks.push_front(Task::While(test, body))?;
                tasks.push_front(Task::Statements(body))?;
            }
            Ok(None)
        }
        Err(trap) => Ok(Some(Finish::Failed(trap))),
    }
}

/// A test of REPEAT: where it is FALSE, the statements and the next test are still to be done.
fn until_test<'a>(
    setting: &Setting<'_>,
    tasks: &mut VecDeque<Task<'a>>,
    running: &Running,
    body: &'a [RStmt],
    test: &'a RExpr,
) -> Result<Option<Finish>, AllocError>
    requires { IsBegun setting.now running.now }
    ensures { IfOk result (λ o. comes_to setting.now tasks.new.items running.now o ≡
        begun_remains setting.now (due.Until body.entry test.entry) tasks.old.items running.now) }
{
    match evaluate(setting.alloc, setting.program, running, test)? {
        Ok(x) => {
            if !is_true(x) {
                tasks.push_front(Task::Until(body, test))?;
                tasks.push_front(Task::Statements(body))?;
            }
            Ok(None)
        }
        Err(trap) => Ok(Some(Finish::Failed(trap))),
    }
}

/// A call: its arguments, the test of the stack, and its body. More than 2^32 - 2 live calls, or
/// as many arguments, count as want of memory.
fn call<'a>(
    setting: &Setting<'a>,
    tasks: &mut VecDeque<Task<'a>>,
    running: &mut Running,
    proc: u32,
    args: &'a [RArg],
) -> Result<Option<Finish>, AllocError>
    requires { IsBegun setting.now running.old }
    ensures running { OnOk result (IsRunning setting.now running.new) }
    ensures units { OnOk result (running.new.units ≡ running.old.units) }
    ensures goes { IfOk result (λ o. comes_to setting.now tasks.new.items running.new o ≡
        begun_remains setting.now (due.Call proc args.entry) tasks.old.items running.old) }
{
    let given = match arguments(setting, running, args)? {
        Ok(given) => given,
        Err(trap) => return Ok(Some(Finish::Failed(trap))),
    };
    if passes(setting, running, proc) {
        return Ok(Some(Finish::Failed(TrapKind::Stack)));
    }
    if running.calls.len() >= MOST_CALLS || given.len() >= MOST_CALLS {
        return Err(AllocError);
    }
    begin(setting, running, proc, &given)?;
    tasks.push_front(Task::Return)?;
    tasks.push_front(Task::Statements(body_of(setting.program, proc)))?;
    Ok(None)
}

/// What a unit is due for is done, once the unit has begun; None where the run goes on.
fn do_begun<'a>(
    setting: &Setting<'a>,
    tasks: &mut VecDeque<Task<'a>>,
    running: &mut Running,
    due: Due<'a>,
) -> Result<Option<Finish>, AllocError>
    requires { IsBegun setting.now running.old }
    ensures running { OnOk result (IsRunning setting.now running.new) }
    ensures units { OnOk result (running.new.units ≡ running.old.units) }
    ensures goes { IfOk result (λ o. comes_to setting.now tasks.new.items running.new o ≡
        begun_remains setting.now due.entry tasks.old.items running.old) }
{
    match due {
        Due::Assign(v, e) => Ok(going_on(assign(setting, running, v, e)?)),
        Due::Read(v) => Ok(going_on(read(setting, running, v)?)),
        Due::Write(e) => Ok(going_on(write(setting, running, e)?)),
        Due::WriteLine => Ok(going_on(write_line(setting, running)?)),
        Due::If(arms, other) => choose(setting, tasks, running, arms, other),
        Due::Call(proc, args) => call(setting, tasks, running, proc, args),
        Due::While(test, body) => while_test(setting, tasks, running, test, body),
        Due::Until(body, test) => until_test(setting, tasks, running, body, test),
    }
}

/// A unit begins, if one is left, and what it is due for is done; None where the run goes on.
pub fn perform<'a>(
    setting: &Setting<'a>,
    tasks: &mut VecDeque<Task<'a>>,
    running: &mut Running,
    due: Due<'a>,
) -> Result<Option<Finish>, AllocError>
    requires { IsRunning setting.now running.old }
    ensures running { OnOk result (IsRunning setting.now running.new) }
    ensures units { IfOk result (λ o. o ≡ None → running.new.units ≡ running.old.units + 1) }
    ensures goes { IfOk result (λ o. comes_to setting.now tasks.new.items running.new o ≡
        due_remains setting.now due.entry tasks.old.items running.old) }
{
    if running.units == setting.granted {
        return Ok(Some(Finish::Stopped));
    }
    running.units += 1;
    do_begun(setting, tasks, running, due)
}
