// How an action changes the machine.

ghost use Rattle.std.specs.Prelude.{◌<◌, ◌∷◌, [], Some};
ghost use Rattle.vc_code.specs.Machine.{goes_on, with_top, with_compared, with_pushed, with_event};
ghost use Rattle.vc_code.specs.Machine.{with_cleared, with_number, takes, loads};
ghost use Rattle.vc_code.specs.Machine.{apply as apply_of};
ghost use Rattle.vc_run.specs.Calls.{after};
ghost use Rattle.vc_run.specs.Stands.{sizes_of, machine_of, Makes};

use super::Execution;
use crate::halt::Halt;
use crate::live::Targets;
use crate::program::Program;
use pra_base::{OutEvent, TrapKind};
use std::alloc::Global;
use vc_code::arithmetic::word;
use vc_code::{Action, Object, Value};

impl Execution {
    // On, where no variable wants a value.
    fn pass(&mut self, to: Targets) -> Result<(), Halt>
        requires { self.old.top.index < usize.MAX }
        ensures { Makes self.old self.new result (goes_on (after self.old.top to) [] with_top) }
    {
        if self.top.pass(to) {
            self.compared = None;
            Ok(())
        } else {
            Err(Halt::Stuck)
        }
    }

    /// On, with the value in the first target.
    ///
    /// # Errors
    ///
    /// Where the run is stuck by it.
    pub fn give(&mut self, to: Targets, x: Value) -> Result<(), Halt>
        requires { self.old.top.index < usize.MAX }
        ensures { Makes self.old self.new result
            (goes_on (after self.old.top to) (x ∷ []) with_top) }
    {
        if self.top.give(to, x) {
            self.compared = None;
            Ok(())
        } else {
            Err(Halt::Stuck)
        }
    }

    fn give_both(&mut self, to: Targets, x: Value, y: Value) -> Result<(), Halt>
        requires { self.old.top.index < usize.MAX }
        ensures { Makes self.old self.new result
            (goes_on (after self.old.top to) (x ∷ y ∷ []) with_top) }
    {
        if self.top.give_both(to, x, y) {
            self.compared = None;
            Ok(())
        } else {
            Err(Halt::Stuck)
        }
    }

    /// On, with two numbers as what was compared.
    ///
    /// # Errors
    ///
    /// Where the run is stuck by it.
    pub fn compare(&mut self, to: Targets, a: u32, b: u32) -> Result<(), Halt>
        requires { self.old.top.index < usize.MAX }
        ensures { Makes self.old self.new result
            (goes_on (after self.old.top to) [] (with_compared a b)) }
    {
        if self.top.pass(to) {
            self.compared = Some((a, b));
            Ok(())
        } else {
            Err(Halt::Stuck)
        }
    }

    fn push(&mut self, to: Targets, x: Value) -> Result<(), Halt>
        requires { self.old.top.index < usize.MAX }
        ensures { Makes self.old self.new result
            (goes_on (after self.old.top to) [] (with_pushed x)) }
    {
        if self.top.pass(to) {
            self.compared = None;
            self.pushed.push(Some(x))?;
            Ok(())
        } else {
            Err(Halt::Stuck)
        }
    }

    fn tell(&mut self, to: Targets, event: OutEvent) -> Result<(), Halt>
        requires { self.old.top.index < usize.MAX }
        ensures { Makes self.old self.new result
            (goes_on (after self.old.top to) [] (with_event event)) }
    {
        if self.top.pass(to) {
            self.compared = None;
            self.events.push(event)?;
            Ok(())
        } else {
            Err(Halt::Stuck)
        }
    }

    fn clear(&mut self, to: Targets) -> Result<(), Halt>
        requires { self.old.top.index < usize.MAX }
        ensures { Makes self.old self.new result (goes_on (after self.old.top to) [] with_cleared) }
    {
        if self.top.pass(to) {
            self.compared = None;
            self.top.clear();
            Ok(())
        } else {
            Err(Halt::Stuck)
        }
    }

    fn take(&mut self, to: Targets) -> Result<(), Halt>
        requires { self.old.top.index < usize.MAX }
        ensures { Makes self.old self.new result (λ s. takes s s.input (after self.old.top to)) }
    {
        match self.input.get(self.taken) {
            None => Err(Halt::Trap(TrapKind::Input)),
            Some(n) => {
                let value = Value::Num(word(*n));
                if self.top.give(to, value) {
                    self.compared = None;
                    self.taken += 1;
                    Ok(())
                } else {
                    Err(Halt::Stuck)
                }
            }
        }
    }

    fn load(&mut self, program: &Program, to: Targets, x: Object, offset: u32) -> Result<(), Halt>
        requires { self.old.top.index < usize.MAX }
        ensures { Makes self.old self.new result
            (loads (sizes_of program.now self.old) (after self.old.top to) x offset) }
    {
        match self.word(program, x, offset)? {
            Some(Some(Value::Num(n))) => self.give(to, Value::Num(n)),
            Some(Some(Value::At(_, _))) => Err(Halt::Stuck),
            Some(None) => Err(Halt::Stuck),
            None => Err(Halt::Stuck),
        }
    }

    fn store(
        &mut self,
        program: &Program,
        to: Targets,
        x: Object,
        offset: u32,
        n: u32,
    ) -> Result<(), Halt>
        requires { self.old.top.index < usize.MAX }
        ensures { Makes self.old self.new result
            (goes_on (after self.old.top to) [] (with_number (sizes_of program.now self.old) x offset n)) }
    {
        if to.0.is_some() {
            return Err(Halt::Stuck);
        }
        if self.word(program, x, offset)?.is_none() {
            return Err(Halt::Stuck);
        }
        self.top.index += 1;
        self.compared = None;
        self.write(program, x, offset, n)?;
        Ok(())
    }

    /// Does what an action says, at an instruction that writes these variables.
    ///
    /// # Errors
    ///
    /// Where the run is over by it, and where there is no memory for it.
    pub fn apply(
        &mut self,
        alloc: Global,
        program: &Program,
        to: Targets,
        action: Action,
    ) -> Result<(), Halt>
        requires { self.old.top.index < usize.MAX }
        ensures { Makes self.old self.new result
            (apply_of (machine_of program.now self.old) (after self.old.top to) (Some action)) }
    {
        match action {
            Action::Nothing => self.pass(to),
            Action::Give(x) => self.give(to, x),
            Action::GiveBoth(x, y) => self.give_both(to, x, y),
            Action::Compare(a, b) => self.compare(to, a, b),
            Action::Push(x) => self.push(to, x),
            Action::Call(proc) => self.call(alloc, program, to, proc),
            Action::Load(x, offset) => self.load(program, to, x, offset),
            Action::Store(x, offset, n) => self.store(program, to, x, offset, n),
            Action::Tell(event) => self.tell(to, event),
            Action::Input => self.take(to),
            Action::Clear => self.clear(to),
            Action::Trap(kind) => Err(Halt::Trap(kind)),
        }
    }
}
