// What holds of code under construction. Each function is a law: its contract is the statement, and
// it does nothing.

ghost use Rattle.std.specs.Prelude.{◌≡◌, ◌≢◌, ◌<◌, ◌≤◌, ℕ, ◌∷◌, [], length, Some};
ghost use Rattle.pra_base.specs.Code.{kind_of};
ghost use Rattle.pra_base.specs.Operands.{written_by};
ghost use Rattle.pra_base.specs.declared.code.End.{End};
ghost use Rattle.pra_base.specs.declared.code.VarKind.{VarKind};
ghost use Rattle.pra_base.specs.declared.code.VarKind.TheVariants.{Plain};
ghost use Rattle.pra_base.specs.declared.code.VInstr.{VInstr};
ghost use Rattle.pra_base.specs.declared.code.VProc.{VProc};
ghost use Rattle.vc_code.specs.declared.action.Action.TheVariants.{Give};
ghost use Rattle.vc_code.specs.declared.value.Value.{Value};
ghost use Rattle.vc_code.specs.Machine.{State};
ghost use Rattle.vc_code.specs.Selected.{Vars, code_of};
ghost use Rattle.vc_build.specs.Grow.{stand_in, IsOpen, with_instr, with_end, with_open_block};
ghost use Rattle.vc_build.specs.Grow.{with_variable, Grows, GrowsAt};
ghost use Rattle.vc_build.specs.Runs.{Codes, runs, Stands, RunsIn, acted, performed, left};
ghost use Rattle.vc_build.specs.Runs.{Reaches, Holds};

/// What grows and grows again has grown.
pub fn growth_is_an_order()
    ensures same { (code : VProc) → Grows code code }
    ensures on { (one two three : VProc) → Grows one two → Grows two three → Grows one three }
{}

/// Each change lets code grow: an instruction and an end change their block alone, a block and a
/// variable none of the blocks.
pub fn changes_keep_what_was()
    ensures instruction { (at : ℕ) (i : VInstr) (code : VProc) → IsOpen code at →
        GrowsAt at code (with_instr at i code) }
    ensures end { (at : ℕ) (end : End) (code : VProc) → IsOpen code at →
        GrowsAt at code (with_end at end code) }
    ensures block { (from depth : ℕ) (code : VProc) →
        GrowsAt from code (with_open_block depth code) }
    ensures variable { (from : ℕ) (kind : VarKind) (code : VProc) →
        GrowsAt from code (with_variable kind code) }
{}

/// A run in code that holds what was made later holds what was made before.
pub fn later_code_runs_earlier_code()
    ensures { (w : Codes) (id : ℕ) (earlier later : VProc) (s : State Vars) → Grows earlier later →
        RunsIn w id later s → RunsIn w id earlier s }
{}

/// What was added to an open block runs where the block ended, over any later code: an instruction
/// does what it does, and an end leads where it leads.
pub fn added_code_runs()
    ensures instruction { (w : Codes) (id at : ℕ) (code : VProc) (i : VInstr) (s : State Vars) →
        IsOpen code at → Stands code at s.top → RunsIn w id (with_instr at i code) s →
        runs w 1 s ≡ performed w i s }
    ensures end { (w : Codes) (id at : ℕ) (code : VProc) (end : End) (s : State Vars) →
        IsOpen code at → end ≢ stand_in → Stands code at s.top →
        RunsIn w id (with_end at end code) s → runs w 1 s ≡ left w end s }
{}

/// An instruction that gives a variable a value leaves it there, and the variables below it as they
/// were.
pub fn a_given_value_is_held()
    ensures { (w : Codes) (id at v n : ℕ) (code : VProc) (i : VInstr) (x : Value) (s : State Vars) →
        IsOpen code at → Stands code at s.top → RunsIn w id (with_instr at i code) s →
        written_by i ≡ v ∷ [] → acted w i s ≡ Some (Give x) → n ≤ v →
        kind_of (code_of w.procs id) v ≡ Plain → v < length (code_of w.procs id).vars →
        Reaches w s (Holds w id (with_instr at i code) at v n s.top x) }
{}
