// What the simulation gives. Each function is a law: its contract is the statement, and it does
// nothing.

ghost use Rattle.std.specs.Prelude.{◌≡◌, ◌≢◌, ◌≤◌, ℕ, ℤ, FitsSigned, List, Some};
ghost use Rattle.std.specs.Int.{w32};
ghost use Rattle.ia_code.specs.declared.image.Image.{Image};
ghost use Rattle.ia_code.specs.Image.{max_data_words};
ghost use Rattle.ia_code.specs.Listing.{bytes_of_all};
ghost use Rattle.ia_emit.specs.Code.{code_of};
ghost use Rattle.ia_step.specs.Run.{ran, progress};
ghost use Rattle.ia_step.specs.State as machine;
ghost use Rattle.pl_place.specs.declared.placed.LProc.{LProc};
ghost use Rattle.pl_place.specs.Machine.{lrun, start};
ghost use Rattle.pl_place.specs.Sample.{sample};
ghost use Rattle.pl_moves.specs.declared.transfer.Move.{Move};
ghost use Rattle.pl_place.specs.declared.placed.LInstr.TheVariants.{Move as Moves, Op};
ghost use Rattle.pra_base.specs.declared.code.VInstr.TheVariants as instr;
ghost use Rattle.pra_base.specs.Agreement.{Agree, Carried, ReachesUntil};
ghost use Rattle.pra_base.specs.RunEnd.{Wrong};
ghost use Rattle.pra_base.specs.declared.code.Addr.{Addr};
ghost use Rattle.pra_base.specs.declared.code.End.TheVariants as end;
ghost use Rattle.pra_base.specs.declared.ids.BlockId.{BlockId};
ghost use Rattle.pra_base.specs.declared.ids.Cond.{Cond};
ghost use Rattle.pra_base.specs.declared.ids.ProcId.{ProcId};
ghost use Rattle.pra_base.specs.declared.ids.ShiftOp.{ShiftOp};
ghost use Rattle.pra_base.specs.declared.ids.VarId.{VarId};
ghost use Rattle.ia_simulation.specs.Realizes.{IsLoadable, IsLoaded, AreWords, Realizes};
ghost use Rattle.ia_simulation.specs.Realizes.{IsCarried, EndIsCarried};
ghost use Rattle.ia_emit.specs.Sound.{OffsetsFit};

/// Wherever the machine stands for placed code that stands before a move, the move is one
/// instruction of the machine, behind which it stands for placed code again.
pub fn moves_are_carried()
    ensures { (move_ : Move) → IsCarried (Moves move_) }
{}

/// The same of instructions that compute, wherever their variables are.
pub fn computing_is_carried()
    ensures set { (v : VarId) (n : ℤ) (places : _) → IsCarried (Op (instr.Set v n) places) }
    ensures copy { (v w : VarId) (places : _) → IsCarried (Op (instr.Copy v w) places) }
    ensures add { (v w : VarId) (places : _) → IsCarried (Op (instr.Add v w) places) }
    ensures subtract { (v w : VarId) (places : _) → IsCarried (Op (instr.Sub v w) places) }
    ensures and { (v w : VarId) (places : _) → IsCarried (Op (instr.And v w) places) }
    ensures or { (v w : VarId) (places : _) → IsCarried (Op (instr.Or v w) places) }
    ensures xor { (v w : VarId) (places : _) → IsCarried (Op (instr.Xor v w) places) }
    ensures multiply { (v w : VarId) (places : _) → IsCarried (Op (instr.Mul v w) places) }
    ensures compare { (v w : VarId) (places : _) → IsCarried (Op (instr.Cmp v w) places) }
    ensures condition { (k : Cond) (v a b : VarId) (places : _) →
        IsCarried (Op (instr.CmpSet k v a b) places) }
    ensures divide { (q r a d : VarId) (places : _) →
        IsCarried (Op (instr.DivMod q r a d) places) }
    ensures negate { (v : VarId) (places : _) → IsCarried (Op (instr.Neg v) places) }
    ensures shift { (op : ShiftOp) (v : VarId) (n : ℕ) (places : _) →
        IsCarried (Op (instr.Shift op v n) places) }
{}

/// The same of what is written and read. Where no input is left, both trap.
pub fn telling_is_carried()
    ensures write { (v : VarId) (places : _) → IsCarried (Op (instr.Write v) places) }
    ensures line { (places : _) → IsCarried (Op instr.Line places) }
    ensures read { (v : VarId) (places : _) → IsCarried (Op (instr.Read v) places) }
{}

/// The same of pushes and calls. A call leads behind the first instructions of its callee, or both
/// trap, since the frame does not fit.
pub fn calls_are_carried()
    ensures push { (v : VarId) (places : _) → IsCarried (Op (instr.Push v) places) }
    ensures call { (q : ProcId) (places : _) → IsCarried (Op (instr.Call q) places) }
{}

/// The same of checks. Where one fails, both trap.
pub fn checks_are_carried()
    ensures index { (v : VarId) (n : ℤ) (places : _) → IsCarried (Op (instr.Check v n) places) }
    ensures positive { (v : VarId) (places : _) → IsCarried (Op (instr.CheckPos v) places) }
{}

/// The same of addresses of objects' words, of loads from there and of stores to there, where the
/// offset is a number of 32 bits.
pub fn addresses_are_carried()
    ensures locate { (v : VarId) (a : Addr) (places : _) → FitsSigned w32 a.offset →
        IsCarried (Op (instr.Addr v a) places) }
    ensures load { (v : VarId) (a : Addr) (places : _) → FitsSigned w32 a.offset →
        IsCarried (Op (instr.Load v a) places) }
    ensures store { (a : Addr) (v : VarId) (places : _) → FitsSigned w32 a.offset →
        IsCarried (Op (instr.Store a v) places) }
{}

/// The same of each end of a block. A return of the module's body is the end of the program.
pub fn ends_are_carried()
    ensures jump { (b : BlockId) → EndIsCarried (end.Jump b) }
    ensures branch { (c : Cond) (one other : BlockId) → EndIsCarried (end.Branch c one other) }
    ensures return_ { EndIsCarried end.Return }
{}

/// An image with the code's bytes begins with the call of the body. Its first steps lead to where
/// placed code starts.
pub fn start_is_represented()
    ensures { (procs : List LProc) (data_words : ℕ) → IsLoadable procs data_words →
        (image : Image) → image.code ≡ bytes_of_all (code_of procs) →
        image.data_words ≡ data_words → (input : List ℤ) → AreWords input →
        (k : ℕ) × Realizes procs (start procs data_words input)
        (ran (machine.start image input) k) }
{}

/// The loop of the machine clears the aggregates.
pub fn clearing_is_carried()
    ensures { (places : _) → IsCarried (Op instr.Clear places) }
{}

/// The machine carries the steps of valid placed code that is never stuck, from the loaded image
/// on, and never meets a fault. Code that may get stuck is followed until then.
pub fn image_follows()
    ensures carried { (procs : List LProc) (data_words : ℕ) → IsLoadable procs data_words →
        OffsetsFit procs → (image : Image) → image.code ≡ bytes_of_all (code_of procs) →
        image.data_words ≡ data_words → (input : List ℤ) → AreWords input →
        ((k : ℕ) → (lrun procs data_words input k).ending ≢ Some Wrong) →
        Carried (lrun procs data_words input) (progress image input) }
    ensures never_wrong { (procs : List LProc) (data_words : ℕ) → IsLoadable procs data_words →
        OffsetsFit procs → (image : Image) → image.code ≡ bytes_of_all (code_of procs) →
        image.data_words ≡ data_words → (input : List ℤ) → AreWords input →
        ((k : ℕ) → (lrun procs data_words input k).ending ≢ Some Wrong) →
        (m : ℕ) → (progress image input m).ending ≢ Some Wrong }
    ensures until { (procs : List LProc) (data_words : ℕ) → IsLoadable procs data_words →
        OffsetsFit procs → (image : Image) → image.code ≡ bytes_of_all (code_of procs) →
        image.data_words ≡ data_words → (input : List ℤ) → AreWords input →
        ReachesUntil Wrong (lrun procs data_words input) (progress image input) }
{}

/// The image that the assembler makes of valid placed code does what the code does, on each input
/// on which the code is never stuck: it carries each step, never meets a fault, ends as the code
/// ends, and goes on for ever where the code does. On any input it follows the code until that gets
/// stuck.
pub fn listed_code_follows()
    ensures carried { (procs : List LProc) (data_words : ℕ) (image : Image) →
        IsLoaded procs data_words image → (input : List ℤ) → AreWords input →
        ((k : ℕ) → (lrun procs data_words input k).ending ≢ Some Wrong) →
        Carried (lrun procs data_words input) (progress image input) }
    ensures never_wrong { (procs : List LProc) (data_words : ℕ) (image : Image) →
        IsLoaded procs data_words image → (input : List ℤ) → AreWords input →
        ((k : ℕ) → (lrun procs data_words input k).ending ≢ Some Wrong) →
        (m : ℕ) → (progress image input m).ending ≢ Some Wrong }
    ensures agrees { (procs : List LProc) (data_words : ℕ) (image : Image) →
        IsLoaded procs data_words image → (input : List ℤ) → AreWords input →
        ((k : ℕ) → (lrun procs data_words input k).ending ≢ Some Wrong) →
        Agree (lrun procs data_words input) (progress image input) }
    ensures until { (procs : List LProc) (data_words : ℕ) (image : Image) →
        IsLoaded procs data_words image → (input : List ℤ) → AreWords input →
        ReachesUntil Wrong (lrun procs data_words input) (progress image input) }
{}

/// Code with each kind of thing that the rules of valid placed code speak of can be loaded, and has
/// an image, so the premises of what is said here are not empty.
pub fn some_code_is_loadable()
    ensures loadable { (data_words : ℕ) → data_words ≤ max_data_words →
        IsLoadable sample data_words }
    ensures loaded { (data_words : ℕ) → data_words ≤ max_data_words →
        (image : Image) × IsLoaded sample data_words image }
{}
