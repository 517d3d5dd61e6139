// What holds of an image that was assembled. Each function is a law: its contract is the statement,
// and it does nothing.

ghost use Rattle.std.specs.Prelude.{◌≡◌, ℕ, ◌+◌, ◌≤◌, List, ◌∷◌, ◌++◌, length, slice_get, Some};
ghost use Rattle.std.specs.List.{sum_by};
ghost use Rattle.ia_asm.specs.declared.assembly.Assembly.{Assembly};
ghost use Rattle.ia_asm.specs.Assembly.{IsAssembly, CanAssemble, IsImageOf};
ghost use Rattle.ia_carries.specs.Faithful.{AreSmall, AreBehind, IsFaithful};
ghost use Rattle.ia_code.specs.declared.image.Image.{Image};
ghost use Rattle.ia_code.specs.Image.{max_code_bytes};
ghost use Rattle.ia_emit.specs.Code.{size};
ghost use Rattle.ia_emit.specs.Counts.{instruction_count, AreFew};
ghost use Rattle.ia_emit.specs.Emission.{emit_proc};
ghost use Rattle.ia_emit.specs.Operands.{IsSmall};
ghost use Rattle.pl_place.specs.declared.placed.LProc.{LProc};
ghost use Rattle.pl_place.specs.Behind.{Routed, IsBehind};
ghost use Rattle.pl_place.specs.Valid.{ArePlaced, IsPlaced};
ghost use Rattle.pra_base.specs.Valid.{IsSized, instruction_count as count_of};

/// The image that the assembler makes of valid placed code is valid, does what the code does until
/// that gets stuck, if ever, and carries the code and the flow that stand behind each procedure.
pub fn assembled_code_is_faithful()
    ensures { (procs : List LProc) (data_words : ℕ) (image : Image) →
        ArePlaced procs → AreSmall procs → IsImageOf procs data_words image →
        IsFaithful procs data_words image }
{}

/// Code and flow that stand behind placed code, within the limits of a procedure and of a module,
/// keep it within those of the assembler: it has their instructions and blocks, and no more slots
/// than they have variables.
pub fn code_behind_has_limits()
    ensures small { (r : Routed) (p : LProc) → IsBehind r p → IsSized r.code → IsSmall p }
    ensures instructions { (r : Routed) (p : LProc) → IsBehind r p →
        instruction_count p ≡ count_of r.code.blocks }
    ensures few { (routed : List Routed) (procs : List LProc) → AreBehind routed procs →
        sum_by (λ (r : Routed). count_of r.code.blocks) routed ≤ 262401 →
        sum_by (λ (r : Routed). length r.code.blocks) routed ≤ 131586 → AreFew procs }
{}

/// Code of as many instructions and blocks as a module has at most can be assembled, at once and
/// one procedure after the other.
pub fn code_has_room()
    ensures at_once { (procs : List LProc) → ArePlaced procs → AreSmall procs → AreFew procs →
        CanAssemble procs }
    ensures one_more { (procs : List LProc) (p : LProc) (rest : List LProc) →
        ((k : ℕ) (x : LProc) → slice_get (procs ++ p ∷ rest) k ≡ Some x → IsPlaced x) →
        AreFew (procs ++ p ∷ rest) →
        (data_words : ℕ) (a : Assembly) → IsAssembly procs data_words a →
        length a.code.items + size (emit_proc p) ≤ max_code_bytes }
{}
