// Laws of emission. Each function is a law: its contract is the statement, and it does nothing.

ghost use Rattle.std.specs.Prelude.{◌≡◌, ◌≢◌, ℕ, ◌≤◌, List, [], pos, neg_ℤ, drop, slice_get, Some};
ghost use Rattle.std.specs.Prelude.{length, map, sum_by};
ghost use Rattle.ia_code.specs.DecodeTable.{bytes_of};
ghost use Rattle.ia_code.specs.Image.{max_code_bytes};
ghost use Rattle.ia_code.specs.declared.ins.Ins.TheVariants.{Jcc};
ghost use Rattle.pra_base.specs.declared.event.TrapKind.{TrapKind};
ghost use Rattle.pra_base.specs.declared.event.TrapKind.TheVariants.{Input};
ghost use Rattle.pra_base.specs.declared.ids.Cond.TheVariants.{Ne};
ghost use Rattle.pl_moves.specs.declared.transfer.Move.{Move};
ghost use Rattle.pl_moves.specs.Assignment.{Assigns};
ghost use Rattle.pl_moves.specs.Lengths.{move_bytes};
ghost use Rattle.pl_place.specs.declared.placed.LProc.{LProc};
ghost use Rattle.pl_place.specs.Behind.{Routed, MovesInto, pairs_at};
ghost use Rattle.pl_place.specs.Valid.{IsPlaced};
ghost use Rattle.ia_emit.specs.declared.item.Item.TheVariants.{Plain};
ghost use Rattle.ia_emit.specs.Operands.{IsSmall};
ghost use Rattle.ia_emit.specs.Carries.{framed, AreMoves};
ghost use Rattle.ia_emit.specs.Emission.{clear, emit_move, emit_proc};
ghost use Rattle.ia_emit.specs.Exchanges.{exchanges, rotation};
ghost use Rattle.ia_emit.specs.Code.{size, front, stub, stub_start, first_entry, StandsAt};
ghost use Rattle.ia_emit.specs.Code.{code_size};
ghost use Rattle.ia_emit.specs.Counts.{AreFew};
ghost use Rattle.ia_emit.specs.Sound.{EachSound};

/// The jump of the loop that clears aggregate words goes back over all that stands behind the first
/// instruction: 20 bytes.
pub fn clearing_repeats()
    ensures back { (p : LProc) → slice_get (clear p) 3 ≡ Some
        (Plain (Jcc Ne (neg_ℤ (pos (size (drop 1 (clear p))))))) }
    ensures bytes { (p : LProc) → size (drop 1 (clear p)) ≡ 20 }
{}

/// The first procedure begins where the front ends, and the code of each trap stands in it where
/// jumps to it go.
pub fn front_has_its_places()
    ensures entry { size front ≡ first_entry }
    ensures stubs { (trap : TrapKind) → trap ≢ Input → StandsAt front (stub_start trap)
        (stub trap) }
{}

/// What valid placed code becomes is in the table of bytes.
pub fn placed_code_is_sound()
    ensures { (p : LProc) → IsSmall p → IsPlaced p → EachSound (emit_proc p) }
{}

/// Of valid placed code, as many instructions and blocks as a module has at most are code that an
/// image holds.
pub fn code_fits()
    ensures { (procs : List LProc) → AreFew procs →
        ((k : ℕ) (p : LProc) → slice_get procs k ≡ Some p → IsPlaced p) →
        code_size procs ≤ max_code_bytes }
{}

/// The bytes of a move in the table are as many as placement counts for it, where the procedure is
/// near and where it is not.
pub fn moves_have_their_bytes()
    ensures each { (p : LProc) (m : Move) →
        length (bytes_of (emit_move p m)) ≡ move_bytes p.near m }
    ensures together { (p : LProc) (ms : List Move) →
        size (map (λ m. Plain (emit_move p m)) ms) ≡ sum_by (move_bytes p.near) ms }
{}

/// The places in moves are registers. Four exchanges of registers with other places come to nothing
/// among cells, and their bytes rotate EAX, ECX and EDI: they are the moves of no layer of placed
/// code, and their bytes of none into which nothing moves.
pub fn moves_are_between_registers()
    ensures nothing { Assigns exchanges [] }
    ensures rotation { (p : LProc) → map (emit_move p) exchanges ≡ map (emit_move p) rotation }
    ensures placed { (r : Routed) (b l : ℕ) → ¬ MovesInto r b l exchanges }
    ensures carried { (r : Routed) (b l : ℕ) → pairs_at r b l ≡ [] →
        ¬ AreMoves r b l (map (λ m. Plain (emit_move (framed r) m)) exchanges) }
{}
