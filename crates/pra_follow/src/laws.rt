// What holds of valid code that was placed, and of the code of a module. Each function is a law: its
// contract is the statement, and it does nothing.

ghost use Rattle.std.specs.Prelude.{◌≡◌, ℕ, ℤ, ◌+◌, ◌*◌, ◌≤◌, true, List, [], ◌∷◌, map};
ghost use Rattle.std.specs.Prelude.{slice_get, sum_by, Some};
ghost use Rattle.ia_asm.specs.Assembly.{IsImageOf};
ghost use Rattle.ia_code.specs.declared.image.Image.{Image};
ghost use Rattle.ia_code.specs.Image.{max_code_bytes};
ghost use Rattle.ia_emit.specs.Code.{code_size};
ghost use Rattle.ia_emit.specs.Counts.{AreFew};
ghost use Rattle.ia_emit.specs.Operands.{IsSmall};
ghost use Rattle.ob_mean.specs.Program.{mean};
ghost use Rattle.ob_syntax.specs.declared.checked.Checked.{Checked};
ghost use Rattle.ob_syntax.specs.declared.checked.CheckedProc.{CheckedProc};
ghost use Rattle.pl_place.specs.Valid.{IsPlaced};
ghost use Rattle.pra_base.specs.Agreement.{Carried};
ghost use Rattle.pra_base.specs.declared.code.VModule.{VModule};
ghost use Rattle.pra_base.specs.declared.code.VProc.{VProc};
ghost use Rattle.pra_base.specs.Valid.{AreValid};
ghost use Rattle.pra_follow.specs.Codes.{Carriage, IsCarriage, AreCarriages, FollowsCodes};
ghost use Rattle.pra_follow.specs.Codes.{FollowsUntilStuck};
ghost use Rattle.pra_follow.specs.Follows.{DoesAsMeant, with_data};
ghost use Rattle.pra_follow.specs.Tidied.{IsCodeOf, IsTidied, AreTidied};
ghost use Rattle.vc_code.specs.Selected.{vrun, RunsWell};
ghost use Rattle.vc_checked.specs.Short.{IsShort};
ghost use Rattle.vc_stmt.specs.Completes.{are_words};
ghost use Rattle.vc_typed.specs.TypedModules.{scalar_locals, IsLimited, IsSelectable};

/// Whatever valid code was placed, with any admitted routes, an image that was assembled of the
/// placed code follows it, on each input of words, until it gets stuck, and carries the codes and
/// the flows.
pub fn placed_codes_are_followed()
    ensures { (module_ : VModule) (cs : List Carriage) (image : Image) →
        AreValid module_.procs → map (λ (c : Carriage). c.code) cs ≡ module_.procs →
        AreCarriages cs →
        IsImageOf (map (λ (c : Carriage). c.placed) cs) module_.data_words image →
        FollowsCodes module_ cs image }
{}

/// The assembler takes the placed code of each code.
pub fn placed_codes_can_be_assembled()
    ensures placed { (c : Carriage) → IsCarriage c → IsPlaced c.placed }
    ensures small { (c : Carriage) → IsCarriage c → IsSmall c.placed }
    ensures few { (c : Carriage) → IsCarriage c → AreFew (c.placed ∷ []) }
{}

/// Tidy code in the place of what selection answers for a procedure is valid alone and in its module,
/// with the counts and the depths that selection keeps; and the codes of all procedures are valid
/// together.
pub fn tidied_code_is_of_its_module()
    ensures one { (program : Checked) (p : ℕ) (proc : CheckedProc) (code : VProc) →
        IsTidied program p code → slice_get program.procs p ≡ Some proc →
        IsCodeOf program p proc code }
    ensures all { (program : Checked) (codes : List VProc) → IsSelectable program →
        AreTidied program codes → AreValid codes }
{}

/// Such codes do what the module means, on each input of words, and are never stuck.
pub fn tidied_codes_do_as_meant()
    ensures carried { (program : Checked) (codes : List VProc) (frames : List ℕ)
        (input : List ℤ) → IsSelectable program → AreTidied program codes →
        are_words input ≡ true →
        Carried (mean program frames input) (vrun (with_data program codes) frames input) }
    ensures well { (program : Checked) (codes : List VProc) (frames : List ℕ)
        (input : List ℤ) → IsSelectable program → AreTidied program codes →
        are_words input ≡ true → RunsWell (with_data program codes) frames input }
{}

/// So an image that follows them until they get stuck does what the module means.
pub fn followers_do_as_meant()
    ensures { (program : Checked) (codes : List VProc) (frames : List ℕ) (input : List ℤ)
        (image : Image) → IsSelectable program → AreTidied program codes →
        are_words input ≡ true →
        FollowsUntilStuck (with_data program codes) frames image input →
        DoesAsMeant program frames image input }
{}

/// A module of the size of a source has little code: with at most 4 instructions a node, one more a
/// scalar local and one more, and at most 2 blocks a node and 2 more in each procedure.
pub fn short_modules_have_little_code()
    ensures instructions { (program : Checked) → IsLimited program → IsShort program →
        sum_by (λ (proc : CheckedProc). 4 * proc.nodes + scalar_locals proc + 1) program.procs
        ≤ 262401 }
    ensures blocks { (program : Checked) → IsLimited program → IsShort program →
        sum_by (λ (proc : CheckedProc). 2 * proc.nodes + 2) program.procs ≤ 131586 }
{}

/// An image has room for the placed code of a short module, whatever routes that has.
pub fn short_modules_fit_an_image()
    ensures { (program : Checked) (codes : List VProc) (cs : List Carriage) → IsLimited program →
        IsShort program → AreTidied program codes → AreCarriages cs →
        map (λ (c : Carriage). c.code) cs ≡ codes →
        code_size (map (λ (c : Carriage). c.placed) cs) ≤ max_code_bytes }
{}
