// What follows from the definitions, each law a function whose contract is its statement.

ghost use Rattle.std.specs.Prelude.{◌≡◌, ◌≢◌, ℕ, ◌+◌, ◌<◌, ◌≤◌, List, [], ◌∷◌, Some, None};
ghost use Rattle.std.specs.Prelude.{length, true};
ghost use Rattle.pra_base.specs.Words.{word};
ghost use Rattle.ob_syntax.specs.declared.checked.Checked.{Checked};
ghost use Rattle.ob_syntax.specs.declared.checked.CheckedProc.{CheckedProc};
ghost use Rattle.ob_syntax.specs.declared.checked.Param.{Param};
ghost use Rattle.ob_syntax.specs.declared.checked.Root.TheVariants as root;
ghost use Rattle.ob_syntax.specs.declared.checked.Shape.{Shape};
ghost use Rattle.ob_syntax.specs.declared.checked.Value.{Value as SourceValue};
ghost use Rattle.ob_syntax.specs.Operators.{number};
ghost use Rattle.ob_syntax.specs.Storage.{type_words};
ghost use Rattle.ob_syntax.specs.WellFormed.{is_scalar};
ghost use Rattle.ob_mean.specs.declared.store.LiveCall.{LiveCall};
ghost use Rattle.ob_mean.specs.declared.store.Location.{Location};
ghost use Rattle.ob_mean.specs.declared.store.Object.TheVariants as source;
ghost use Rattle.ob_mean.specs.Designators.{depth, root_location};
ghost use Rattle.ob_mean.specs.Store.{Store, assigned};
ghost use Rattle.vc_code.specs.declared.value.Object.{Object};
ghost use Rattle.vc_code.specs.declared.value.Object.TheVariants.{Data, Aggregates, Cell};
ghost use Rattle.vc_code.specs.declared.value.Value.{Value};
ghost use Rattle.vc_code.specs.declared.value.Value.TheVariants.{Num, At};
ghost use Rattle.vc_code.specs.Value.{Held};
ghost use Rattle.vc_code.specs.Machine.{Activation, State, with_object, returned};
ghost use Rattle.vc_code.specs.Selected.{Vars};
ghost use Rattle.vc_relation.specs.Homes.{param_variable};
ghost use Rattle.vc_relation.specs.Layout.{Part, part_in, words_before, part_along};
ghost use Rattle.vc_relation.specs.Layout.{TypesInOrder, IsLaidOut};
ghost use Rattle.vc_relation.specs.Spots.{Spot, InVariable, InWord, Placed, placed_at};
ghost use Rattle.vc_relation.specs.Spots.{IsBelow, param_of, placed};
ghost use Rattle.vc_relation.specs.Relation.{SelectedModule, shapes_of, content, is_of_type};
ghost use Rattle.vc_relation.specs.Relation.{IsAddressOf, Represents, SameButVariables, held_at};
ghost use Rattle.vc_relation.specs.Relation.{homes_of};
ghost use Rattle.vc_relation.specs.Sample.{sample, at, in_call, sample_frames};

/// The part to which a path leads lies within the variable.
pub fn parts_lie_within()
    ensures { (shapes : List Shape) (type_id : ℕ) (path : List ℕ) (part : Part) →
        TypesInOrder shapes → type_id < length shapes → part_along shapes type_id path ≡ Some part →
        part.word + type_words shapes part.type_id ≤ type_words shapes type_id }
{}

/// Fields or elements of one variable have no word in common.
pub fn parts_have_no_word_in_common()
    ensures { (shapes : List Shape) (shape : Shape) (j k one other : ℕ) → j < k →
        part_in shape j ≡ Some one → part_in shape k ≡ Some other →
        words_before shapes shape j + type_words shapes one ≤ words_before shapes shape k }
{}

/// Two scalars that begin at one word of a variable are one part of it.
pub fn a_word_is_of_one_scalar()
    ensures { (shapes : List Shape) (type_id : ℕ) (one other : List ℕ) (p q : Part) →
        TypesInOrder shapes → type_id < length shapes →
        part_along shapes type_id one ≡ Some p → part_along shapes type_id other ≡ Some q →
        is_scalar p.type_id ≡ true → is_scalar q.type_id ≡ true → p.word ≡ q.word → one ≡ other }
{}

/// Two scalar locations never have one spot.
pub fn locations_have_spots_of_their_own()
    ensures { (program : Checked) (frames : List ℕ) (calls : List LiveCall) (l m : Location)
        (x y : Placed) → IsLaidOut program →
        placed program frames calls l ≡ Some x → placed program frames calls m ≡ Some y →
        is_scalar x.type_id ≡ true → is_scalar y.type_id ≡ true → x.spot ≡ y.spot → l ≡ m }
{}

/// A word of an object that is written holds what was written, and every other spot what it held.
pub fn a_write_is_to_one_spot()
    ensures there { (t : SelectedModule) (s : State Vars) (x : Object) (w : ℕ) (old : Value)
        (h : Held) → content t s (InWord x w) ≡ Some old →
        content t (with_object (shapes_of t) s x w h) (InWord x w) ≡ h }
    ensures others { (t : SelectedModule) (s : State Vars) (x : Object) (w : ℕ) (old : Value)
        (h : Held) (spot : Spot) → content t s (InWord x w) ≡ Some old → spot ≢ InWord x w →
        content t (with_object (shapes_of t) s x w h) spot ≡ content t s spot }
{}

/// An assignment to a location in a word of an object is a write to this word.
pub fn assignment_to_a_word()
    ensures { (t : SelectedModule) (calls : List LiveCall) (store : Store) (s : State Vars)
        (l : Location) (x : Object) (w type_id : ℕ) (v : SourceValue) →
        IsLaidOut t.program → Represents t calls store s →
        placed t.program t.frames calls l ≡ Some (placed_at (InWord x w) type_id) →
        is_scalar type_id ≡ true → is_of_type type_id (number v) ≡ true →
        Represents t calls (assigned store l v)
        (with_object (shapes_of t) s x w (Some (Num (word (number v))))) }
{}

/// An assignment to a location in a variable of the running call is a write to this variable.
pub fn assignment_to_a_variable()
    ensures { (t : SelectedModule) (calls : List LiveCall) (store : Store) (old new : State Vars)
        (l : Location) (variable type_id : ℕ) (v : SourceValue) →
        IsLaidOut t.program → Represents t calls store old →
        placed t.program t.frames calls l
        ≡ Some (placed_at (InVariable (depth calls) variable) type_id) →
        is_scalar type_id ≡ true → is_of_type type_id (number v) ≡ true → SameButVariables old new →
        held_at new variable ≡ Some (Num (word (number v))) →
        ((u : ℕ) → u < homes_of t old → u ≢ variable → held_at new u ≡ held_at old u) →
        Represents t calls (assigned store l v) new }
{}

/// Variables that are no homes make no difference.
pub fn temporaries_are_free()
    ensures { (t : SelectedModule) (calls : List LiveCall) (store : Store) (old new : State Vars) →
        IsLaidOut t.program → Represents t calls store old → SameButVariables old new →
        ((u : ℕ) → u < homes_of t old → held_at new u ≡ held_at old u) →
        Represents t calls store new }
{}

/// When a call returns, the calls below it have what the store has of them.
pub fn a_return_keeps_the_relation()
    ensures { (t : SelectedModule) (call : LiveCall) (calls : List LiveCall) (store : Store)
        (s : State Vars) (c : Activation Vars) (rest : List (Activation Vars)) →
        IsLaidOut t.program → Represents t (call ∷ calls) store s → s.below ≡ c ∷ rest →
        Represents t calls store (returned s (c ∷ rest)) }
{}

/// The variable of a VAR parameter of the running call has the address of the location that it
/// names: a word of the module's data or of a call below.
pub fn var_parameters_have_addresses()
    ensures named { (t : SelectedModule) (call : LiveCall) (below : List LiveCall) (store : Store)
        (s : State Vars) (k : ℕ) (proc : CheckedProc) (param : Param) →
        Represents t (call ∷ below) store s →
        param_of t.program call k ≡ Some (proc, param) → param.by_var ≡ true →
        IsAddressOf t (call ∷ below) (root_location (call ∷ below) (root.Param k)) param.type_id
        (held_at s (param_variable proc k)) }
    ensures below { (t : SelectedModule) (call : LiveCall) (below : List LiveCall) (store : Store)
        (s : State Vars) (k : ℕ) (proc : CheckedProc) (param : Param) (x : Object) (byte : ℕ) →
        Represents t (call ∷ below) store s →
        param_of t.program call k ≡ Some (proc, param) → param.by_var ≡ true →
        held_at s (param_variable proc k) ≡ Some (At x byte) → IsBelow (length below) x }
{}

/// Where the variables of a module with each kind of them are.
pub fn locations_of_a_module()
    ensures laid { IsLaidOut sample }
    ensures element { placed sample sample_frames in_call (at (source.Module 1) (2 ∷ 1 ∷ []))
        ≡ Some (placed_at (InWord Data 6) 0) }
    ensures lent { placed sample sample_frames in_call (root_location in_call (root.Param 0))
        ≡ Some (placed_at (InWord Data 4) 0) }
    ensures no_object { placed sample sample_frames in_call (at (source.Param 2 0) []) ≡ None }
    ensures value { placed sample sample_frames in_call (at (source.Param 2 1) [])
        ≡ Some (placed_at (InVariable 2 1) 0) }
    ensures argument { placed sample sample_frames in_call (at (source.Param 2 2) [])
        ≡ Some (placed_at (InWord (Cell 1 20 2) 0) 0) }
    ensures local { placed sample sample_frames in_call (at (source.Local 2 0) [])
        ≡ Some (placed_at (InVariable 2 2) 0) }
    ensures field { placed sample sample_frames in_call (at (source.Local 2 1) (1 ∷ []))
        ≡ Some (placed_at (InWord (Aggregates 1 68) 1) 0) }
    ensures addressed { placed sample sample_frames in_call (at (source.Local 2 2) [])
        ≡ Some (placed_at (InWord (Aggregates 1 68) 2) 0) }
{}
