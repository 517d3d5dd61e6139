// The laws of changes.

ghost use Rattle.std.specs.Prelude.{◌≡◌, ◌<◌, ◌++◌, ℕ, Bool, true, List, length, Some};
ghost use Rattle.std.specs.Prelude.{slice_get, IsPermutation};
ghost use Rattle.std.specs.List.{range_with_len};
ghost use Rattle.pra_base.specs.declared.ids.Place.{Place};
ghost use Rattle.pra_base.specs.declared.ids.Place.TheVariants.{Mem};
ghost use Rattle.net_cost.specs.declared.weights.Weights.{Weights};
ghost use Rattle.net_form.specs.declared.net.Net.{Net};
ghost use Rattle.net_form.specs.declared.prices.Prices.{Prices};
ghost use Rattle.net_form.specs.declared.routes.Ends.{Ends};
ghost use Rattle.net_form.specs.declared.routes.Plan.{Plan};
ghost use Rattle.net_form.specs.declared.routes.Routes.{Routes};
ghost use Rattle.net_form.specs.Admitted.{IsAdmitted};
ghost use Rattle.net_form.specs.Flow.{flow, AreRoutes};
ghost use Rattle.net_laws.specs.Built.{IsBuilt};
ghost use Rattle.net_form.specs.InUse.{AreApart};
ghost use Rattle.net_dual.specs.Paths.{Anywhere, IsPath, MayGo, path_in};
ghost use Rattle.al_laws.specs.Greedy.{IsOpen, MayEnd, group_ends};
ghost use Rattle.al_laws.specs.Laid.{AreLaid, plan_ends};
ghost use Rattle.al_laws.specs.Parts.{part, rest, only_strand, of_variable, with_path};
ghost use Rattle.al_laws.specs.Parts.{AgreeBut, ClearOf};
ghost use Rattle.al_laws.specs.Settled.{block_ends, tied_ends, NoneCheaper, NoneCheaperAt};
ghost use Rattle.al_laws.specs.Settled.{IsStrandSettled, IsVariableSettled, NothingFreed};

/// A flow has two parts, of some strands and of the others, and where it is admitted the one part
/// uses nothing of the other.
pub fn flows_have_two_parts()
    ensures whole { (net : Net) (mine : ℕ → Bool) (routes : Routes) → IsPermutation
        (flow net routes) (part net mine routes ++ rest net mine routes) }
    ensures apart { (net : Net) (mine : ℕ → Bool) (routes : Routes) →
        IsAdmitted net (flow net routes) →
        AreApart net (part net mine routes) (rest net mine routes) }
{}

/// A strand may take any path past the others that keeps its places at entry and exit.
pub fn one_path_may_change()
    ensures { (net : Net) (routes : Routes) (s : ℕ) (ps : List Place) → IsBuilt net →
        AreRoutes net routes → IsAdmitted net (flow net routes) → s < length net.strands →
        MayGo net (block_ends net routes s) (ClearOf net (rest net (only_strand s) routes)) s ps →
        IsAdmitted net (flow net (with_path routes s ps)) }
{}

/// The strands of a variable may take any paths past all others that are at one place wherever the
/// variable is tied: they are never in each other's way.
pub fn paths_of_a_variable_may_change()
    ensures { (net : Net) (routes new : Routes) (v : ℕ) (p : Place) → IsBuilt net →
        AreRoutes net routes → IsAdmitted net (flow net routes) → AreRoutes net new →
        AgreeBut (of_variable net v) new routes →
        ((s : ℕ) → s < length net.strands → of_variable net v s ≡ true → MayGo net
        (tied_ends net p s) (ClearOf net (rest net (of_variable net v) routes)) s (path_in new s)) →
        IsAdmitted net (flow net new) }
{}

/// A strand is settled where it has no cheaper way past the others, and a variable where at no
/// place its strands have cheaper ways in sum.
pub fn none_cheaper_is_settled()
    ensures strand { (net : Net) (w : Weights) (routes : Routes) (s : ℕ) → IsBuilt net →
        AreRoutes net routes → s < length net.strands → NoneCheaper net w routes s →
        IsStrandSettled net w routes s }
    ensures variable { (net : Net) (w : Weights) (routes : Routes) (v : ℕ) → IsBuilt net →
        AreRoutes net routes → ((p : Place) → NoneCheaperAt net w routes v p) →
        IsVariableSettled net w routes v }
{}

/// What is laid for a plan that has a place for each tie group, each strand once, is admitted.
pub fn laid_routes_are_admitted()
    ensures { (net : Net) (w : Weights) (prices : Prices) (plan : Plan) (order : List ℕ)
        (routes : Routes) → IsBuilt net → length plan.places ≡ net.groups →
        length routes.places ≡ length net.strands →
        IsPermutation (range_with_len 0 (length net.strands)) order →
        AreLaid net w prices plan order routes →
        AreRoutes net routes × IsAdmitted net (flow net routes) }
{}

/// Where a strand has a path at all it has one with any places of the masks at the entry and the
/// exit of its block. So the costs by which a plan is chosen are there for every open place, and
/// those by which strands are ordered for a plan of open places.
pub fn ends_may_be_anywhere()
    ensures path { (net : Net) (s : ℕ) (ps : List Place) (ends : Ends) → IsBuilt net →
        s < length net.strands → IsPath net s ps → MayEnd net s ends →
        (qs : List Place) × MayGo net ends Anywhere s qs }
    ensures group { (net : Net) (s : ℕ) (plan : Plan) (g : ℕ) (p : Place) → IsBuilt net →
        s < length net.strands → IsOpen net plan g p → MayEnd net s (group_ends net g p s) }
    ensures plan { (net : Net) (s : ℕ) (plan : Plan) → IsBuilt net → s < length net.strands →
        ((g : ℕ) (p : Place) → slice_get plan.places g ≡ Some p → IsOpen net plan g p) →
        MayEnd net s (plan_ends net plan s) }
{}

/// Each strand of a built network has a path, and memory is open to every tie group.
pub fn strands_have_paths()
    ensures path { (net : Net) (s : ℕ) → IsBuilt net → s < length net.strands →
        (ps : List Place) × IsPath net s ps }
    ensures memory { (net : Net) (plan : Plan) (g : ℕ) → IsBuilt net → IsOpen net plan g Mem }
{}

/// A strand that has no cheaper way past the others has none after they change, if nothing that it
/// could use came free; and so for a variable, whose strands are asked again only then.
pub fn who_is_settled_stays_so()
    ensures strand { (net : Net) (w : Weights) (routes new : Routes) (s : ℕ) →
        path_in new s ≡ path_in routes s →
        NothingFreed net s (rest net (only_strand s) routes) (rest net (only_strand s) new) →
        NoneCheaper net w routes s → NoneCheaper net w new s }
    ensures variable { (net : Net) (w : Weights) (routes new : Routes) (v : ℕ) (p : Place) →
        ((s : ℕ) → s < length net.strands → of_variable net v s ≡ true →
        path_in new s ≡ path_in routes s) →
        ((s : ℕ) → s < length net.strands → of_variable net v s ≡ true → NothingFreed net s
        (rest net (of_variable net v) routes) (rest net (of_variable net v) new)) →
        NoneCheaperAt net w routes v p → NoneCheaperAt net w new v p }
{}
