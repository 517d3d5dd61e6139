// The laws of plans.

ghost use Rattle.std.specs.Prelude.{◌≡◌, ◌≢◌, ◌<◌, ℕ, false, length, slice_get, Some, IsTrue};
ghost use Rattle.pra_base.specs.declared.ids.Place.{Place};
ghost use Rattle.pra_base.specs.Places.{number, allows};
ghost use Rattle.net_cost.specs.declared.weights.Weights.{Weights};
ghost use Rattle.net_form.specs.declared.net.Net.{Net};
ghost use Rattle.net_form.specs.declared.prices.Prices.{Prices};
ghost use Rattle.net_form.specs.declared.routes.Plan.{Plan};
ghost use Rattle.net_form.specs.Admitted.{strand_at};
ghost use Rattle.net_laws.specs.Homes.{mask_in};
ghost use Rattle.al_laws.specs.Greedy.{IsEnd, IsGreedy, clash};
ghost use Rattle.al_laws.specs.Parts.{layer_at};

/// In a greedy plan a group is at a place in the masks of its ends, and no two groups that have
/// ends at one layer are in one register there. A both place counts as its register.
pub fn groups_are_apart()
    ensures masks { (net : Net) (w : Weights) (prices : Prices) (plan : Plan) (g s l : ℕ)
        (p : Place) → IsGreedy net w prices plan → slice_get plan.places g ≡ Some p →
        s < length net.strands → IsEnd net g s l →
        IsTrue (allows (mask_in (strand_at net s) l) (number p)) }
    ensures registers { (net : Net) (w : Weights) (prices : Prices) (plan : Plan) (g h s r l k : ℕ)
        (p q : Place) → IsGreedy net w prices plan → g ≢ h → slice_get plan.places g ≡ Some p →
        slice_get plan.places h ≡ Some q → s < length net.strands → r < length net.strands →
        IsEnd net g s l → IsEnd net h r k → layer_at net s l ≡ layer_at net r k →
        clash p q ≡ false }
{}
