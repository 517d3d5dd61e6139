// The laws of rounds.

ghost use Rattle.std.specs.Prelude.{◌≡◌, ◌≤◌, ℕ, ℤ, List, length, Some, slice_get};
ghost use Rattle.net_cost.specs.declared.weights.Weights.{Weights};
ghost use Rattle.net_form.specs.declared.net.Net.{Net};
ghost use Rattle.net_form.specs.declared.prices.Line.{Line};
ghost use Rattle.net_form.specs.declared.prices.Prices.{Prices};
ghost use Rattle.net_form.specs.declared.routes.Routes.{Routes};
ghost use Rattle.net_form.specs.Admitted.{IsAdmitted};
ghost use Rattle.net_form.specs.Cost.{cost_of};
ghost use Rattle.net_form.specs.Flow.{Edge};
ghost use Rattle.net_form.specs.Formed.{IsFormed};
ghost use Rattle.net_dual.specs.Priced.{AreInRange, cost_by_weights};
ghost use Rattle.net_dual.specs.Step.{IsChain};
ghost use Rattle.net_dual.specs.Value.{IsValue, IsFreeBound};
ghost use Rattle.al_round.specs.Ascents.{IsAscent};
ghost use Rattle.al_round.specs.Lines.{AreLines};
ghost use Rattle.al_round.specs.Stages.{Stage, AreStages, IsRoundedUp, IsBest, chain_of, ascent_of};

/// A value in whole units, rounded up, is no more than what any admitted flow costs, also if the
/// prices are the best of so many rounds, raised ones among them.
pub fn bounds_hold()
    ensures value { (net : Net) (w : Weights) (prices : Prices) (family : Routes) (z : ℤ) (b : ℕ)
        (f : List Edge) → IsFormed net → AreInRange net prices →
        IsValue net (cost_by_weights net w) prices family z → IsRoundedUp z b →
        IsAdmitted net f → b ≤ cost_of net w f }
    ensures best { (net : Net) (w : Weights) (stages : List Stage) (k : ℕ) (prices : Prices) (b : ℕ)
        (f : List Edge) → IsFormed net → AreStages net w stages → IsBest stages k prices b →
        IsAdmitted net f → b ≤ cost_of net w f }
{}

/// Nor is the bound of a round less than what strands cost at least, each alone.
pub fn bounds_are_above_the_free_bound()
    ensures best { (net : Net) (w : Weights) (stages : List Stage) (k : ℕ) (prices : Prices) (b : ℕ)
        (free : ℕ) → AreStages net w stages → IsBest stages k prices b →
        IsFreeBound net w free → free ≤ b }
    ensures lines { (net : Net) (w : Weights) (stages : List Stage) (lines : List Line) (k : ℕ)
        (line : Line) (free : ℕ) → AreStages net w stages → AreLines net w stages lines →
        slice_get lines k ≡ Some line → IsFreeBound net w free → free ≤ line.bound }
{}

/// The prices of rounds are those of nothing, and each next one the step of its round after those
/// before it.
pub fn prices_are_a_chain()
    ensures { (net : Net) (w : Weights) (stages : List Stage) → AreStages net w stages →
        1 ≤ length stages → IsChain net w (chain_of stages) }
{}

/// The raised prices of rounds are those of nothing, and each next ones are raised from those
/// before them.
pub fn raised_prices_are_an_ascent()
    ensures { (net : Net) (w : Weights) (stages : List Stage) → AreStages net w stages →
        1 ≤ length stages → IsAscent net w (ascent_of stages) }
{}
