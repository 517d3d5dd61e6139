// The laws of prices, least paths and the bound.

ghost use Rattle.std.specs.Prelude.{◌≡◌, ◌<◌, ◌≤◌, ◌*◌, ◌↔◌, ℕ, ℤ, pos, ◌≤ℤ◌, List, Some, length};
ghost use Rattle.std.specs.Prelude.{map, slice_get};
ghost use Rattle.std.specs.List.{range_with_len};
ghost use Rattle.net_cost.specs.declared.weights.Weights.{Weights};
ghost use Rattle.pra_base.specs.declared.ids.Place.{Place};
ghost use Rattle.net_cost.specs.Weights.{IsValid, size_weights};
ghost use Rattle.net_form.specs.declared.net.Net.{Net};
ghost use Rattle.net_form.specs.declared.prices.Prices.{Prices};
ghost use Rattle.net_form.specs.declared.routes.Routes.{Routes};
ghost use Rattle.net_form.specs.Flow.{Edge, AreRoutes};
ghost use Rattle.net_form.specs.Admitted.{IsAdmitted};
ghost use Rattle.net_form.specs.Cost.{cost_of};
ghost use Rattle.net_form.specs.Examples.{set_add_write_net};
ghost use Rattle.net_form.specs.Formed.{IsFormed, most_layers};
ghost use Rattle.net_form.specs.Rooms.{zero_prices, tie_numbers};
ghost use Rattle.net_laws.specs.Built.{IsBuilt};
ghost use Rattle.net_dual.specs.Paths.{IsPath, AreLeast, path_price};
ghost use Rattle.net_dual.specs.Priced.{AreInRange, edge_price, tie_slot};
ghost use Rattle.net_dual.specs.Small.{IsWithin, most_sum};
ghost use Rattle.net_dual.specs.Step.{tied_places, IsNext, IsChain};
ghost use Rattle.net_dual.specs.Value.{IsLagrange, IsFreeBound};

/// The law of duality: whatever the prices, no admitted flow costs less than the value. A flow is
/// any list of edges, and prices are in units of 1/1024.
pub fn duality()
    ensures { (net : Net) (w : Weights) (prices : Prices) (z : ℤ) (f : List Edge) →
        IsFormed net → AreInRange net prices → IsLagrange net w prices z → IsAdmitted net f →
        z ≤ℤ pos (1024 * cost_of net w f) }
{}

/// There is one value of a network at prices.
pub fn networks_have_one_value()
    ensures { (net : Net) (w : Weights) (prices : Prices) (y z : ℤ) →
        IsLagrange net w prices y → IsLagrange net w prices z → y ≡ z }
{}

/// At prices of nothing the value is what strands cost at least, each alone.
pub fn free_bound_is_the_value()
    ensures same { (net : Net) (w : Weights) (bound : ℕ) → IsFreeBound net w bound ↔
        IsLagrange net w (zero_prices net) (pos (1024 * bound)) }
    ensures value { (net : Net) (w : Weights) (bound : ℕ) (z : ℤ) → IsFreeBound net w bound →
        IsLagrange net w (zero_prices net) z → z ≡ pos (1024 * bound) }
{}

/// What a path costs in a built network fits 64 bits with room to spare, whatever the prices: a
/// whole path, and as many layers as the greatest procedure has.
pub fn priced_sums_are_small()
    ensures path { (net : Net) (w : Weights) (prices : Prices) (s : ℕ) (ps : List Place) →
        IsBuilt net → IsValid w → AreInRange net prices → s < length net.strands →
        IsPath net s ps → IsWithin most_sum (path_price net (edge_price net w prices) s ps) }
    ensures part { (net : Net) (w : Weights) (prices : Prices) (s : ℕ) (ps : List Place) →
        IsBuilt net → IsValid w → AreInRange net prices → length ps ≤ most_layers →
        IsWithin most_sum (path_price net (edge_price net w prices) s ps) }
{}

/// Prices of nothing are within the ranges of prices, with an entry for all that has a price; a
/// step leaves them within; and so are all prices of a chain of rounds.
pub fn prices_stay_in_range()
    ensures zero { (net : Net) → AreInRange net (zero_prices net) }
    ensures step { (net : Net) (family : Routes) (k : ℕ) (old new : Prices) →
        AreInRange net old → IsNext net family k old new → AreInRange net new }
    ensures chain { (net : Net) (w : Weights) (chain : List Prices) (k : ℕ) (prices : Prices) →
        IsChain net w chain → slice_get chain k ≡ Some prices → AreInRange net prices }
{}

/// A least path for each strand is routes.
pub fn least_families_are_routes()
    ensures { (net : Net) (price : Edge → ℤ) (family : Routes) →
        AreLeast net price family → AreRoutes net family }
{}

/// The numbers that ties have for places are their numbers in the order of these places.
pub fn ties_number_places()
    ensures { map tie_slot tied_places ≡ map Some (range_with_len 0 tie_numbers) }
{}

/// What the strands of a Set, an Add of a constant and a Write cost at least: the immediate alone.
pub fn value_of_set_add_write()
    ensures bound { IsFreeBound set_add_write_net size_weights 1 }
    ensures value { IsLagrange set_add_write_net size_weights (zero_prices set_add_write_net)
        (pos 1024) }
{}
