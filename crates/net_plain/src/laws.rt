// The law by which two exact bodies answer the same.

ghost use Rattle.std.specs.Prelude.{◌≡◌, ℕ, ℤ, List};
ghost use Rattle.pra_base.specs.declared.ids.Place.{Place};
ghost use Rattle.net_cost.specs.declared.weights.Weights.{Weights};
ghost use Rattle.net_form.specs.declared.net.Net.{Net};
ghost use Rattle.net_form.specs.declared.prices.Prices.{Prices};
ghost use Rattle.net_form.specs.declared.routes.Ends.{Ends};
ghost use Rattle.net_form.specs.declared.taken.Taken.{Taken};
ghost use Rattle.net_form.specs.InUse.{UsesNothing};
ghost use Rattle.net_dual.specs.Priced.{edge_price};
ghost use Rattle.net_dual.specs.Paths.{IsLeast, IsLeastCost, path_price};

/// A least path, as the search of net_path finds one, costs what is the least cost.
pub fn least_costs_are_one()
    ensures { (net : Net) (w : Weights) (prices : Prices) (ends : Ends) (taken : Taken) (s : ℕ)
        (ps : List Place) (z : ℤ) →
        IsLeast net (edge_price net w prices) ends (UsesNothing net taken) s ps →
        IsLeastCost net (edge_price net w prices) ends (UsesNothing net taken) s z →
        path_price net (edge_price net w prices) s ps ≡ z }
{}
