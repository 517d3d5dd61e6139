// The laws of networks, flows and costs.

ghost use Rattle.std.specs.Prelude.{◌≡◌, ◌↔◌, ℕ, ◌<◌, ◌++◌, List, IsPermutation, sum_by, count_by};
ghost use Rattle.pra_base.specs.declared.code.VProc.{VProc};
ghost use Rattle.pra_base.specs.Places.{register_count};
ghost use Rattle.pra_base.specs.Valid.{IsSized};
ghost use Rattle.net_cost.specs.declared.weights.Weights.{Weights};
ghost use Rattle.net_form.specs.declared.net.Net.{Net};
ghost use Rattle.net_form.specs.declared.routes.Routes.{Routes};
ghost use Rattle.net_form.specs.declared.taken.Taken.{Taken};
ghost use Rattle.net_form.specs.Tables.{PlaceTables};
ghost use Rattle.net_form.specs.Examples.{write_constant, write_constant_net, set_add_write};
ghost use Rattle.net_form.specs.Examples.{set_add_write_net, set_add_write_cost};
ghost use Rattle.net_form.specs.Examples.{in_register_routes, in_memory_routes};
ghost use Rattle.net_cost.specs.Weights.{size_weights, speed_weights};
ghost use Rattle.net_form.specs.Network.{IsNetBy, IsNet};
ghost use Rattle.net_form.specs.Formed.{IsFormed};
ghost use Rattle.net_form.specs.Flow.{Edge, Conserves, flow, AreRoutes};
ghost use Rattle.net_form.specs.Admitted.{IsAdmitted, uses_bundle};
ghost use Rattle.net_form.specs.Bundles.{bundle_key, comes_to_bundle};
ghost use Rattle.net_form.specs.InUse.{StandsFor, UsesNothing, AreApart, UsesOnce, Takes, Releases};
ghost use Rattle.net_form.specs.Cost.{cost_by, cost_of, edge_cost, routes_cost};

/// Code has one network.
pub fn code_has_one_network()
    ensures { (tables : PlaceTables) (code : VProc) (m n : Net) →
        IsNetBy tables code m → IsNetBy tables code n → m ≡ n }
{}

/// The network of sized code is formed.
pub fn networks_are_formed()
    ensures { (tables : PlaceTables) (code : VProc) (net : Net) →
        IsNetBy tables code net → IsSized code → IsFormed net }
{}

/// A flow that is admitted has, in some order, the edges of routes, whose flow is admitted too.
pub fn admitted_flows_are_routes()
    ensures { (net : Net) (f : List Edge) → IsFormed net → IsAdmitted net f →
        (routes : Routes) × AreRoutes net routes × IsPermutation f (flow net routes) ×
        IsAdmitted net (flow net routes) }
{}

/// The flow of routes conserves.
pub fn routes_conserve()
    ensures { (net : Net) (routes : Routes) → IsFormed net → AreRoutes net routes →
        Conserves net.strands (flow net routes) }
{}

/// Routes cost what their flow costs, and a flow in another order costs the same.
pub fn routes_cost_their_flow()
    ensures routes { (tables : PlaceTables) (net : Net) (w : Weights) (routes : Routes) →
        AreRoutes net routes →
        routes_cost tables net w routes ≡ cost_by tables net w (flow net routes) }
    ensures order { (tables : PlaceTables) (net : Net) (w : Weights) (f g : List Edge) →
        IsPermutation f g → cost_by tables net w g ≡ cost_by tables net w f }
{}

/// A flow costs what its edges cost: each pays for its way and for the extras that it meets.
pub fn edges_cost_their_flow()
    ensures { (tables : PlaceTables) (net : Net) (w : Weights) (f : List Edge) →
        cost_by tables net w f ≡ sum_by (edge_cost tables net w) f }
{}

/// A register of a layer is one number: an edge uses it where it comes to a register and has that
/// number, so it is used as often, counted either way.
pub fn bundles_have_keys()
    ensures edge { (net : Net) (n r : ℕ) (e : Edge) → r < register_count →
        uses_bundle net n r e ≡ comes_to_bundle net (bundle_key n r) e }
    ensures flow { (net : Net) (n r : ℕ) (f : List Edge) → r < register_count →
        count_by (comes_to_bundle net (bundle_key n r)) f ≡ count_by (uses_bundle net n r) f }
{}

/// What is marked stands for a flow: edges use nothing of it exactly where no register of a layer
/// and no memory pair is used by both. Taking a path adds its edges, releasing one takes them away.
pub fn taken_stands_for_flows()
    ensures apart { (net : Net) (taken : Taken) (f g : List Edge) → StandsFor net taken g →
        UsesNothing net taken f ↔ AreApart net f g }
    ensures once { (net : Net) (f g : List Edge) →
        UsesOnce net (f ++ g) ↔ (UsesOnce net f × UsesOnce net g × AreApart net f g) }
    ensures takes { (net : Net) (old new : Taken) (f g : List Edge) → StandsFor net old g →
        UsesOnce net (f ++ g) → Takes net f old new → StandsFor net new (f ++ g) }
    ensures releases { (net : Net) (old new : Taken) (f g : List Edge) →
        StandsFor net old (f ++ g) → Releases net f old new → StandsFor net new g }
    ensures admitted { (net : Net) (f : List Edge) → IsAdmitted net f → UsesOnce net f }
{}

/// The network of a Write of a constant and an end of line.
pub fn network_write_constant()
    ensures { IsNet write_constant_net write_constant }
{}

/// The network of a Set, an Add of a constant and a Write, and what routes cost in it.
pub fn network_set_add_write()
    ensures network { IsNet set_add_write_net set_add_write }
    ensures register_size { set_add_write_cost size_weights in_register_routes ≡ 1 }
    ensures memory_size { set_add_write_cost size_weights in_memory_routes ≡ 7 }
    ensures memory_speed { set_add_write_cost speed_weights in_memory_routes ≡ 7 }
{}
