// The laws of the networks of valid code.

ghost use Rattle.std.specs.Prelude.{◌≡◌, List};
ghost use Rattle.pra_base.specs.declared.code.VProc.{VProc};
ghost use Rattle.pra_base.specs.Valid.{IsValid, IsSized};
ghost use Rattle.net_form.specs.declared.net.Net.{Net};
ghost use Rattle.net_cost.specs.declared.weights.Weights.{Weights};
ghost use Rattle.net_form.specs.Admitted.{IsAdmitted};
ghost use Rattle.net_form.specs.Cost.{cost_by, cost_of};
ghost use Rattle.net_form.specs.EightTables.{eight_tables};
ghost use Rattle.net_form.specs.Flow.{Edge};
ghost use Rattle.net_form.specs.Network.{IsNet, IsNetBy};
ghost use Rattle.net_form.specs.Tables.{PlaceTables};
ghost use Rattle.net_laws.specs.Built.{IsBuilt};
ghost use Rattle.net_laws.specs.Homes.{HasRoom};
ghost use Rattle.net_laws.specs.Ordered.{IsInOrder};

/// The network of valid code leaves room for home routes.
pub fn networks_have_room()
    ensures { (code : VProc) (net : Net) →
        IsNet net code → IsValid code → IsSized code → HasRoom net }
{}

/// The lists of a network stand in order: what belongs to a strand lies together, by its layers.
pub fn networks_are_in_order()
    ensures { (tables : PlaceTables) (code : VProc) (net : Net) →
        IsNetBy tables code net → IsInOrder net }
{}

/// The network of valid sized code is all that calls above ask of a network.
pub fn networks_are_built()
    ensures { (code : VProc) (net : Net) →
        IsNet net code → IsValid code → IsSized code → IsBuilt net }
{}

/// What the network of plain spilling admits, where a value is in a register or in memory and never
/// in both, the network of all places admits too, at the same cost.
pub fn clean_copies_lose_nothing()
    ensures { (code : VProc) (m n : Net) (w : Weights) (f : List Edge) →
        IsNetBy eight_tables code m → IsNet n code → IsAdmitted m f →
        IsAdmitted n f × (cost_of n w f ≡ cost_by eight_tables m w f) }
{}
