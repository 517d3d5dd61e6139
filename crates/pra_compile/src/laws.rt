// The laws of what code is compiled to: what its lines say.

ghost use Rattle.std.specs.Prelude.{◌≡◌, ◌≤◌, ◌<◌, ◌+◌, ℕ, ℤ, List, length, slice_get, Some};
ghost use Rattle.ob_syntax.specs.declared.checked.Checked.{Checked};
ghost use Rattle.cert_form.specs.declared.codes.CodeFile.{CodeFile};
ghost use Rattle.cert_form.specs.declared.codes.NamedCode.{NamedCode};
ghost use Rattle.net_cost.specs.declared.weights.Weights.{Weights};
ghost use Rattle.net_cost.specs.Weights.{IsValid};
ghost use Rattle.net_form.specs.declared.net.Net.{Net};
ghost use Rattle.net_form.specs.declared.prices.Line.{Line};
ghost use Rattle.net_form.specs.declared.prices.Prices.{Prices};
ghost use Rattle.net_form.specs.declared.routes.Routes.{Routes};
ghost use Rattle.net_form.specs.Admitted.{IsAdmitted};
ghost use Rattle.net_form.specs.Cost.{cost_of};
ghost use Rattle.net_form.specs.Flow.{Edge, flow};
ghost use Rattle.net_form.specs.Formed.{IsFormed};
ghost use Rattle.net_form.specs.Rooms.{zero_prices};
ghost use Rattle.net_dual.specs.Value.{IsLagrange, IsFreeBound};
ghost use Rattle.al_laws.specs.Settled.{AreSettled};
ghost use Rattle.al_round.specs.Lines.{IsCost};
ghost use Rattle.al_round.specs.Stages.{IsRoundedUp};
ghost use Rattle.al_round.specs.Watches.{verdict_of};
ghost use Rattle.al_round.specs.declared.watch.Verdict.TheVariants.{Go};
ghost use Rattle.pra_compile.specs.declared.output.Compiled.{Compiled};
ghost use Rattle.pra_compile.specs.declared.given.GivenRoutes.{GivenRoutes};
ghost use Rattle.pra_compile.specs.Compiled.{Wanted, IsGranted, IsProcBy, IsProcOut, IsBuilt};
ghost use Rattle.pra_compile.specs.Compiled.{IsBuiltBy, IsRunnable, codes_in};
ghost use Rattle.pra_compile.specs.Tidied.{IsCodeOfModule};
ghost use Rattle.pra_follow.specs.Codes.{Carriage};
ghost use Rattle.pra_follow.specs.Tidied.{AreTidied};
ghost use Rattle.pra_base.specs.Valid.{AreValid};
ghost use Rattle.vc_typed.specs.TypedModules.{IsSelectable};
ghost use Rattle.pra_compile.specs.Given.{given_by};
ghost use Rattle.pra_compile.specs.Mechanism.{ComeFromPrices, WereLaid, HaveOneChain};
ghost use Rattle.pra_report.specs.declared.report.ProcOut.{ProcOut};
ghost use Rattle.pra_report.specs.Report.{last_cost, last_bound, HaveTotals};

/// The cost of a procedure's last line is what the flow costs that the image carries.
pub fn last_cost_is_carried()
    ensures { (wanted : Wanted) (p : ℕ) (named : NamedCode) (out : ProcOut)
        (c : Carriage) → IsProcOut wanted p named out c →
        last_cost out.lines ≡ cost_of c.net wanted.weights (flow c.net c.routes) }
{}

/// And no flow that the network of its code admits costs less than the bound of any of its lines.
pub fn no_flow_costs_less()
    ensures { (wanted : Wanted) (p : ℕ) (named : NamedCode) (out : ProcOut)
        (c : Carriage) (k : ℕ) (line : Line) (f : List Edge) →
        IsProcOut wanted p named out c → slice_get out.lines k ≡ Some line →
        IsAdmitted c.net f → line.bound ≤ cost_of c.net wanted.weights f }
{}

/// Costs never rise and bounds never fall, from one line to any later one.
pub fn lines_never_worsen()
    ensures { (wanted : Wanted) (net : Net) (routes : Routes) (prices : Prices) (lines : List Line)
        (j k : ℕ) (l m : Line) → IsGranted wanted net routes prices lines → j ≤ k →
        slice_get lines j ≡ Some l → slice_get lines k ≡ Some m →
        (m.cost ≤ l.cost) × (l.bound ≤ m.bound) }
{}

/// The cost of each line is that of admitted routes, which are settled from the first round on.
pub fn costs_are_those_of_routes()
    ensures { (wanted : Wanted) (net : Net) (routes : Routes) (prices : Prices) (lines : List Line)
        (k : ℕ) (line : Line) → IsGranted wanted net routes prices lines →
        slice_get lines k ≡ Some line →
        (best : Routes) × IsCost net wanted.weights k line.cost best }
{}

/// The routes that are carried are settled, where there was a round.
pub fn routes_are_settled()
    ensures { (wanted : Wanted) (net : Net) (routes : Routes) (prices : Prices) (lines : List Line)
        → IsGranted wanted net routes prices lines → 2 ≤ length lines →
        AreSettled net wanted.weights routes }
{}

/// Bounds are the greatest Lagrange values of a price chain and of prices raised beside it.
pub fn bounds_come_from_prices()
    ensures { (wanted : Wanted) (net : Net) (routes : Routes) (prices : Prices) (lines : List Line)
        → IsGranted wanted net routes prices lines → ComeFromPrices net wanted.weights lines }
{}

/// By the prices of each round routes were laid, or a strand was blocked, and no line costs more.
pub fn rounds_lay_by_their_prices()
    ensures { (wanted : Wanted) (net : Net) (routes : Routes) (prices : Prices) (lines : List Line)
        → IsGranted wanted net routes prices lines → WereLaid net wanted.weights lines }
{}

/// The chain that bounds come from is the one by whose prices routes were laid.
pub fn bounds_and_routes_have_one_chain()
    ensures { (wanted : Wanted) (net : Net) (routes : Routes) (prices : Prices) (lines : List Line)
        → IsGranted wanted net routes prices lines → HaveOneChain net wanted.weights lines }
{}

/// Of bounds that come from prices the first is a number of the network and the weights alone: what
/// prices of nothing are worth, rounded up, and so what strands cost at least, each alone.
pub fn bound_of_round_0_is_free()
    ensures value { (net : Net) (w : Weights) (lines : List Line) (line : Line) (z : ℤ) →
        ComeFromPrices net w lines → slice_get lines 0 ≡ Some line →
        IsLagrange net w (zero_prices net) z → IsRoundedUp z line.bound }
    ensures free { (net : Net) (w : Weights) (lines : List Line) (line : Line) (free : ℕ) →
        ComeFromPrices net w lines → slice_get lines 0 ≡ Some line → IsFreeBound net w free →
        line.bound ≡ free }
{}

/// No later one is less than that, and none is more than what an admitted flow costs.
pub fn bounds_from_prices_hold()
    ensures least { (net : Net) (w : Weights) (lines : List Line) (k : ℕ) (line : Line) (free : ℕ) →
        ComeFromPrices net w lines → slice_get lines k ≡ Some line → IsFreeBound net w free →
        free ≤ line.bound }
    ensures most { (net : Net) (w : Weights) (lines : List Line) (k : ℕ) (line : Line)
        (f : List Edge) → ComeFromPrices net w lines → slice_get lines k ≡ Some line →
        IsFormed net → IsAdmitted net f → line.bound ≤ cost_of net w f }
{}

/// There is a line, and no more rounds than were wanted. Where there were fewer, the last cost is
/// at most the gap above the last bound. No round stands behind a line at which the watch stops.
pub fn rounds_are_as_wanted()
    ensures some { (wanted : Wanted) (net : Net) (routes : Routes) (prices : Prices)
        (lines : List Line) → IsGranted wanted net routes prices lines → 1 ≤ length lines }
    ensures most { (wanted : Wanted) (net : Net) (routes : Routes) (prices : Prices)
        (lines : List Line) → IsGranted wanted net routes prices lines →
        length lines ≤ wanted.rounds + 1 }
    ensures fewer { (wanted : Wanted) (net : Net) (routes : Routes) (prices : Prices)
        (lines : List Line) → IsGranted wanted net routes prices lines →
        length lines < wanted.rounds + 1 → last_cost lines ≤ last_bound lines + wanted.gap }
    ensures went { (wanted : Wanted) (net : Net) (routes : Routes) (prices : Prices)
        (lines : List Line) (k : ℕ) (line : Line) → IsGranted wanted net routes prices lines →
        k + 1 < length lines → slice_get lines k ≡ Some line → verdict_of wanted.gap line ≡ Go }
{}

/// What is kept of the procedures of code has totals, where weights are valid.
pub fn compiled_have_totals()
    ensures { (file : CodeFile) (wanted : Wanted) (compiled : Compiled) →
        IsBuilt file wanted compiled → IsValid wanted.weights → HaveTotals compiled.procs }
{}

/// Of a procedure whose routes were given the image carries the flow of these routes, and its line
/// tells the cost and the bound that were given with them.
pub fn given_routes_are_carried()
    ensures flow { (given : List GivenRoutes) (p : ℕ) (named : NamedCode) (out : ProcOut)
        (c : Carriage) (own : GivenRoutes) → IsProcBy (given_by given) p named out c →
        slice_get given p ≡ Some own → flow c.net c.routes ≡ flow c.net own.routes }
    ensures cost { (given : List GivenRoutes) (p : ℕ) (named : NamedCode) (out : ProcOut)
        (c : Carriage) (own : GivenRoutes) → IsProcBy (given_by given) p named out c →
        slice_get given p ≡ Some own → last_cost out.lines ≡ own.cost }
    ensures bound { (given : List GivenRoutes) (p : ℕ) (named : NamedCode) (out : ProcOut)
        (c : Carriage) (own : GivenRoutes) → IsProcBy (given_by given) p named out c →
        slice_get given p ≡ Some own → last_bound out.lines ≡ own.bound }
{}

/// What is kept of procedures with given routes has totals.
pub fn given_have_totals()
    ensures { (file : CodeFile) (given : List GivenRoutes) (compiled : Compiled) →
        IsBuiltBy file (given_by given) compiled → HaveTotals compiled.procs }
{}

/// Code that can run is valid together; that of a module can run, and is what it was made of.
pub fn code_of_modules_runs()
    ensures valid { (file : CodeFile) → IsRunnable file → AreValid (codes_in file) }
    ensures runs { (program : Checked) (file : CodeFile) → IsSelectable program →
        IsCodeOfModule program file → IsRunnable file }
    ensures tidied { (program : Checked) (file : CodeFile) → IsCodeOfModule program file →
        AreTidied program (codes_in file) }
{}
