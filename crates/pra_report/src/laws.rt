// The law of totals.

ghost use Rattle.std.specs.Prelude.{◌≤◌, List, length, All};
ghost use Rattle.pra_report.specs.declared.report.ProcOut.{ProcOut};
ghost use Rattle.pra_report.specs.Report.{most_procs, HaveTotals, IsOfMany};

/// As many procedures as a module may have have totals, where the last cost and the last bound of
/// each have 112 bits.
pub fn many_have_totals()
    ensures { (procs : List ProcOut) → length procs ≤ most_procs → All IsOfMany procs →
        HaveTotals procs }
{}
