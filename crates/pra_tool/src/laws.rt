// The laws of what is promised.

ghost use Rattle.std.specs.Prelude.{◌≡◌, ◌≢◌, ◌≤◌, ◌++◌, ℕ, ℤ, List, [], length, slice_get};
ghost use Rattle.std.specs.Prelude.{true, Some, Ok};
ghost use Rattle.cert_check.specs.Reasons.{weights_by};
ghost use Rattle.cert_form.specs.declared.certificate.Cert.{Cert};
ghost use Rattle.cert_form.specs.declared.codes.CodeFile.{CodeFile};
ghost use Rattle.cert_form.specs.CodeWhole.{ReadsCode};
ghost use Rattle.ia_code.specs.Image.{image_bytes_of};
ghost use Rattle.ia_list.specs.ListText.{max_text_bytes};
ghost use Rattle.pra_follow.specs.Codes.{Carriage, behind, FollowsUntilStuck};
ghost use Rattle.pra_follow.specs.Follows.{DoesAsMeant};
ghost use Rattle.pra_report.specs.declared.report.ProcOut.{ProcOut};
ghost use Rattle.pra_words.specs.declared.words.FileKind.{FileKind};
ghost use Rattle.pra_words.specs.declared.words.Mode.{Mode as Word};
ghost use Rattle.pra_words.specs.Words.{Asked};
ghost use Rattle.pra_tool.specs.declared.compiler.Made.{Made};
ghost use Rattle.pra_tool.specs.declared.status.Status.{Status};
ghost use Rattle.pra_tool.specs.Writes.{Writes, one_file};
ghost use Rattle.pra_tool.specs.Modes.{IsMode};
ghost use Rattle.pra_tool.specs.Compiling.{MadeOf};
ghost use Rattle.pra_report.specs.Report.{procedure_lines, report_text};
ghost use Rattle.pra_tool.specs.Applied.{ApplyMakes, CarriesCert, AreSameButRounds};
ghost use Rattle.pra_tool.specs.Certified.{CertMakes};
ghost use Rattle.pra_tool.specs.Executed.{ExecMakes};
ghost use Rattle.vc_stmt.specs.Completes.{are_words};
ghost use Rattle.pra_tool.specs.Interpreted.{InterpMakes, units_of};
ghost use Rattle.pra_compile.specs.Compiled.{codes_named, codes_of, frames_of, module_of};
ghost use Rattle.pra_tool.specs.Listings.{IsListed, ListMakes};
ghost use Rattle.pra_tool.specs.Clause.{run_of, RunMakes, CompileMakes, GenMakes, AsmMakes};
ghost use Rattle.pra_tool.specs.Clause.{mode_by};

/// What the answers of a mode rest on holds of each mode.
pub fn all_are_modes()
    ensures { (word : Word) (asked : Asked) → IsMode (mode_by word asked) }
{}

/// What `run` makes of a module does what that means: the run of the image on the numbers of the
/// input agrees with the meaning of the module, with the frames that the report prints, both ways.
/// So it is with what `gen` makes, on no input.
pub fn runs_do_as_meant()
    ensures run { (asked : Asked) (source input : List ℕ) (w : Writes) (s : Status) →
        (made : RunMakes FileKind.Module asked source input w s) →
        DoesAsMeant made.made_of.is.text.checked (frames_of made.made.compiled.procs)
        made.made.compiled.image made.numbers }
    ensures generated { (asked : Asked) (source input : List ℕ) (w : Writes) (s : Status) →
        (made : GenMakes asked source input w s) →
        DoesAsMeant made.made_of.is.text.checked (frames_of made.made.compiled.procs)
        made.made.compiled.image [] }
{}

/// What `run` makes of code follows that until it gets stuck, on the numbers of the input, with the
/// frames that the report prints. What `compile` and `apply` make does so on every input of words.
/// The code is the one that the source is the text of.
pub fn runs_follow_code()
    ensures run { (asked : Asked) (source input : List ℕ) (w : Writes) (s : Status)
        (file : CodeFile) → ReadsCode source (Ok file) →
        (made : RunMakes FileKind.Code asked source input w s) →
        FollowsUntilStuck (module_of file) (frames_of made.made.compiled.procs)
        made.made.compiled.image made.numbers }
    ensures compiled { (asked : Asked) (source input : List ℕ) (w : Writes) (s : Status)
        (file : CodeFile) (words : List ℤ) → ReadsCode source (Ok file) →
        (made : CompileMakes FileKind.Code asked source input w s) → are_words words ≡ true →
        FollowsUntilStuck (module_of file) (frames_of made.made.compiled.procs)
        made.made.compiled.image words }
    ensures applied { (asked : Asked) (source input : List ℕ) (w : Writes) (s : Status)
        (file : CodeFile) (words : List ℤ) → ReadsCode source (Ok file) →
        (made : ApplyMakes FileKind.Code asked source input w s) → are_words words ≡ true →
        FollowsUntilStuck (module_of file) (frames_of made.compiled.procs) made.compiled.image
        words }
{}

/// Of code nothing is changed: what is kept of the procedures has the codes that the source is the
/// text of, and the image has its words of data.
pub fn code_is_kept()
    ensures made { (asked : Asked) (source : List ℕ) (made : Made) (file : CodeFile) →
        ReadsCode source (Ok file) → MadeOf FileKind.Code asked source made →
        (codes_of made.compiled.procs ≡ codes_named file.procs) ×
        (made.compiled.image.data_words ≡ file.data_words) }
    ensures applied { (asked : Asked) (source input : List ℕ) (w : Writes) (s : Status)
        (file : CodeFile) → ReadsCode source (Ok file) →
        (made : ApplyMakes FileKind.Code asked source input w s) →
        (codes_of made.compiled.procs ≡ codes_named file.procs) ×
        (made.compiled.image.data_words ≡ file.data_words) }
{}

/// Where `run` and `interp` of one module and one input both come to an end or a trap, and tell the
/// same lines of procedures, they end alike, write the same output and take as many words.
pub fn interp_does_as_run()
    ensures { (asked other : Asked) (source input : List ℕ) (v w : Writes) (s t : Status) →
        (run : RunMakes FileKind.Module asked source input v s) →
        (interp : InterpMakes other source input w t) →
        procedure_lines 0 run.made.compiled.procs ≡ procedure_lines 0 interp.made.compiled.procs →
        s ≢ Status.Going → t ≢ Status.Going →
        (s ≡ t) × (v.out ≡ w.out) ×
        ((run_of run.made.compiled.image run.numbers asked.steps).reads
        ≡ (units_of interp.made_of.is.text.checked interp.made.compiled interp.numbers
        other.steps).reads) }
{}

/// The image's file that `run` wrote, run by `exec` on the same input within as many steps, ends
/// alike, writes the same output, and tells the same last line, whatever the status.
pub fn exec_repeats_run()
    ensures { (kind : FileKind) (asked other : Asked) (source file input : List ℕ) (v w : Writes)
        (s t : Status) → (run : RunMakes kind asked source input v s) →
        v.files ≡ one_file asked.image file →
        ExecMakes other file input w t → asked.steps ≡ other.steps →
        (s ≡ t) × (v.out ≡ w.out) × (v.notes ≡ report_text run.made.compiled.procs
        (length run.made.compiled.image.code) ++ w.notes) }
{}

/// Where `run` and `compile` of one module tell the same lines of procedures, and `run`, and `exec`
/// of the file that `compile` wrote, both come to an end or a trap on one input, they end alike,
/// write the same output and take as many words: no image of a module comes to a fault.
pub fn exec_does_as_run()
    ensures { (asked other another : Asked) (source file input : List ℕ) (u v w : Writes)
        (r s t : Status) → (run : RunMakes FileKind.Module asked source input v s) →
        (compiled : CompileMakes FileKind.Module other source [] u r) →
        (exec : ExecMakes another file input w t) → u.files ≡ one_file other.image file →
        procedure_lines 0 run.made.compiled.procs
        ≡ procedure_lines 0 compiled.made.compiled.procs →
        s ≢ Status.Going → t ≢ Status.Going →
        (s ≡ t) × (v.out ≡ w.out) ×
        ((run_of run.made.compiled.image run.numbers asked.steps).reads
        ≡ (run_of exec.image exec.numbers another.steps).reads) }
{}

/// What `apply` makes of a module does what that means, with the frames that it prints: on every
/// input of words the run of the image agrees with the meaning of the module, both ways.
pub fn applied_does_as_meant()
    ensures { (asked : Asked) (source input : List ℕ) (w : Writes) (s : Status) (words : List ℤ) →
        (made : ApplyMakes FileKind.Module asked source input w s) → are_words words ≡ true →
        DoesAsMeant made.is.text.checked (frames_of made.compiled.procs) made.compiled.image
        words }
{}

/// And whatever FILE is, its image carries, procedure by procedure, the certificate's code and
/// routes. By the weights of the certificate's own cost word they cost its total, and no flow that
/// is admitted costs less than its bound; both are printed.
pub fn certificates_are_carried()
    ensures { (kind : FileKind) (asked : Asked) (source input : List ℕ) (w : Writes) (s : Status)
        (p : ℕ) (cert : Cert) (out : ProcOut) (c : Carriage) →
        (made : ApplyMakes kind asked source input w s) →
        slice_get made.certificate.procs p ≡ Some cert →
        slice_get made.compiled.procs p ≡ Some out →
        slice_get made.applied.built.placement.carriages p ≡ Some c →
        CarriesCert (weights_by made.certificate.cost) cert out (behind c) }
{}

/// Where `cert` printed a certificate of a source, and `apply` made something of that text and the
/// source, each procedure has the same name, frame, code and routes, and the same cost and bound.
/// That the image is then the one of `compile` is not promised: routes say where values are, not in
/// which order they move.
pub fn apply_repeats_cert()
    ensures { (kind : FileKind) (asked other : Asked) (source : List ℕ) (v w : Writes)
        (s t : Status) (p : ℕ) (a b : ProcOut) → (cert : CertMakes kind asked source [] v s) →
        (applied : ApplyMakes kind other source v.out w t) →
        slice_get cert.certified.made.compiled.procs p ≡ Some a →
        slice_get applied.compiled.procs p ≡ Some b → AreSameButRounds a b }
{}

/// Of what `list` printed of a file, `asm` writes that file again, to the byte; and of a file that
/// `asm` wrote, `list` prints the text again.
pub fn listings_come_back()
    ensures back { (asked : Asked) (file : List ℕ) (v w : Writes) (s t : Status) →
        ListMakes file [] v s → AsmMakes asked v.out [] w t → w.files ≡ one_file asked.image file }
    ensures again { (asked : Asked) (text file : List ℕ) (v w : Writes) (s t : Status) →
        AsmMakes asked text [] v s → v.files ≡ one_file asked.image file →
        ListMakes file [] w t → w.out ≡ text }
{}

/// What a source is compiled to has a text, and `asm` writes the image's file again of the text,
/// where it is not too long.
pub fn compiled_is_listed()
    ensures { (kind : FileKind) (wanted : Asked) (source : List ℕ) (made : Made) →
        MadeOf kind wanted source made →
        (text : List ℕ) × IsListed (image_bytes_of made.compiled.image) text ×
        (length text ≤ max_text_bytes → (asked : Asked) (w : Writes) (s : Status) →
        AsmMakes asked text [] w s →
        w.files ≡ one_file asked.image (image_bytes_of made.compiled.image)) }
{}
