// Laws of the certificate of what code is compiled to. Each function is a law: its contract is
// the statement, and it does nothing.

ghost use Rattle.std.specs.Prelude.{◌≡◌, ◌<◌, length};
ghost use Rattle.cert_form.specs.declared.certificate.Certificate.{Certificate};
ghost use Rattle.cert_form.specs.declared.codes.CodeFile.{CodeFile};
ghost use Rattle.cert_form.specs.Whole.{AreNumbered};
ghost use Rattle.cert_check.specs.declared.check.CertAnswer.TheVariants.{Yes};
ghost use Rattle.cert_check.specs.Reasons.{weights_by, IsAnswerOf, AreBounded};
ghost use Rattle.pra_compile.specs.declared.output.Compiled.{Compiled};
ghost use Rattle.pra_compile.specs.Compiled.{Wanted, IsBuilt};
ghost use Rattle.cert_make.specs.Made.{IsCertificateOf};

/// The certificate of what code is compiled to holds, where costs were counted by the weights that it
/// names: no reason against it is there. So its routes are admitted and cost its totals, and no
/// admitted flow costs less than its bounds.
pub fn certificates_hold()
    ensures yes { (file : CodeFile) (wanted : Wanted) (compiled : Compiled) (c : Certificate) →
        wanted.weights ≡ weights_by c.cost → IsBuilt file wanted compiled →
        IsCertificateOf c.cost compiled.procs c → IsAnswerOf c Yes }
    ensures bounded { (file : CodeFile) (wanted : Wanted) (compiled : Compiled)
        (c : Certificate) → wanted.weights ≡ weights_by c.cost →
        IsBuilt file wanted compiled → IsCertificateOf c.cost compiled.procs c →
        AreBounded c }
{}

/// It has a procedure, and the id of each code is its number: so its text is read again.
pub fn certificates_are_whole()
    ensures some { (file : CodeFile) (wanted : Wanted) (compiled : Compiled) (c : Certificate) →
        IsBuilt file wanted compiled → IsCertificateOf c.cost compiled.procs c →
        0 < length c.procs }
    ensures numbered { (file : CodeFile) (wanted : Wanted) (compiled : Compiled)
        (c : Certificate) → IsBuilt file wanted compiled →
        IsCertificateOf c.cost compiled.procs c → AreNumbered 0 c.procs }
{}
