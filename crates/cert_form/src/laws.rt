// Laws of certificates and code files as text. Each function is a law: its contract is the
// statement, and it does nothing.

ghost use Rattle.std.specs.Prelude.{◌≡◌, List, ℕ};
ghost use Rattle.cert_form.specs.declared.certificate.Certificate.{Certificate};
ghost use Rattle.cert_form.specs.declared.codes.CodeFile.{CodeFile};
ghost use Rattle.cert_form.specs.Form.{certificate_data};
ghost use Rattle.cert_form.specs.Whole.{IsWhole, IsReadAs, IsReadAgain};
ghost use Rattle.cert_form.specs.CodeForm.{file_data};
ghost use Rattle.cert_form.specs.CodeWhole.{IsWholeCode, IsCodeReadAgain};

/// Of bytes that are read as the value of a whole certificate reading answers that certificate, or
/// want of memory.
pub fn text_is_read()
    ensures { (c : Certificate) (bytes : List ℕ) → IsWhole c → IsReadAs bytes (certificate_data c)
        → IsReadAgain c bytes }
{}

/// Two whole certificates of one value are one.
pub fn one_certificate()
    ensures { (a b : Certificate) → IsWhole a → IsWhole b →
        certificate_data a ≡ certificate_data b → a ≡ b }
{}

/// Of bytes that are read as the value of a whole code file reading answers that code file, or want
/// of memory.
pub fn code_is_read()
    ensures { (f : CodeFile) (bytes : List ℕ) → IsWholeCode f → IsReadAs bytes (file_data f)
        → IsCodeReadAgain f bytes }
{}

/// Two whole code files of one value are one.
pub fn one_code_file()
    ensures { (a b : CodeFile) → IsWholeCode a → IsWholeCode b → file_data a ≡ file_data b
        → a ≡ b }
{}
