// Which bytes are the name of a procedure.

ghost use Rattle.std.specs.Prelude.{◌≡◌, ◌&&◌};
ghost use Rattle.std.specs.List.{list_all};
ghost use Rattle.std.specs.Char.{is_ascii_alphabetic, is_ascii_alphanumeric};
ghost use Rattle.cert_form.specs.CodeForm.{is_name};

fn are_letters_or_digits(bytes: &[u8]) -> bool
    ensures { result ≡ list_all is_ascii_alphanumeric bytes.now }
{
    bytes.iter().all(|b| b.is_ascii_alphanumeric())
}

fn begins_with_a_letter(first: u8, others: &[u8]) -> bool
    ensures { result ≡ (is_ascii_alphabetic first && list_all is_ascii_alphanumeric others.now) }
{
    first.is_ascii_alphabetic() && are_letters_or_digits(others)
}

/// Whether some bytes are the name of a procedure.
pub(crate) fn is_name(name: &[u8]) -> bool
    ensures { result ≡ is_name name.now }
{
    match name {
        [first, others @ ..] => begins_with_a_letter(*first, others) && name.len() <= 255,
        [] => false,
    }
}
