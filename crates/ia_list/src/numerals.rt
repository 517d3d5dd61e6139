// Numbers as they are written.

ghost use Rattle.std.specs.Prelude.{◌≡◌, ◌++◌, ◌<◌, ◌/◌, ◌%◌, [], ◌∷◌, OnOk};
ghost use Rattle.std.specs.Fmt.{decimal, signed_decimal};
ghost use Rattle.ia_list.specs.Text.{hex_digit, hex_digits, hexadecimal};

use itoa::Buffer;
use std::alloc::AllocError;

fn hex_digit(d: u8) -> u8
    requires { d < 16 }
    ensures { result ≡ hex_digit d }
{
    if d < 10 { b'0' + d } else { b'a' - 10 + d }
}

/// Eight hexadecimal digits.
pub(crate) fn push_hexadecimal(out: &mut Vec<u8>, n: u32) -> Result<(), AllocError>
    ensures { OnOk result (out.new.items ≡ out.old.items ++ hexadecimal n) }
{
    let [a, b, c, d] = n.to_be_bytes();
    let digits = [
        hex_digit(a / 16),
        hex_digit(a % 16),
        hex_digit(b / 16),
        hex_digit(b % 16),
        hex_digit(c / 16),
        hex_digit(c % 16),
        hex_digit(d / 16),
        hex_digit(d % 16),
    ];
    out.extend_from_slice(&digits)
}

/// A number without a sign, in decimal digits.
pub(crate) fn push_decimal(out: &mut Vec<u8>, n: u32) -> Result<(), AllocError>
    ensures { OnOk result (out.new.items ≡ out.old.items ++ decimal n) }
{
    out.extend_from_slice(Buffer::new().format(n).as_bytes())
}

/// A number in decimal digits, with a minus before one below 0.
pub(crate) fn push_signed(out: &mut Vec<u8>, z: i32) -> Result<(), AllocError>
    ensures { OnOk result (out.new.items ≡ out.old.items ++ signed_decimal z) }
{
    out.extend_from_slice(Buffer::new().format(z).as_bytes())
}
