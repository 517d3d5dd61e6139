// The numbers of a text.

ghost use Rattle.std.specs.Prelude.{◌≡◌, ◌<◌, ◌==◌, length, drop, slice_index, Some, None, MatchOption, IsTrue, true, false};
ghost use Rattle.serde_json.specs.Data.{Num};
ghost use Rattle.serde_json.specs.Read.{number_of, number_from, float_of};
ghost use Rattle.cert_form.specs.Streams.{IsFigureOf};

use fast_float::Numeral;

/// A number that a token of a text writes.
#[derive(Clone, Copy, Debug, Drop)]
pub(crate) enum Figure {
    /// With no point and no exponent, and in 64 bits; not `-0`.
    Integer(i128),
    /// Any other, as a float.
    Float,
}

/// The number that a token writes, where a float has its size.
pub(crate) fn figure_of(text: &str) -> Option<Figure>
    ensures { IsFigureOf (number_of text.now) result }
{
    let bytes = text.as_bytes();
    if has_minus(bytes) {
        below_zero(&Numeral::scan(&bytes[1..]))
    } else {
        unsigned(&Numeral::scan(bytes))
    }
}

fn has_minus(bytes: &[u8]) -> bool
    ensures value { result ≡ (slice_index bytes.now 0 == 45) }
    ensures some { IsTrue result → 0 < length bytes.now }
{
    !bytes.is_empty() && bytes[0] == b'-'
}

fn unsigned(numeral: &Numeral<'_>) -> Option<Figure>
    ensures { IsFigureOf (number_from false numeral.now) result }
{
    match numeral.to_u64() {
        Some(n) => Some(Figure::Integer(n as i128)),
        None => float(false, numeral),
    }
}

fn below_zero(numeral: &Numeral<'_>) -> Option<Figure>
    ensures { IsFigureOf (number_from true numeral.now) result }
{
    if let Some(z) = numeral.to_i64(true) {
        if z < 0 {
            return Some(Figure::Integer(z as i128));
        }
    }
    float(true, numeral)
}

fn float(negative: bool, numeral: &Numeral<'_>) -> Option<Figure>
    ensures { IsFigureOf (float_of negative numeral.now) result }
{
    if numeral.to_float::<f64>(negative).is_finite() {
        Some(Figure::Float)
    } else {
        None
    }
}
