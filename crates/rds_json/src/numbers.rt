//! The number that a text writes: a whole one that fits 64 bits, or the nearest float.
ghost use Rattle.std.specs.Prelude.{◌≡◌, ◌==◌, ◌∷◌, MatchOption, false, option_map, slice_index, true};
ghost use Rattle.serde_json.specs.Read.{number_from, number_of};
ghost use Rattle.serde_json.specs.View.{number_view};

use fast_float::Numeral;
use serde_json::Number;

/// The number that a text of JSON writes. There is none where it is too large for a float.
pub(crate) fn number_of(text: &str) -> Option<Number>
    ensures { option_map number_view result ≡ number_of text.now }
{
    let bytes = text.as_bytes();
    match behind_minus(bytes) {
        Some(digits) => negative_number(&Numeral::scan(digits)),
        None => plain_number(&Numeral::scan(bytes)),
    }
}

/// What stands behind a '-', where there is one.
fn behind_minus(bytes: &[u8]) -> Option<&[u8]>
    ensures { MatchOption result ((slice_index bytes.now 0 == 45) ≡ false) (λ rest. bytes.now ≡ 45 ∷ rest.now) }
{
    match bytes.split_first() {
        Some((first, rest)) => if *first == b'-' { Some(rest) } else { None },
        None => None,
    }
}

/// The number without a sign.
fn plain_number(numeral: &Numeral<'_>) -> Option<Number>
    ensures { option_map number_view result ≡ number_from false numeral.now }
{
    match numeral.to_u64() {
        Some(whole) => Some(Number::from(whole)),
        None => Number::from_f64(numeral.to_float::<f64>(false)),
    }
}

/// The number behind a sign; what is none below 0 is a float, as `-0` is.
fn negative_number(numeral: &Numeral<'_>) -> Option<Number>
    ensures { option_map number_view result ≡ number_from true numeral.now }
{
    match numeral.to_i64(true) {
        Some(whole) if whole < 0 => Some(Number::from(whole)),
        _ => Number::from_f64(numeral.to_float::<f64>(true)),
    }
}
