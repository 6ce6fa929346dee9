//! Numbers in arguments: the steps of an explanation, and the tries of a search.

ghost use Rattle.std.specs.Prelude.{◌≡◌, codes, false, nat_eq};
ghost use Rattle.std.specs.List.{starts_with};
ghost use Rattle.kc_words.specs.CommandLine.{number_of};

use kc_text::read_int;

// The number in a text that does not start with `-`.
#[tactic(auto, using(crate::proofs::NumberLemmas::plain_none))]
fn plain_number(text: &str) -> Option<usize>
    requires { starts_with nat_eq text.now (codes "-") ≡ false }
    ensures { result ≡ number_of text.now }
{
    let number = read_int(text.as_bytes())?;
    usize::try_from(number).ok()
}

/// Returns the number in a text: decimal digits only, at least one, below 2^63.
#[tactic(auto, using(crate::proofs::NumberLemmas::minus_none))]
pub(crate) fn number_of(text: &str) -> Option<usize>
    ensures { result ≡ number_of text.now }
{
    if text.starts_with("-") {
        return None;
    }
    plain_number(text)
}
