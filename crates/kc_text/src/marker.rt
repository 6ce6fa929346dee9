//! The markers of a flat file, as the C preprocessor writes them.

ghost use Rattle.std.specs.Prelude.{◌≡◌, ◌++◌, ◌<◌, ◌^◌, ℕ, List, MatchOption, codes};
ghost use Rattle.kc_language.specs.Expansion.{IsMarker};
ghost use Rattle.kc_text.specs.Markers.{IsDigitFront, IsQuotedName};

use crate::numbers::natural;
use bstr::ByteSlice;

// A line number is below this.
const LINE_NUMBERS: u128 = 1 << 32;

/// The content of a marker: the next line is the one of this number of this file.
#[derive(Clone, Copy, Debug)]
pub struct Marker<'a> {
    pub number: u32,
    pub file: &'a [u8],
}

// How many decimal digits there are at the start of a text.
fn digits_len(text: &[u8]) -> usize
    ensures { IsDigitFront text.now result }
{
    let mut n = 0;
    'digits: while n < text.len() && (text[n] as char).to_digit(10).is_some() {
        n += 1;
    }
    n
}

// The name, if the text is a blank and then the name in double quotes, and the name holds no double quote.
fn quoted_name(text: &[u8]) -> Option<&[u8]>
    ensures { MatchOption result ((name : List ℕ) → IsQuotedName text.now name → ⊥) (λ name. IsQuotedName text.now name.now) }
{
    match text {
        [b' ', b'"', name @ .., b'"'] if name.find_byte(b'"').is_none() => Some(name),
        _ => None,
    }
}

// What follows `# ` at the start.
fn after_sign(line: &[u8]) -> Option<&[u8]>
    ensures { MatchOption result ((body : List ℕ) → line.now ≡ codes "# " ++ body → ⊥) (λ body. line.now ≡ codes "# " ++ body.now) }
{
    match line {
        [b'#', b' ', body @ ..] => Some(body),
        _ => None,
    }
}

/// Returns the marker of a line: `# `, a decimal number below 2^32, a blank, and a name in double quotes without a double
/// quote in it. Any other line is `None`. It allocates nothing.
///
/// The form is that of the C preprocessor's line markers, without flags.
pub fn marker_of(line: &[u8]) -> Option<Marker<'_>>
    ensures { MatchOption result ((n : ℕ) (name : List ℕ) → IsMarker line.now n name → ⊥) (λ m. IsMarker line.now m.number m.file.now) }
{
    let body = match after_sign(line) {
        Some(body) => body,
        None => return None,
    };
    let (digits, rest) = body.split_at(digits_len(body));
    let file = match quoted_name(rest) {
        Some(file) => file,
        None => return None,
    };
    match natural(digits, 10, LINE_NUMBERS) {
        Some(number) => Some(Marker {
            number: number as u32,
            file,
        }),
        None => None,
    }
}
