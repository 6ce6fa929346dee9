//! The location at the start of a diagnostic.
ghost use Rattle.std.specs.Prelude.{◌≡◌, ◌≤◌, length, option_map};
ghost use Rattle.kc_hints.specs.Facts.{digits_start, names_file, number_from, place_in};

// The number in these digits, limited to the greatest one.
fn number_of(digits: &[u8]) -> usize
    ensures { result ≡ number_from 0 digits.now }
{
    let mut number: usize = 0;
    for digit in digits {
        number = number
            .saturating_mul(10)
            .saturating_add(usize::from(digit.saturating_sub(b'0')));
    }
    number
}

// The length of a text without the digits at its end.
fn digits_start(text: &[u8]) -> usize
    ensures start { result ≡ digits_start text.now }
    ensures within { result ≤ length text.now }
{
    let mut end = text.len();
    while end > 0 && text[end - 1].is_ascii_digit() {
        end -= 1;
    }
    end
}

/// Returns the file and the line at the start of a diagnostic: all before the last `:`, and the number after it (our
/// own).
pub(crate) fn place_in(before: &[u8]) -> Option<(&[u8], usize)>
    ensures { option_map (λ place. (place.0.now, place.1)) result ≡ place_in before.now }
{
    let front = before.strip_suffix(b": ")?;
    let (file, digits) = front.split_at(digits_start(front));
    let file = file.strip_suffix(b":")?;
    Some((file, number_of(digits)))
}

/// Whether the text before a diagnostic names this file: alone, or after a configuration, a `:` and a blank.
pub(crate) fn names_file(file: &[u8], name: &[u8]) -> bool
    ensures { result ≡ names_file file.now name.now }
{
    match file.strip_suffix(name) {
        Some(front) => front.is_empty() || front.ends_with(b": "),
        None => false,
    }
}
