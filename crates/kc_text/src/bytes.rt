//! Bytes that mean the same in Kconfig files and in `.config` files.
ghost use Rattle.std.specs.Prelude.{◌≡◌};
ghost use Rattle.std.specs.Str.{bytes_eq};
ghost use Rattle.std.specs.Str.Lines.{strip_carriage_return};
ghost use Rattle.kc_language.specs.Tokens.{is_blank};

/// Whether a byte is a blank: a space or a tab. (Our own, like the kernel's tools.)
pub fn is_blank(byte: u8) -> bool
    ensures { result ≡ is_blank byte }
{
    byte == b' ' || byte == b'\t'
}

/// Drops one carriage return at the end of a line, if there is one. The line is given without its line feed. It allocates nothing.
/// (Our own, like the kernel's tools.)
pub fn without_carriage_return(line: &[u8]) -> &[u8]
    ensures { result.now ≡ strip_carriage_return line.now }
{
    let n = line.len();
    if n > 0 && line[n - 1] == b'\r' {
        &line[..n - 1]
    } else {
        line
    }
}

/// Whether two texts have the same bytes. It compares one byte after another: for a few bytes this costs less than a call.
#[inline(always)]
pub fn same_few(text: &[u8], other: &[u8]) -> bool
    ensures { result ≡ bytes_eq text.now other.now }
{
    if text.len() != other.len() {
        return false;
    }
    let mut at = 0;
    'same: while at < text.len() {
        if text[at] != other[at] {
            return false;
        }
        at += 1;
    }
    true
}
