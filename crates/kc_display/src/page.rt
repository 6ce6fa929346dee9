//! A page of at most 50 lines.

ghost use Rattle.std.specs.Prelude.{◌≡◌, ◌≤◌, ◌++◌, ◌∷◌, [], List, ℕ, IfOk, OnOk, nat_le};
ghost use Rattle.std.specs.List.{flat_map};
ghost use Rattle.kc_display.specs.Difference.{more_text, most_lines};
ghost use Rattle.kc_display.specs.Pages.{Adds, IsPage, IsTextOf};

use std::alloc::{AllocError, Global};

// The maximum number of printed lines.
const MOST_LINES: u64 = 50;

/// The first lines of a text, and its number of lines.
#[derive(Drop)]
pub(crate) struct Page {
    text: Vec<u8>,
    count: u64,
}

// Adds these parts.
fn add_parts(parts: &[&[u8]], text: &mut Vec<u8>) -> Result<(), AllocError>
    ensures { OnOk result (text.new.items ≡ text.old.items ++ flat_map (λ part. part.now) parts.now) }
{
    for part in parts {
        text.extend_from_slice(part)?;
    }
    Ok(())
}

// Adds these parts as a line.
fn add_line(parts: &[&[u8]], text: &mut Vec<u8>) -> Result<(), AllocError>
    ensures { OnOk result (text.new.items ≡ text.old.items ++ (flat_map (λ part. part.now) parts.now ++ 10 ∷ [])) }
{
    add_parts(parts, text)?;
    text.push(b'\n')?;
    Ok(())
}

// Adds the number of lines that are not printed.
fn add_more(alloc: Global, count: u64, text: &mut Vec<u8>) -> Result<(), AllocError>
    ensures { OnOk result (text.new.items ≡ text.old.items ++ more_text count) }
{
    if count <= MOST_LINES {
        return Ok(());
    }
    let more = count - MOST_LINES;
    let line = format!(in alloc; "and {more} more lines\n")?;
    text.extend_from_slice(line.as_bytes())
}

impl Page {
    /// An empty page.
    pub(crate) fn new(alloc: Global) -> Page
        ensures { IsPage [] result }
    {
        Page {
            text: Vec::new(alloc),
            count: 0,
        }
    }

    /// Whether the next line is not printed.
    pub(crate) fn is_full(&self) -> bool
        ensures { result ≡ nat_le most_lines self.now.count }
    {
        self.count >= MOST_LINES
    }

    /// Counts a line that is not printed.
    pub(crate) fn skip(&mut self)
        requires { most_lines ≤ self.old.count }
        ensures { (line : List ℕ) → Adds (line ∷ []) self.old self.new }
    {
        self.count = self.count.saturating_add(1);
    }

    /// Adds a line. Its parts have no line feed.
    pub(crate) fn add(&mut self, parts: &[&[u8]]) -> Result<(), AllocError>
        ensures { OnOk result (Adds (flat_map (λ part. part.now) parts.now ∷ []) self.old self.new) }
    {
        if self.is_full() {
            self.skip();
            return Ok(());
        }
        add_line(parts, &mut self.text)?;
        self.count += 1;
        Ok(())
    }

    /// The text of the page.
    pub(crate) fn into_text(self, alloc: Global) -> Result<Vec<u8>, AllocError>
        ensures { IfOk result (IsTextOf self) }
    {
        let mut text = self.text;
        add_more(alloc, self.count, &mut text)?;
        Ok(text)
    }
}
