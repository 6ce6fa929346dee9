//! How a difference is printed.

ghost use Rattle.std.specs.Prelude.{◌≡◌, ◌==◌, ◌<◌, ◌≤◌, ◌++◌, ◌∷◌, ◌+◌, ◌-◌, ◌^◌, [], IfOk, OnOk, Some, codes, count_by, if◌then◌else◌, length, slice_get, string_bytes};
ghost use Rattle.kc_display.specs.Difference.{ShowsDifference, edit_lines, header, hunk_end, is_ended, is_kept, is_new, is_old, is_shown, mark_text, no_end_text, range_text, shown_lines, starts_hunk};
ghost use Rattle.kc_display.specs.Pages.{Adds};
ghost use Rattle.kc_display.specs.Places.{AddsAll, AddsAt};

use crate::edits::{Edit, Mark, edits_of};
use crate::page::Page;
use std::alloc::{AllocError, Global};

// The text below a line without a line feed.
const NO_END: &[u8] = b"\\ No newline at end of file";

// How many edits before and after a change are printed.
const CONTEXT: usize = 3;

// The start of a line with this mark.
fn mark_text(mark: Mark) -> &'static [u8]
    ensures { result.now ≡ mark_text mark }
{
    match mark {
        Mark::Kept => b" ",
        Mark::Removed => b"-",
        Mark::Added => b"+",
    }
}

fn is_kept(mark: Mark) -> bool
    ensures { result ≡ is_kept mark }
{
    matches!(mark, Mark::Kept)
}

fn is_old(mark: Mark) -> bool
    ensures { result ≡ is_old mark }
{
    !matches!(mark, Mark::Added)
}

fn is_new(mark: Mark) -> bool
    ensures { result ≡ is_new mark }
{
    !matches!(mark, Mark::Removed)
}

// Whether the line has a line feed.
fn is_ended(line: &[u8]) -> bool
    ensures { result ≡ is_ended line.now }
{
    match line {
        [] => false,
        [.., last] => *last == b'\n',
    }
}

// Adds a line after its mark.
fn add_marked<'a>(mark: &'a [u8], line: &'a [u8], page: &mut Page) -> Result<(), AllocError>
    ensures { OnOk result (Adds ((mark.now ++ line.now) ∷ []) page.old page.new) }
{
    page.add(&[mark, line])
}

// Adds the text below a line without a line feed.
fn add_no_end(page: &mut Page) -> Result<(), AllocError>
    ensures { OnOk result (Adds (no_end_text ∷ []) page.old page.new) }
{
    page.add(&[NO_END])
}

// Adds a line without a line feed, after its mark.
fn add_unended<'a>(mark: &'a [u8], line: &'a [u8], page: &mut Page) -> Result<(), AllocError>
    ensures { OnOk result (Adds ((mark.now ++ line.now) ∷ no_end_text ∷ []) page.old page.new) }
{
    add_marked(mark, line, page)?;
    add_no_end(page)?;
    Ok(())
}

// Adds the line of an edit.
fn add_edit(edit: &Edit<'_>, page: &mut Page) -> Result<(), AllocError>
    ensures { OnOk result (Adds (edit_lines edit.now) page.old page.new) }
{
    let mark = mark_text(edit.mark);
    let line = edit.line;
    if is_ended(line) {
        return add_marked(mark, &line[..line.len().saturating_sub(1)], page);
    }
    add_unended(mark, line, page)
}

// Whether the edit is printed: it is a change or near one.
fn is_shown(edits: &[Edit<'_>], k: usize) -> bool
    requires { k < length edits.now }
    ensures { result ≡ is_shown edits.now k }
{
    let start = k.saturating_sub(CONTEXT);
    let end = k.saturating_add(CONTEXT + 1).min(edits.len());
    edits[start..end].iter().any(|edit| !is_kept(edit.mark))
}

// Whether the edit before it is not printed.
fn starts_hunk(edits: &[Edit<'_>], k: usize) -> bool
    requires { k < length edits.now }
    ensures { result ≡ starts_hunk edits.now k }
{
    k == 0 || !is_shown(edits, k - 1)
}

// The position after the printed edits in a row from k on.
fn hunk_end(edits: &[Edit<'_>], k: usize) -> usize
    requires { k < length edits.now }
    ensures end { result ≡ hunk_end edits.now (length edits.now - k) k }
    ensures after { k ≤ result }
    ensures within { result ≤ length edits.now }
{
    for end in k..edits.len() {
        if is_shown(edits, end) {
            continue;
        }
        return end;
    }
    edits.len()
}

// The number of edits that are lines of the old text.
fn old_count(edits: &[Edit<'_>]) -> usize
    ensures count { result ≡ count_by (λ e. is_old e.mark) edits.now }
    ensures within { result ≤ length edits.now }
{
    edits.iter().filter(|edit| is_old(edit.mark)).count()
}

// The number of edits that are lines of the new text.
fn new_count(edits: &[Edit<'_>]) -> usize
    ensures count { result ≡ count_by (λ e. is_new e.mark) edits.now }
    ensures within { result ≤ length edits.now }
{
    edits.iter().filter(|edit| is_new(edit.mark)).count()
}

// The first line of a hunk in a text with this many lines before it, if the hunk has lines of that text.
fn first_of(before: usize, count: usize) -> usize
    requires { before < 2 ^ 63 }
    ensures { result ≡ (if count == 0 then before else before + 1) }
{
    if count == 0 { before } else { before + 1 }
}

// The first line of a hunk in a text, and its number of lines there.
fn range_text(alloc: Global, before: usize, count: usize) -> Result<String, AllocError>
    requires { before < 2 ^ 63 }
    ensures { IfOk result (λ text. string_bytes text ≡ range_text before count) }
{
    let first = first_of(before, count);
    let text = format!(in alloc; "{first},{count}")?;
    Ok(text)
}

// Adds the line before a hunk with these ranges.
fn add_ranges<'a>(old: &'a [u8], new: &'a [u8], page: &mut Page) -> Result<(), AllocError>
    ensures { OnOk result (Adds ((codes "@@ -" ++ old.now ++ codes " +" ++ new.now ++ codes " @@") ∷ []) page.old page.new) }
{
    page.add(&[b"@@ -", old, b" +", new, b" @@"])
}

// Adds the line before a hunk.
fn add_header(
    alloc: Global,
    edits: &[Edit<'_>],
    k: usize,
    page: &mut Page,
) -> Result<(), AllocError>
    requires { k < length edits.now }
    ensures { OnOk result (Adds (header edits.now k ∷ []) page.old page.new) }
{
    let before = &edits[..k];
    let hunk = &edits[k..hunk_end(edits, k)];
    let old = range_text(alloc, old_count(before), old_count(hunk))?;
    let new = range_text(alloc, new_count(before), new_count(hunk))?;
    add_ranges(old.as_bytes(), new.as_bytes(), page)
}

// Adds the line before a hunk, or only counts it if it is not printed.
fn add_header_if(
    alloc: Global,
    edits: &[Edit<'_>],
    k: usize,
    page: &mut Page,
) -> Result<(), AllocError>
    requires { k < length edits.now }
    ensures { OnOk result (Adds (header edits.now k ∷ []) page.old page.new) }
{
    if page.is_full() {
        page.skip();
        return Ok(());
    }
    add_header(alloc, edits, k, page)
}

// Adds the line before a hunk, if one starts here.
fn add_start(alloc: Global, edits: &[Edit<'_>], k: usize, page: &mut Page) -> Result<(), AllocError>
    requires { k < length edits.now }
    ensures { OnOk result (Adds (if starts_hunk edits.now k then header edits.now k ∷ [] else []) page.old page.new) }
{
    if starts_hunk(edits, k) {
        return add_header_if(alloc, edits, k, page);
    }
    Ok(())
}

// The edit at a position.
fn edit_at<'a>(edits: &[Edit<'a>], k: usize) -> Edit<'a>
    requires { k < length edits.now }
    ensures { slice_get edits.now k ≡ Some result }
{
    edits[k]
}

// Adds the lines for the edit at this position.
fn add_place(alloc: Global, edits: &[Edit<'_>], k: usize, page: &mut Page) -> Result<(), AllocError>
    requires { k < length edits.now }
    ensures { OnOk result (AddsAt edits.now k page.old page.new) }
{
    if !is_shown(edits, k) {
        return Ok(());
    }
    add_start(alloc, edits, k, page)?;
    let edit = edit_at(edits, k);
    add_edit(&edit, page)
}

// Adds the lines for all edits.
fn add_places(alloc: Global, edits: &[Edit<'_>], page: &mut Page) -> Result<(), AllocError>
    ensures { OnOk result (AddsAll edits.now (length edits.now) page.old page.new) }
{
    for k in 0..edits.len() {
        add_place(alloc, edits, k, page)?;
    }
    Ok(())
}

// Adds the line with the name of the file.
fn add_old_name(name: &[u8], page: &mut Page) -> Result<(), AllocError>
    ensures { OnOk result (Adds ((codes "--- " ++ name.now) ∷ []) page.old page.new) }
{
    page.add(&[b"--- ", name])
}

// Adds the line with the name of the text.
fn add_new_name<'a>(name: &'a [u8], page: &mut Page) -> Result<(), AllocError>
    ensures { OnOk result (Adds ((codes "+++ " ++ name.now ++ codes " (expected)") ∷ []) page.old page.new) }
{
    page.add(&[b"+++ ", name, b" (expected)"])
}

// Adds all lines of the difference.
fn add_all(
    alloc: Global,
    name: &[u8],
    edits: &[Edit<'_>],
    page: &mut Page,
) -> Result<(), AllocError>
    ensures { OnOk result (Adds (shown_lines name.now edits.now) page.old page.new) }
{
    add_old_name(name, page)?;
    add_new_name(name, page)?;
    add_places(alloc, edits, page)?;
    Ok(())
}

/// Returns the difference of the old text of this file and the new text that it should hold: hunks with three lines of
/// context, at most 50 lines in total (our own; the format is that of `diff -u`).
///
/// Takes time and memory linear in the lines of both texts. Fails only if there is not enough memory.
pub fn difference(alloc: Global, name: &str, old: &[u8], new: &[u8]) -> Result<Vec<u8>, AllocError>
    ensures { IfOk result (λ text. ShowsDifference name.now old.now new.now text.items) }
{
    let edits = edits_of(alloc, old, new)?;
    let mut page = Page::new(alloc);
    add_all(alloc, name.as_bytes(), &edits, &mut page)?;
    page.into_text(alloc)
}
