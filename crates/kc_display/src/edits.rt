//! The edits that turn one text into another, line by line.

ghost use Rattle.std.specs.Prelude.{◌≡◌, ◌+◌, ◌<◌, ◌≤◌, IfOk, OnOk, bytes_eq, drop, length, map, take};
ghost use Rattle.kc_display.specs.Difference.{IsDifference, lines, new_lines, old_lines};
ghost use Rattle.kc_display.specs.Steps.{Adds, IsFirstLine, Takes};

use std::alloc::{AllocError, Global};

/// What happens to a line.
#[derive(Clone, Copy, Debug, PartialEq, Eq)]
pub enum Mark {
    /// It is a line of both texts.
    Kept,
    /// It is a line of the old text only.
    Removed,
    /// It is a line of the new text only.
    Added,
}

/// A line, and what happens to it.
#[derive(Clone, Copy, Debug)]
pub struct Edit<'a> {
    /// What happens to the line.
    pub mark: Mark,
    /// The line, with its line feed.
    pub line: &'a [u8],
}

// How far apart two lines may be to count as the same line.
const WINDOW: usize = 64;

// How many lines of each text are skipped if no line recurs within the window.
const STRIDE: usize = 32;

// Cuts off the first line.
fn first_line<'a>(text: &'a [u8]) -> (&'a [u8], &'a [u8])
    requires { 0 < length text.now }
    ensures { IsFirstLine text.now result.0.now result.1.now }
{
    for i in 0..text.len() {
        if text[i] == b'\n' {
            return (&text[..i + 1], &text[i + 1..]);
        }
    }
    (text, &text[text.len()..])
}

/// Returns the lines of a text, each with its line feed (our own). The last one may have none. Fails only if there is
/// not enough memory.
pub fn lines_of<'a>(alloc: Global, text: &'a [u8]) -> Result<Vec<&'a [u8]>, AllocError>
    ensures { IfOk result (λ found. map (λ line. line.now) found.items ≡ lines text.now) }
{
    let mut found = Vec::new(alloc);
    let mut rest = text;
    while !rest.is_empty() {
        let (line, after) = first_line(rest);
        found.push(line)?;
        rest = after;
    }
    Ok(found)
}

// Whether two lines are the same.
fn is_same(one: &[u8], other: &[u8]) -> bool
    ensures { result ≡ bytes_eq one.now other.now }
{
    one == other
}

// The rest of the lines after the first ones.
#[tactic(auto, using(std::proofs::lemmas::List::take_rest))]
fn after<'s, 'a>(lines: &'s [&'a [u8]], count: usize) -> &'s [&'a [u8]]
    requires { count ≤ length lines.now }
    ensures { result.now ≡ drop count lines.now }
{
    &lines[count..]
}

// The number of lines that are the same at the start of both.
fn common_start(old: &[&[u8]], new: &[&[u8]]) -> usize
    ensures same { map (λ line. line.now) (take result old.now) ≡ map (λ line. line.now) (take result new.now) }
    ensures within_old { result ≤ length old.now }
    ensures within_new { result ≤ length new.now }
{
    let most = old.len().min(new.len());
    for i in 0..most {
        if is_same(old[i], new[i]) {
            continue;
        }
        return i;
    }
    most
}

// How many lines to remove and to add before the next common line: the fewest, or some if there is none within the
// window.
fn gap(old: &[&[u8]], new: &[&[u8]]) -> (usize, usize)
    ensures removed { result.0 ≤ length old.now }
    ensures added { result.1 ≤ length new.now }
    ensures some { 0 < length old.now + length new.now → 0 < result.0 + result.1 }
{
    for total in 1..=WINDOW {
        for removed in 0..=total {
            let added = total - removed;
            if removed < old.len() && added < new.len() && old[removed] == new[added] {
                return (removed, added);
            }
        }
    }
    (old.len().min(STRIDE), new.len().min(STRIDE))
}

// Adds lines with this mark.
fn add<'a>(mark: Mark, lines: &[&'a [u8]], edits: &mut Vec<Edit<'a>>) -> Result<(), AllocError>
    ensures { OnOk result (Adds mark (map (λ line. line.now) lines.now) edits.old.items edits.new.items) }
{
    for line in lines {
        edits.push(Edit { mark, line: *line })?;
    }
    Ok(())
}

// Adds the lines before the next lines that may be common, and returns how many it took of both.
fn advance<'a>(
    old: &[&'a [u8]],
    new: &[&'a [u8]],
    edits: &mut Vec<Edit<'a>>,
) -> Result<(usize, usize), AllocError>
    requires { 0 < length old.now + length new.now }
    ensures takes { IfOk result (λ count. Takes (map (λ line. line.now) (take count.0 old.now)) (map (λ line. line.now) (take count.1 new.now)) edits.old.items edits.new.items) }
    ensures old { IfOk result (λ count. count.0 ≤ length old.now) }
    ensures new { IfOk result (λ count. count.1 ≤ length new.now) }
    ensures some { IfOk result (λ count. 0 < count.0 + count.1) }
{
    let kept = common_start(old, new);
    let old_rest = after(old, kept);
    let new_rest = after(new, kept);
    let (removed, added) = gap(old_rest, new_rest);
    add(Mark::Kept, &old[..kept], edits)?;
    add(Mark::Removed, &old_rest[..removed], edits)?;
    add(Mark::Added, &new_rest[..added], edits)?;
    Ok((kept + removed, kept + added))
}

// The edits that turn these lines into those.
fn edits_between<'a>(
    alloc: Global,
    old: &[&'a [u8]],
    new: &[&'a [u8]],
) -> Result<Vec<Edit<'a>>, AllocError>
    ensures old { IfOk result (λ edits. old_lines edits.items ≡ map (λ line. line.now) old.now) }
    ensures new { IfOk result (λ edits. new_lines edits.items ≡ map (λ line. line.now) new.now) }
{
    let mut edits = Vec::new(alloc);
    let mut old_at = 0;
    let mut new_at = 0;
    while old_at < old.len() || new_at < new.len() {
        let old_rest = after(old, old_at);
        let new_rest = after(new, new_at);
        let (old_taken, new_taken) = advance(old_rest, new_rest, &mut edits)?;
        old_at += old_taken;
        new_at += new_taken;
    }
    Ok(edits)
}

/// Returns edits that turn the old text into the new one: lines that recur within 64 lines are kept (our own).
///
/// Takes time and memory linear in the lines of both texts. Fails only if there is not enough memory.
pub fn edits_of<'a>(
    alloc: Global,
    old: &'a [u8],
    new: &'a [u8],
) -> Result<Vec<Edit<'a>>, AllocError>
    ensures { IfOk result (λ edits. IsDifference old.now new.now edits.items) }
{
    let old = lines_of(alloc, old)?;
    let new = lines_of(alloc, new)?;
    edits_between(alloc, &old, &new)
}
