//! The lines that give a symbol its ranges.
ghost use Rattle.std.specs.List.{flat_map};
ghost use Rattle.std.specs.Prelude.{◌≡◌, ◌==◌, ◌++◌, [], IfOk, OnOk, codes, if◌then◌else◌, map, nat_lt, take};
ghost use Rattle.kc_language.specs.Expansion.{defined_name};
ghost use Rattle.kc_language.specs.Symbols.{is_symbol_of};
ghost use Rattle.kc_entries.specs.Entries.{lines_in};
ghost use Rattle.kc_entries.specs.StatementViews.{attribute_view, head_view};
ghost use Rattle.kc_hints.specs.Facts.{is_range, joined, most_places, place_text, places_text, range_places};
ghost use Rattle.kc_hints.specs.RangeParts.{entry_places, place_if, place_view};

use itoa::Buffer;
use kc_entries::entries::{AttributeLine, Entries, Entry, EntryLines};
use kc_entries::statement::{Attribute, Head};
use kc_expr::expression::SymId;
use std::alloc::{AllocError, Global};

/// The maximum number of locations in a hint.
const MOST_PLACES: usize = 5;

/// A line of a file of the tree.
#[derive(Clone, Copy)]
pub(crate) struct RangePlace<'e> {
    pub file: &'e [u8],
    pub line: u32,
}

// Whether a line defines the symbol.
fn is_of(head: &Head, id: SymId) -> bool
    ensures { result ≡ is_symbol_of id (defined_name (head_view head.now)) }
{
    match head {
        Head::Config(symbol) => id.0 == symbol.0,
        _ => false,
    }
}

// Whether a line gives a range.
fn is_range(attribute: &Attribute) -> bool
    ensures { result ≡ is_range (attribute_view attribute.now) }
{
    matches!(attribute, Attribute::Range(_))
}

// Adds a line of an entry, if it gives a range.
fn add_line<'e>(
    first: &'e Entry,
    next: &'e AttributeLine,
    places: &mut Vec<RangePlace<'e>>,
) -> Result<(), AllocError>
    ensures { OnOk result (map place_view places.new.items ≡ map place_view places.old.items ++ place_if first.now next.now) }
{
    if is_range(&next.attribute) {
        places.push(RangePlace {
            file: &first.file,
            line: next.line,
        })?;
    }
    Ok(())
}

// Adds the range lines of an entry.
fn add_ranges<'e>(
    first: &'e Entry,
    attributes: &'e [AttributeLine],
    places: &mut Vec<RangePlace<'e>>,
) -> Result<(), AllocError>
    ensures { OnOk result (map place_view places.new.items ≡ map place_view places.old.items ++ flat_map (place_if first.now) attributes.now) }
{
    for next in attributes {
        add_line(first, next, places)?;
    }
    Ok(())
}

// Adds the range lines of an entry, if it is one of the symbol.
fn add_entry<'e>(
    own: EntryLines<'e>,
    id: SymId,
    places: &mut Vec<RangePlace<'e>>,
) -> Result<(), AllocError>
    ensures { OnOk result (map place_view places.new.items ≡ map place_view places.old.items ++ entry_places id own.entry.first.now own.entry.attributes.now) }
{
    if is_of(&own.first.head, id) {
        return add_ranges(own.first, own.attributes, places);
    }
    Ok(())
}

/// The range lines of a symbol, in order.
pub(crate) fn range_places<'e>(
    alloc: Global,
    entries: &'e Entries,
    id: SymId,
) -> Result<Vec<RangePlace<'e>>, AllocError>
    ensures { IfOk result (λ places. map place_view places.items ≡ range_places id (lines_in entries.now)) }
{
    let mut places = Vec::new(alloc);
    let mut at = 0;
    'entries: while let Some(entry) = entries.entry(at) {
        add_entry(entry, id, &mut places)?;
        at += 1;
    }
    Ok(places)
}

// The text before the locations.
fn before_places(count: usize) -> &'static [u8]
    ensures { result.now ≡ (if count == 1 then codes "its range stands at " else codes "its ranges stand at ") }
{
    if count == 1 {
        b"its range stands at "
    } else {
        b"its ranges stand at "
    }
}

// Adds a location.
fn add_place(place: RangePlace<'_>, text: &mut Vec<u8>) -> Result<(), AllocError>
    ensures { OnOk result (text.new.items ≡ text.old.items ++ place_text (place_view place.entry)) }
{
    let mut buffer = Buffer::new();
    let digits = buffer.format(place.line).as_bytes();
    text.extend_from_slice(place.file)?;
    text.extend_from_slice(b":")?;
    text.extend_from_slice(digits)
}

// The text after a location, with this many more locations.
fn behind_place(more: usize) -> &'static [u8]
    ensures { result.now ≡ (if more == 0 then [] else codes ", ") }
{
    if more == 0 { b"" } else { b", " }
}

// Adds locations.
fn add_places(places: &[RangePlace<'_>], text: &mut Vec<u8>) -> Result<(), AllocError>
    ensures { OnOk result (text.new.items ≡ text.old.items ++ joined (map place_view places.now)) }
{
    let mut rest = places;
    'places: while let [place, more @ ..] = rest {
        add_place(*place, text)?;
        text.extend_from_slice(behind_place(more.len()))?;
        rest = more;
    }
    Ok(())
}

// The first locations.
fn first_places<'p, 'e>(places: &'p [RangePlace<'e>]) -> &'p [RangePlace<'e>]
    ensures { result.now ≡ take most_places places.now }
{
    &places[..places.len().min(MOST_PLACES)]
}

// The text after the locations.
fn behind_places(count: usize) -> &'static [u8]
    ensures { result.now ≡ (if nat_lt most_places count then codes ".." else []) ++ codes "; " }
{
    if count > MOST_PLACES { b"..; " } else { b"; " }
}

/// Returns the text about range lines: the locations of the first five, and whether there are more.
pub(crate) fn places_text(alloc: Global, places: &[RangePlace<'_>]) -> Result<Vec<u8>, AllocError>
    ensures { IfOk result (λ text. text.items ≡ places_text (map place_view places.now)) }
{
    let mut text = Vec::new(alloc);
    if places.is_empty() {
        return Ok(text);
    }
    text.extend_from_slice(before_places(places.len()))?;
    add_places(first_places(places), &mut text)?;
    text.extend_from_slice(behind_places(places.len()))?;
    Ok(text)
}
