//! The content of files after all calls.
ghost use Rattle.std.specs.Prelude.{◌≡◌, ◌++◌, [], IfOk, Some, fold, option_map};
ghost use Rattle.kc_io.specs.Log.{Spot, acted, after};
ghost use Rattle.kc_memory_device.specs.Recorded.{events_in, first_held, held_after, is_held_after};
ghost use Rattle.kc_memory_device.specs.Sights.{seen};
ghost use Rattle.kc_memory_device.specs.Spots.{spot_view};
ghost use Rattle.kc_memory_device.specs.Stripped.{seen_at};

use crate::record::Record;
use crate::sight::{Sight, rest_of, seen_after};
use kc_io::{Action, Site};
use std::alloc::{AllocError, Global};

/// The content of a file, and of the temporary file beside it.
#[derive(Drop)]
pub(crate) struct Stand {
    held: Option<Vec<u8>>,
    beside: Vec<u8>,
}

/// Returns the content of this file at first.
pub(crate) fn first_held<'a>(first: &[(&'a str, &'a [u8])], name: &str) -> Option<&'a [u8]>
    ensures { option_map (λ bytes. bytes.now) result ≡ first_held first.now name.now }
{
    let mut rest = first;
    while let [(named, bytes), behind @ ..] = rest {
        if name == *named {
            return Some(bytes);
        }
        rest = behind;
    }
    None
}

// The remaining bytes before any call.
fn first_sight<'b>(first: &[(&str, &[u8])], name: &str, bytes: &'b [u8]) -> Sight<'b>
    ensures { seen result ≡ seen_at bytes.now (record { held = first_held first.now name.now; beside = [] }) }
{
    match first_held(first, name) {
        Some(found) => Sight {
            held: rest_of(Some(bytes), found),
            beside: Some(bytes),
        },
        None => Sight {
            held: None,
            beside: Some(bytes),
        },
    }
}

// The remaining bytes after one more call.
fn seen_record<'b>(bytes: &'b [u8], name: &str, call: &Record, sight: Sight<'b>) -> Sight<'b>
    ensures { (spot : Spot) → seen sight.entry ≡ seen_at bytes.now spot → seen result ≡ seen_at bytes.now (fold (after name.now) spot (events_in call.now)) }
{
    if call.fault.is_some() {
        return sight;
    }
    if name != call.name.as_str() {
        return sight;
    }
    seen_after(bytes, sight, call.action, call.bytes.as_slice())
}

/// Whether the file of this name exists after these calls, and holds exactly these bytes.
pub(crate) fn is_held_after(
    first: &[(&str, &[u8])],
    records: &[Record],
    name: &str,
    bytes: &[u8],
) -> bool
    ensures { result ≡ is_held_after first.now records.now name.now bytes.now }
{
    let mut sight = first_sight(first, name, bytes);
    for call in records {
        sight = seen_record(bytes, name, call, sight);
    }
    match sight.held {
        Some(rest) => rest.is_empty(),
        None => false,
    }
}

fn grown(held: Option<Vec<u8>>, bytes: &[u8]) -> Result<Option<Vec<u8>>, AllocError>
    ensures { IfOk result (λ new. option_map (λ h. h.items) new ≡ option_map (λ h. h.items ++ bytes.now) held) }
{
    let Some(mut held) = held else {
        return Ok(None)
    };
    held.extend_from_slice(bytes)?;
    Ok(Some(held))
}

fn act(alloc: Global, stand: &mut Stand, action: Action, bytes: &[u8]) -> Result<(), AllocError>
    ensures { IfOk result (λ _. spot_view stand.new ≡ acted action bytes.now (spot_view stand.old)) }
{
    match action {
        Action::Create(Site::Place) => stand.held = Some(Vec::new(alloc)),
        Action::Create(Site::Beside) => stand.beside.clear(),
        Action::Write(Site::Place) => {
            let held = stand.held.take();
            stand.held = grown(held, bytes)?;
        }
        Action::Write(Site::Beside) => stand.beside.extend_from_slice(bytes)?,
        Action::Move => stand.held = Some(Vec::from_slice(alloc, &stand.beside)?),
        Action::Open
        | Action::Miss
        | Action::Read
        | Action::Close(_)
        | Action::Clear
        | Action::Report => {}
    }
    Ok(())
}

fn act_record(alloc: Global, stand: &mut Stand, name: &str, call: &Record) -> Result<(), AllocError>
    ensures { IfOk result (λ _. spot_view stand.new ≡ fold (after name.now) (spot_view stand.old) (events_in call.now)) }
{
    if call.fault.is_some() {
        return Ok(());
    }
    if name != call.name.as_str() {
        return Ok(());
    }
    act(alloc, stand, call.action, call.bytes.as_slice())
}

fn copied(alloc: Global, bytes: Option<&[u8]>) -> Result<Option<Vec<u8>>, AllocError>
    ensures { IfOk result (λ copy. option_map (λ h. h.items) copy ≡ option_map (λ b. b.now) bytes.entry) }
{
    match bytes {
        Some(bytes) => Ok(Some(Vec::from_slice(alloc, bytes)?)),
        None => Ok(None),
    }
}

/// Returns the content of the file of this name after these calls.
pub(crate) fn held_after(
    alloc: Global,
    first: &[(&str, &[u8])],
    records: &[Record],
    name: &str,
) -> Result<Option<Vec<u8>>, AllocError>
    ensures { IfOk result (λ held. option_map (λ h. h.items) held ≡ held_after first.now records.now name.now) }
{
    let mut stand = Stand {
        held: copied(alloc, first_held(first, name))?,
        beside: Vec::new(alloc),
    };
    for call in records {
        act_record(alloc, &mut stand, name, call)?;
    }
    Ok(stand.held)
}
