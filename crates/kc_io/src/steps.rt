//! The steps of a delivery. Each reports its failure.
ghost use Rattle.std.specs.Prelude.{[]};
ghost use Rattle.std.specs.List.{flat_map};
ghost use Rattle.kc_io.specs.Log.{did, each_byte};
ghost use Rattle.kc_io.specs.Delivery.{moved, put};
ghost use Rattle.kc_io.specs.Delivered.{text_view, Went};

use crate::delivery::Text;
use crate::device::{Action, Device, Fault, Site};

/// The call that failed, the name of its file, and the cause.
#[derive(Clone, Copy, Debug)]
pub struct Failure<'a> {
    /// The call of the device.
    pub action: Action,
    /// The file's name; empty for the diagnostics.
    pub name: &'a str,
    /// The cause.
    pub fault: Fault,
}

fn create<'a, D: Device>(device: &mut D, site: Site, name: &'a str) -> Result<(), Failure<'a>>
    ensures { Went (did (Action.Create site) name.now) (D.log device.old) (D.log device.new) result }
{
    match device.create(site, name) {
        Ok(()) => Ok(()),
        Err(fault) => Err(Failure {
            action: Action::Create(site),
            name,
            fault,
        }),
    }
}

fn write<'a, D: Device>(
    device: &mut D,
    site: Site,
    name: &'a str,
    bytes: &[u8],
) -> Result<(), Failure<'a>>
    ensures { Went (each_byte (Action.Write site) name.now bytes.now) (D.log device.old) (D.log device.new) result }
{
    let mut at = 0;
    while at < bytes.len() {
        match device.write(site, name, &bytes[at..]) {
            Ok(count) => at += count,
            Err(fault) => return Err(Failure {
                action: Action::Write(site),
                name,
                fault,
            }),
        }
    }
    Ok(())
}

fn close<'a, D: Device>(device: &mut D, site: Site, name: &'a str) -> Result<(), Failure<'a>>
    ensures { Went (did (Action.Close site) name.now) (D.log device.old) (D.log device.new) result }
{
    match device.close(site, name) {
        Ok(()) => Ok(()),
        Err(fault) => Err(Failure {
            action: Action::Close(site),
            name,
            fault,
        }),
    }
}

// Creates a file, writes its text and closes it.
fn put<'a, D: Device>(device: &mut D, site: Site, text: &Text<'a>) -> Result<(), Failure<'a>>
    ensures { Went (put site (text_view text.now)) (D.log device.old) (D.log device.new) result }
{
    if let Err(failure) = create(device, site, text.name) {
        return Err(failure);
    }
    if let Err(failure) = write(device, site, text.name, &text.bytes) {
        return Err(failure);
    }
    close(device, site, text.name)
}

fn move_there<'a, D: Device>(device: &mut D, text: &Text<'a>) -> Result<(), Failure<'a>>
    ensures { Went (moved (text_view text.now)) (D.log device.old) (D.log device.new) result }
{
    match device.move_there(text.name) {
        Ok(()) => Ok(()),
        Err(fault) => Err(Failure {
            action: Action::Move,
            name: text.name,
            fault,
        }),
    }
}

/// Writes the files of these texts.
pub(crate) fn put_all<'a, D: Device>(
    device: &mut D,
    site: Site,
    texts: &[Text<'a>],
) -> Result<(), Failure<'a>>
    ensures { Went (flat_map (λ text. put site (text_view text)) texts.now) (D.log device.old) (D.log device.new) result }
{
    for text in texts {
        if let Err(failure) = put(device, site, text) {
            return Err(failure);
        }
    }
    Ok(())
}

/// Renames the temporary files of these texts.
pub(crate) fn move_all<'a, D: Device>(device: &mut D, texts: &[Text<'a>]) -> Result<(), Failure<'a>>
    ensures { Went (flat_map (λ text. moved (text_view text)) texts.now) (D.log device.old) (D.log device.new) result }
{
    for text in texts {
        if let Err(failure) = move_there(device, text) {
            return Err(failure);
        }
    }
    Ok(())
}
