//! What must be set so that a symbol has a value, over a folder.
ghost use Rattle.kc_disk.specs.Program.{FolderAsks};

use kc_conf::{AcceptedTree, Asked, Status, how_in_folder};
use kc_io::Device;
use kc_load::Folder;
use kc_words::HowQuestion;
use std::alloc::Global;

/// Tells what must be set so that the symbol of the question has the value, as `how_in_folder` of kc_conf (our own).
pub(crate) fn ask<F: Folder, D: Device>(
    alloc: Global,
    folder: &mut F,
    how: &HowQuestion,
    device: &mut D,
    kept: &mut Option<AcceptedTree>,
) -> Status
    ensures { FolderAsks how.now (F.state folder.old) (F.state folder.new) (D.log device.old) (D.log device.new) result }
{
    let asked = Asked {
        value: how.value.as_str(),
        steps: how.steps,
    };
    how_in_folder(alloc, folder, &how.options, &asked, device, kept)
}
