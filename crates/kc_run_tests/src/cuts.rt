//! A tree that is cut off after each byte.
use crate::trees::MENUS;
use crate::trial::{ALL, is_made, one_file, options_of, run_over};
use kc_conf::{Options, Status};
use kc_memory_device::{MemoryDevice, SMOOTH};
use std::alloc::Global;
use std::test::Fail;

fn line_ends(text: &[u8]) -> usize {
    text.iter().filter(|byte| **byte == b'\n').count()
}

// Whether all outputs are created; the content of the dependency file is not checked.
fn has_all(device: &MemoryDevice<'_>) -> bool {
    ["out.h", "min.config", ".config"]
        .iter()
        .all(|name| is_made(device, name))
}

// Whether one line reports why the tree is refused, and nothing was read or created.
fn is_refused_in_one_line(device: &MemoryDevice<'_>) -> bool {
    let said = device.diagnostics();
    said.starts_with(b"Kconfig:")
        && said.ends_with(b"\n")
        && line_ends(said) == 1
        && matches!(device.records(), Some([]))
}

// Whether the run over this tree succeeds; None if it neither succeeds nor is refused in one line.
fn is_accepted(alloc: Global, tree: &[u8], options: &Options) -> Result<Option<bool>, Fail> {
    let files = [(".config", b"".as_slice())];
    let mut device = MemoryDevice::new(alloc, &files, SMOOTH);
    Ok(
        match run_over(alloc, one_file(alloc, tree)?, options, &mut device) {
            Status::Done if has_all(&device) => Some(true),
            Status::Refused if is_refused_in_one_line(&device) => Some(false),
            _ => None,
        },
    )
}

#[test]
fn a_tree_cut_anywhere_is_done_or_refused_in_one_line(rt: HostRuntime) -> Result<(), Fail> {
    let options = options_of(rt.alloc(), ALL)?;
    let tree = MENUS.as_bytes();
    let mut done = 0_usize;
    for end in 0..tree.len() {
        match is_accepted(rt.alloc(), &tree[..end], &options)? {
            Some(true) => done = done.saturating_add(1),
            Some(false) => {}
            None => assert!(rt; false, "{end}"),
        }
    }
    let refused = tree.len().saturating_sub(done);
    assert!(rt; done > 10 && refused > 50, "{done} {refused}");
    assert!(rt; is_accepted(rt.alloc(), tree, &options)? == Some(true));
    Ok(())
}
