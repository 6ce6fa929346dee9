//! Runs on written files: the minimal file restores the `.config` and needs each of its lines, and reports of lost
//! values change no file.
use crate::trees::{TURNS, Turn};
use crate::trial::{ALL, is_left, options_of};
use crate::turns::{are_files, run_turn};
use kc_conf::Status;
use kc_memory_device::{MemoryDevice, SMOOTH};
use std::alloc::{AllocError, Global};
use std::test::Fail;

// Whether the run over the tree with these lines writes this `.config`, and on request all files.
fn leaves_on(
    alloc: Global,
    turn: &Turn,
    lines: &[u8],
    arguments: &str,
    all_files: bool,
) -> Result<bool, Fail> {
    let files = [(".config", lines)];
    let mut device = MemoryDevice::new(alloc, &files, SMOOTH);
    let status = run_turn(alloc, turn, &options_of(alloc, arguments)?, &mut device)?;
    Ok(
        status == Status::Done
            && is_left(&device, ".config", turn.config)
            && (!all_files || are_files(&device, turn)),
    )
}

#[test]
fn the_minimal_file_restores_all_files(rt: HostRuntime) -> Result<(), Fail> {
    for turn in TURNS {
        let restores = leaves_on(rt.alloc(), turn, turn.minimal, ALL, true)?;
        assert!(rt; restores, "{}", turn.name);
    }
    Ok(())
}

// Adds the text without its line of this number.
fn without_line_into(text: &[u8], line: usize, left: &mut Vec<u8>) -> Result<(), AllocError> {
    let mut number = 0usize;
    for byte in text {
        if number != line {
            left.push(*byte)?;
        }
        if *byte == b'\n' {
            number = number.saturating_add(1);
        }
    }
    Ok(())
}

// Whether the minimal file without its line of this number gives a different `.config`.
fn needs_line(alloc: Global, turn: &Turn, line: usize) -> Result<bool, Fail> {
    let mut left = Vec::new(alloc);
    without_line_into(turn.minimal, line, &mut left)?;
    let files = [(".config", left.as_slice())];
    let mut device = MemoryDevice::new(alloc, &files, SMOOTH);
    let status = run_turn(alloc, turn, &options_of(alloc, ALL)?, &mut device)?;
    Ok(status == Status::Done && !is_left(&device, ".config", turn.config))
}

#[test]
fn each_line_of_the_minimal_file_is_needed(rt: HostRuntime) -> Result<(), Fail> {
    let mut lines = 0usize;
    for turn in TURNS {
        let count = turn.minimal.iter().filter(|byte| **byte == b'\n').count();
        for line in 0..count {
            assert!(rt;
                needs_line(rt.alloc(), turn, line)?,
                "{}: {line}",
                turn.name
            );
        }
        lines = lines.saturating_add(count);
    }
    assert!(rt; lines == 4, "{lines}");
    Ok(())
}

#[test]
fn a_run_on_its_own_config_writes_it_again(rt: HostRuntime) -> Result<(), Fail> {
    for turn in TURNS {
        let again = leaves_on(rt.alloc(), turn, turn.config, ALL, false)?;
        assert!(rt; again, "{}", turn.name);
    }
    Ok(())
}

const REPORTING: &str =
    "--warn-lost --header out.h --savedefconfig min.config --depfile out.d Kconfig";

#[test]
fn reports_of_lost_values_change_no_file(rt: HostRuntime) -> Result<(), Fail> {
    for turn in TURNS {
        let same = leaves_on(rt.alloc(), turn, turn.settings, REPORTING, true)?;
        assert!(rt; same, "{}", turn.name);
    }
    Ok(())
}
