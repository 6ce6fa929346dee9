//! Input files in chunks, and writes that take few bytes: neither changes the results of a run.
use crate::trees::{TURNS, Turn};
use crate::trial::{ALL, options_of};
use crate::turns::{are_texts, run_turn};
use kc_conf::Status;
use kc_memory_device::{MemoryDevice, Plan, SMOOTH};
use std::alloc::Global;
use std::test::Fail;

// Whether the run over the tree with this plan writes its texts.
fn leaves_texts(alloc: Global, turn: &Turn, plan: Plan) -> Result<bool, Fail> {
    let files = [(".config", turn.settings)];
    let mut device = MemoryDevice::new(alloc, &files, plan);
    let status = run_turn(alloc, turn, &options_of(alloc, ALL)?, &mut device)?;
    Ok(status == Status::Done && are_texts(&device, turn))
}

#[test]
fn an_input_file_may_be_cut_at_each_place(rt: HostRuntime) -> Result<(), Fail> {
    for turn in TURNS {
        for before in 0..turn.settings.len() {
            let plan = Plan {
                first_read: before.saturating_add(1),
                ..SMOOTH
            };
            assert!(rt;
                leaves_texts(rt.alloc(), turn, plan)?,
                "{}: {before}",
                turn.name
            );
        }
    }
    Ok(())
}

#[test]
fn reads_and_writes_may_take_few_bytes(rt: HostRuntime) -> Result<(), Fail> {
    for turn in TURNS {
        for count in [1, 7, 4096] {
            let plan = Plan {
                first_read: count,
                later_reads: count,
                piece: count,
                ..SMOOTH
            };
            assert!(rt;
                leaves_texts(rt.alloc(), turn, plan)?,
                "{}: {count}",
                turn.name
            );
        }
    }
    Ok(())
}
