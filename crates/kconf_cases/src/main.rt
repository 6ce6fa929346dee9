//! Runs the cases of `data/`, each in its own folder, and compares the results with the folder's `expect`.
//!
//! `data/index` lists the cases, one in each line, each with a sentence. README.md describes the files of a case.
#![tactic(auto)]

mod arguments;
mod case;
mod compare;
mod folders;
mod index;
mod outcome;

use crate::case::run_case;
use crate::index::{case_name, report_unlisted};
use std::process::ExitCode;
use std::{env, fs, io};

// Runs each case of the index, and returns how many failed.
fn run_all(rt: &HostRuntime, top: &str, index: &str) -> io::Result<u64> {
    let mut failed: u64 = 0;
    for line in index.lines() {
        if !run_case(rt, top, case_name(line))? {
            failed = failed.saturating_add(1);
        }
    }
    Ok(failed)
}

fn main(rt: HostRuntime) -> io::Result<ExitCode> {
    let top = env::current_dir(&rt)?;
    let index = fs::read_to_string(&rt, "index")?;
    let unlisted = report_unlisted(&rt, &index)?;
    let failed = run_all(&rt, top.as_path().as_str(), &index)?.saturating_add(unlisted);
    println!(rt; "{failed} failed")?;
    Ok(ExitCode::from(if failed == 0 { 0 } else { 1 }))
}
