//! The program `kconf`: reads a tree of Kconfig files and a `.config`, and writes the full `.config` and, on request, a
//! C header, a minimal `.config` and a dependency file for make.
#![tactic(auto)]

use kc_disk::{Arguments, exit_status, kconf};
use std::env;
use std::process::ExitCode;

fn main(rt: HostRuntime) -> ExitCode {
    let arguments = Arguments::of(rt.alloc(), env::args(&rt)).checked(&rt);
    ExitCode::from(exit_status(kconf(&rt, &arguments).status()))
}
