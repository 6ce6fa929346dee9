//! `kconf` on the firmware tree of `data/`: the status of each run, and the files that it writes.
#![tactic(auto)]

use kc_disk::{Arguments, exit_status, kconf};
use std::alloc::{AllocError, Global};
use std::os::unix::fs::MetadataExt;
use std::time::SystemTime;
use std::{fs, io};

// Runs that write nothing: a usage error, refused trees, and devices that fail.
const WITHOUT_FILES: [&str; 9] = [
    "--out bad.config",
    "--out bad.config none/Kconfig",
    "--out bad.config start.config",
    "--out bad.config board",
    "--config board --out bad.config Kconfig",
    "--out bad.config Kconfig none.cfg",
    "--out /dev/full --header bad.config Kconfig",
    "--out bad.folder/config Kconfig",
    "--must-exist --config absent.config --out bad.config Kconfig",
];

// Runs with --replace on one file: it is created, it stays the same, it is replaced by another text, and warnings are
// refused.
const REPLACES: [&str; 5] = [
    "--replace --config start.config --out kept.config Kconfig site.config",
    "--replace --config start.config --out kept.config Kconfig site.config",
    "--replace --config start.config --out kept.config Kconfig",
    "--replace --strict --config start.config --out kept.config Kconfig site.config",
    "--replace --config start.config --out kept.config Kconfig none.cfg",
];

// Arguments that do not request a run.
const ANSWERS: [&str; 2] = ["--help", "--version"];

// The identity of a file, and when it was written.
#[derive(Clone, Copy, PartialEq)]
struct Placed {
    inode: u64,
    written: SystemTime,
}

// The arguments, separated by blanks.
fn arguments_of(alloc: Global, line: &str) -> Result<Vec<String>, AllocError> {
    let mut arguments = Vec::new(alloc);
    for word in line.split(' ') {
        arguments.push(String::from_str(alloc, word)?)?;
    }
    Ok(arguments)
}

// Runs `kconf` with the arguments of the line, and prints the exit status.
fn run(rt: &HostRuntime, line: &str) -> io::Result<()> {
    let arguments = Arguments::Given(arguments_of(rt.alloc(), line)?);
    let status = exit_status(kconf(rt, &arguments).status());
    println!(rt; "status {status}: {line}")
}

// Prints a file under its name.
fn show(rt: &HostRuntime, name: &str) -> io::Result<()> {
    let text = fs::read_to_string(rt, name)?;
    print!(rt; "== {name}\n{text}")
}

// The file of this name, if it exists.
fn file_in(rt: &HostRuntime, name: &str) -> io::Result<Option<Placed>> {
    if !fs::exists(rt, name)? {
        return Ok(None);
    }
    let metadata = fs::metadata(rt, name)?;
    Ok(Some(Placed {
        inode: metadata.ino(),
        written: metadata.modified()?,
    }))
}

// Runs with --replace, and prints for each run whether the file was replaced. A link to the first file shows that this
// file is not written again.
fn replace(rt: &HostRuntime) -> io::Result<()> {
    for line in REPLACES {
        let before = file_in(rt, "kept.config")?;
        run(rt, line)?;
        let is_same = file_in(rt, "kept.config")? == before;
        println!(rt; "kept.config is the file that it was: {is_same}")?;
        if before.is_none() {
            fs::hard_link(rt, "kept.config", "first.config")?;
        }
    }
    let is_first = fs::read(rt, "first.config")? == fs::read(rt, "full.config")?;
    println!(rt; "first.config is full.config: {is_first}")?;
    run(rt, "--config start.config --out plain.config Kconfig")?;
    let is_plain = fs::read(rt, "kept.config")? == fs::read(rt, "plain.config")?;
    println!(rt; "kept.config is plain.config: {is_plain}")
}

// Runs with --replace on a file that holds half of its text, and then on one that holds its text and one more byte:
// both are replaced.
fn replace_other_texts(rt: &HostRuntime) -> io::Result<()> {
    let whole = fs::read(rt, "full.config")?;
    let half = whole.len() / 2;
    let longer = format!(in rt.alloc(); "{}\n", fs::read_to_string(rt, "full.config")?)?;
    for text in [&whole[..half], longer.as_bytes()] {
        fs::write(rt, "kept.config", text)?;
        let before = file_in(rt, "kept.config")?;
        run(rt, REPLACES[0])?;
        let is_same = file_in(rt, "kept.config")? == before;
        let is_whole = fs::read(rt, "kept.config")? == whole;
        println!(rt;
            "kept.config is the file that it was: {is_same}, and full.config: {is_whole}"
        )?;
    }
    Ok(())
}

// Runs on a choice made for an older release, on the result of that, and on nothing, and shows what each run writes.
fn first_runs(rt: &HostRuntime) -> io::Result<()> {
    run(
        rt,
        "--config start.config --out full.config --header config.h --savedefconfig defconfig Kconfig site.config",
    )?;
    show(rt, "full.config")?;
    show(rt, "config.h")?;
    show(rt, "defconfig")?;
    run(rt, "--config defconfig --out again.config Kconfig")?;
    let is_same = fs::read(rt, "full.config")? == fs::read(rt, "again.config")?;
    println!(rt; "again.config is full.config: {is_same}")?;
    run(
        rt,
        "--config none.config --out none.config --savedefconfig none.defconfig Kconfig",
    )?;
    show(rt, "none.defconfig")?;
    run(
        rt,
        "--config none.config --out rule.config --depfile rule.d Kconfig site.config",
    )?;
    show(rt, "rule.d")
}

// Runs with more fragments than the number of files that a process may have open. Each fragment is an empty line.
fn many_fragments(rt: &HostRuntime) -> io::Result<()> {
    fs::write(rt, "empty.config", b"\n")?;
    let mut arguments = arguments_of(rt.alloc(), "--config defconfig --out many.config Kconfig")?;
    for _ in 0..1_100 {
        arguments.push(String::from_str(rt.alloc(), "empty.config")?)?;
    }
    let arguments = Arguments::Given(arguments);
    let status = exit_status(kconf(rt, &arguments).status());
    let is_same = fs::read(rt, "full.config")? == fs::read(rt, "many.config")?;
    println!(rt; "status {status}: 1100 fragments; many.config is full.config: {is_same}")
}

// Runs on the small trees in the folder rows.
fn small_runs(rt: &HostRuntime) -> io::Result<()> {
    run(
        rt,
        "--root rows --config rows/a.config --out ab.config --savedefconfig ab.defconfig Kconfig rows/x.cfg rows/y.cfg",
    )?;
    show(rt, "ab.config")?;
    show(rt, "ab.defconfig")?;
    run(
        rt,
        "--root rows --config rows/br2.config --out br2.config --header br2.h --prefix BR2_ Kconfig",
    )?;
    show(rt, "br2.config")?;
    show(rt, "br2.h")?;
    run(
        rt,
        "--root rows --config rows/lost.config --out lost.config --strict Kconfig",
    )?;
    run(
        rt,
        "--root rows --config rows/lost.config --out bad.config --strict --warn-lost Kconfig",
    )
}

fn main(rt: HostRuntime) -> io::Result<()> {
    first_runs(&rt)?;
    many_fragments(&rt)?;
    small_runs(&rt)?;
    replace(&rt)?;
    replace_other_texts(&rt)?;
    for line in WITHOUT_FILES {
        run(&rt, line)?;
    }
    let is_there = fs::exists(&rt, "bad.config")?;
    println!(rt; "bad.config is there: {is_there}")?;
    for line in ANSWERS {
        run(&rt, line)?;
    }
    Ok(())
}
