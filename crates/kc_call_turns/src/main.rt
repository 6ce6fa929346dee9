//! Single calls, and their results. With enough memory each call does its work: that is what the gate checks. `make
//! refused` makes each allocation fail in turn. Then a call does its work without the allocation, or fails with out of
//! memory and its contract holds. No call may be wrong.
#![tactic(auto)]

mod config_files;
mod end;
mod expressions;
mod lines;
mod trees;

use crate::config_files::{Feed, Output, Work};
use crate::end::{CallEnd, said};
use crate::expressions::Reading;
use crate::trees::{KCONFIG, LOOP, Ordering, on_tree};
use std::alloc::{AllocError, Global};
use std::io;

/// A call.
#[derive(Clone, Copy)]
enum Call {
    NextInto,
    Lex,
    Id,
    Parse,
    SymbolsInto,
    Insert,
    SourcesOf,
    Build,
    OrderOf,
    OrderOfLoop,
    Solve,
    Feed,
    Text(Output),
}

const CALLS: &[(&str, Call)] = &[
    ("next_into", Call::NextInto),
    ("lex", Call::Lex),
    ("id", Call::Id),
    ("parse", Call::Parse),
    ("symbols_into", Call::SymbolsInto),
    ("insert", Call::Insert),
    ("sources_of", Call::SourcesOf),
    ("build", Call::Build),
    ("EvaluationOrder::of", Call::OrderOf),
    ("EvaluationOrder::of a loop", Call::OrderOfLoop),
    ("solve", Call::Solve),
    ("feed", Call::Feed),
    ("config_text", Call::Text(Output::Config)),
    ("header_text", Call::Text(Output::Header)),
    ("minimal_text", Call::Text(Output::Minimal)),
];

// Makes the call.
fn end_of(alloc: Global, call: Call) -> Result<CallEnd, AllocError> {
    match call {
        Call::NextInto => Ok(lines::call_next_into(alloc)),
        Call::Lex => Ok(lines::call_lex(alloc)),
        Call::Id => Ok(expressions::call_id(alloc)),
        Call::Parse => expressions::call_on_tokens(alloc, Reading::Parse),
        Call::SymbolsInto => expressions::call_on_tokens(alloc, Reading::SymbolsInto),
        Call::Insert => trees::call_insert(alloc),
        Call::SourcesOf => Ok(trees::call_sources_of(alloc)),
        Call::Build => trees::call_build(alloc),
        Call::OrderOf => on_tree(alloc, KCONFIG, &Ordering::Order),
        Call::OrderOfLoop => on_tree(alloc, LOOP, &Ordering::Loop),
        Call::Solve => on_tree(alloc, KCONFIG, &Work::Solve),
        Call::Feed => on_tree(alloc, KCONFIG, &Feed),
        Call::Text(output) => on_tree(alloc, KCONFIG, &Work::Text(output)),
    }
}

// Prints one line: the call and its result.
fn tell(rt: &HostRuntime, name: &str, call: Call) -> io::Result<()> {
    let said = said(end_of(rt.alloc(), call));
    println!(rt; "{name}: {said}")
}

fn main(rt: HostRuntime) -> io::Result<()> {
    for (name, call) in CALLS {
        tell(&rt, name, *call)?;
    }
    Ok(())
}
