//! A run for many configurations of one tree: it reads the tree once, and the configurations take their turns.
ghost use Rattle.kc_read.specs.Files.{files_in};
ghost use Rattle.std.specs.Prelude.{◌≡◌, ◌<◌, ℕ, Bool, List, Ok, IfOk};
ghost use Rattle.kc_language.specs.Expansion.{Files};
ghost use Rattle.kc_language.specs.Symbols.{TreeFacts};
ghost use Rattle.kc_io.specs.Log.{Log};
ghost use Rattle.kc_solve.specs.Again.{IsAgainOf};
ghost use Rattle.kc_conf.specs.Accepted.{IsAcceptedOf, IsOrderedOf, IsReady};
ghost use Rattle.kc_conf.specs.Many.{AreRootedAt, KeepsFor, RunsEach, RunsTurn, TakeTurns, TakesTurn, greater};
ghost use Rattle.kc_conf.specs.PartRuns.{AnswersAll, EndsEach};
ghost use Rattle.kc_conf.specs.declared.accepted.OrderedTree.{OrderedTree};
ghost use Rattle.kc_outcome.specs.Outcome.{Options};
ghost use Rattle.kc_outcome.specs.declared.outcome.Status.{Status};

use crate::accepted::{AcceptedTree, OrderedTree, read_tree};
use crate::diagnostics::{say_lines, say_no_memory};
use crate::runs::{Turn, answer, refuse, run_accepted};
use crate::stop::Stop;
use kc_io::Device;
use kc_options::{Options, Status};
use kc_read::file_map::FileMap;
use kc_solve::again::Again;
use std::alloc::{AllocError, Global};

/// Gives the options of each of many configurations of one tree (our own).
pub trait Configurations {
    /// The number of configurations.
    ghost number: { Self → ℕ };

    /// The possible options of the configuration of this number, counted from 0.
    ghost options: { Self → ℕ → Options → Type 0 };

    /// Returns the number of configurations.
    fn count(&self) -> usize
        ensures { result ≡ number self.now };

    /// Returns the options of one configuration, counted from 0.
    ///
    /// # Errors
    ///
    /// Fails if there is not enough memory.
    fn options_of(&self, alloc: Global, i: usize) -> Result<Options, AllocError>
        requires { i < number self.now }
        ensures { IfOk result (options self.now i) };

    /// Whether the sources of the tree are kept. They are if one of the configurations wants them (`wants_sources` of
    /// kc_options).
    fn keeps_sources(&self) -> bool
        ensures { KeepsFor (options self.now) result };
}

/// What is done in the turn of each configuration of an accepted tree.
pub(crate) trait Task {
    /// Whether it can be done with this tree.
    ghost is_ready: { Self → OrderedTree → Type 0 };

    /// What a turn leaves.
    ghost leaves: { Self → Files → TreeFacts → Options → Log → Log → Status → Bool → Type 0 };

    /// Takes the turn of a configuration with these options, after the tree's warnings. It may keep what the next solution
    /// needs of its own.
    fn take<D: Device>(
        &self,
        alloc: Global,
        options: &Options,
        accepted: &OrderedTree<'_>,
        device: &mut D,
        again: &mut Again,
    ) -> Turn
        requires ready { is_ready self.now accepted.now }
        requires again { IsAgainOf accepted.now.laid again.old }
        ensures again { IsAgainOf accepted.now.laid again.new }
        ensures leaves { (files : Files) → IsAcceptedOf files options.now accepted.now →
            leaves self.now files accepted.now.laid.tree.now options.now (D.log device.old) (D.log device.new) result.status result.is_over };
}

/// The task of a run.
#[derive(Clone, Copy)]
struct Running;

impl Task for Running {
    ghost is_ready = { λ s accepted. IsReady accepted };

    ghost leaves = { λ s. RunsTurn };

    fn take<D: Device>(
        &self,
        alloc: Global,
        options: &Options,
        accepted: &OrderedTree<'_>,
        device: &mut D,
        again: &mut Again,
    ) -> Turn {
        let ended = run_accepted(alloc, options, accepted, &[], device, again);
        answer(options, ended, device)
    }
}

// The turn of the configuration with these options, if there was enough memory for them.
fn take_turn<T: Task, D: Device>(
    alloc: Global,
    options: Result<Options, AllocError>,
    task: &T,
    accepted: &OrderedTree<'_>,
    device: &mut D,
    again: &mut Again,
) -> Turn
    requires again { IsAgainOf accepted.now.laid again.old }
    requires ready { T.is_ready task.now accepted.now }
    ensures again { IsAgainOf accepted.now.laid again.new }
    ensures turn { (files : Files) → IfOk options (λ own. IsAcceptedOf files own accepted.now) →
        TakesTurn (T.leaves task.now files accepted.now.laid.tree.now) (λ own. options ≡ Ok own) (D.log device.old) (D.log device.new) result.status result.is_over }
{
    match options {
        Ok(options) => task.take(alloc, &options, accepted, device, again),
        Err(_) => {
            say_no_memory(device);
            Turn {
                status: Status::Faulted,
                is_over: true,
            }
        }
    }
}

// ---- all turns

// The greater of two statuses.
fn greater(a: Status, b: Status) -> Status
    ensures { result ≡ greater a b }
{
    match (a, b) {
        (Status::Faulted, _) | (_, Status::Faulted) => Status::Faulted,
        (Status::Usage, _) | (_, Status::Usage) => Status::Usage,
        (Status::Refused, _) | (_, Status::Refused) => Status::Refused,
        (Status::Done, Status::Done) => Status::Done,
    }
}

// Lets each configuration take its turn, up to one that ends all turns.
fn take_turns<C: Configurations, T: Task, D: Device>(
    alloc: Global,
    configurations: &C,
    task: &T,
    accepted: &OrderedTree<'_>,
    device: &mut D,
    again: &mut Again,
) -> Status
    requires again { IsAgainOf accepted.now.laid again.old }
    requires ready { T.is_ready task.now accepted.now }
    ensures { (files : Files) → ((i : ℕ) (options : Options) → C.options configurations.now i options → IsAcceptedOf files options accepted.now) →
        TakeTurns (T.leaves task.now files accepted.now.laid.tree.now) (C.options configurations.now) 0 (C.number configurations.now) (D.log device.old) (D.log device.new) result }
{
    let mut status = Status::Done;
    for i in 0..configurations.count() {
        let options = configurations.options_of(alloc, i);
        let turn = take_turn(alloc, options, task, accepted, device, again);
        status = greater(status, turn.status);
        if turn.is_over {
            return status;
        }
    }
    status
}

// ---- the tree

/// Reports the warnings of an accepted tree, then lets the configurations take their turns.
pub(crate) fn all_turns<C: Configurations, T: Task, D: Device>(
    alloc: Global,
    configurations: &C,
    task: &T,
    accepted: &OrderedTree<'_>,
    device: &mut D,
    again: &mut Again,
) -> Result<Status, Stop<'static>>
    requires again { IsAgainOf accepted.now.laid again.old }
    requires ready { T.is_ready task.now accepted.now }
    ensures { (files : Files) (root : List ℕ) (keeps : Bool) → IsOrderedOf files root keeps accepted.now → KeepsFor (C.options configurations.now) keeps →
        AreRootedAt root (C.options configurations.now) →
        EndsEach (T.leaves task.now files) files root (C.options configurations.now) (C.number configurations.now) result (D.log device.old) (D.log device.new) }
{
    match say_lines(alloc, device, accepted.laid.tree.parse_warnings()) {
        Ok(()) => Ok(take_turns(alloc, configurations, task, accepted, device, again)),
        Err(stop) => Err(stop),
    }
}

// For so few configurations nothing is kept of a solution: what the nodes need would take more steps than it saves.
const FEW_CONFIGURATIONS: usize = 4;

// What is kept from one configuration to the next, if there are so many that it saves steps.
fn kept_between(
    alloc: Global,
    accepted: &OrderedTree<'_>,
    count: usize,
) -> Result<Again, AllocError>
    requires { IsReady accepted.now }
    ensures { IfOk result (IsAgainOf accepted.now.laid) }
{
    if count > FEW_CONFIGURATIONS {
        Again::of(alloc, &accepted.laid, &accepted.order)
    } else {
        Ok(Again::never())
    }
}

// Runs over an accepted tree, for each configuration.
fn turns<C: Configurations, D: Device>(
    alloc: Global,
    configurations: &C,
    accepted: &OrderedTree<'_>,
    device: &mut D,
) -> Result<Status, Stop<'static>>
    requires { IsReady accepted.now }
    ensures { (files : Files) (root : List ℕ) (keeps : Bool) → IsOrderedOf files root keeps accepted.now → KeepsFor (C.options configurations.now) keeps →
        AreRootedAt root (C.options configurations.now) →
        EndsEach (RunsTurn files) files root (C.options configurations.now) (C.number configurations.now) result (D.log device.old) (D.log device.new) }
{
    let mut again = kept_between(alloc, accepted, configurations.count())?;
    all_turns(
        alloc,
        configurations,
        &Running,
        accepted,
        device,
        &mut again,
    )
}

// Runs over the files, without reporting why it stopped early.
fn run_each_over<C: Configurations, D: Device>(
    alloc: Global,
    files: FileMap,
    root: &str,
    configurations: &C,
    device: &mut D,
    kept: &mut Option<AcceptedTree>,
) -> Result<Status, Stop<'static>>
    requires { AreRootedAt root.now (C.options configurations.now) }
    ensures { EndsEach (RunsTurn (files_in files)) (files_in files) root.now (C.options configurations.now) (C.number configurations.now) result (D.log device.old) (D.log device.new) }
{
    let keeps = configurations.keeps_sources();
    let reading = match read_tree(alloc, files, root.as_bytes(), keeps) {
        Ok(reading) => reading,
        Err(refusal) => return refuse(&refusal, device),
    };
    let accepted = match reading.ordered(alloc) {
        Ok(accepted) => accepted,
        Err(refusal) => return refuse(&refusal, device),
    };
    let ended = turns(alloc, configurations, &accepted, device);
    let order = accepted.order;
    *kept = Some(AcceptedTree { reading, order });
    ended
}

/// Answers how the runs ended. If they stopped before the first turn, reports that there was not enough memory, unless
/// the diagnostics failed.
pub(crate) fn answer_all<D: Device>(ended: Result<Status, Stop<'_>>, device: &mut D) -> Status
    ensures { AnswersAll ended.entry result (D.log device.old) (D.log device.new) }
{
    let stop = match ended {
        Ok(status) => return status,
        Err(stop) => stop,
    };
    if let Stop::OutOfMemory = stop {
        say_no_memory(device);
    }
    Status::Faulted
}

/// Runs for each configuration of one tree, over a map of files and a device (our own).
///
/// The tree is read once, from this Kconfig file, which must be the root file of all options. A refused tree is
/// reported once, and ends all. Otherwise its warnings are reported once. Then each configuration takes its turn, and
/// leaves what [`run`](crate::run) leaves for its options after the tree's warnings, independent of the others: both do
/// the same with the tree and with each configuration, and `run` reports the warnings of the tree in its one turn. A
/// refused configuration (E17, E21, E22, E23, E24), or one whose files cannot be read or written (E18, E19), does not
/// stop the others. E20 (not enough memory) and a failure of the diagnostics end all. Returns the greatest status.
///
/// The files are freed when they are read, unless the texts use them. An accepted tree is moved to `kept` and replaces
/// its content. Freeing it takes time. A program that is about to exit can leak it instead.
pub fn run_each<C: Configurations, D: Device>(
    alloc: Global,
    files: FileMap,
    root: &str,
    configurations: &C,
    device: &mut D,
    kept: &mut Option<AcceptedTree>,
) -> Status
    requires { AreRootedAt root.now (C.options configurations.now) }
    ensures { RunsEach (files_in files) root.now (C.options configurations.now) (C.number configurations.now) (D.log device.old) (D.log device.new) result }
{
    let ended = run_each_over(alloc, files, root, configurations, device, kept);
    answer_all(ended, device)
}
