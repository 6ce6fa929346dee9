//! What must be set in each of many configurations of one tree so that a symbol has a value.
ghost use Rattle.kc_read.specs.Files.{files_in};
ghost use Rattle.std.specs.Prelude.{◌≡◌, ℕ, Bool, List};
ghost use Rattle.kc_language.specs.Expansion.{Files};
ghost use Rattle.kc_conf.specs.Accepted.{IsOrderedOf, IsReady};
ghost use Rattle.kc_conf.specs.How.{HowRunsEach, HowTurn};
ghost use Rattle.kc_conf.specs.HowParts.{IsInquiry};
ghost use Rattle.kc_conf.specs.Many.{AreRootedAt, KeepsFor};
ghost use Rattle.kc_conf.specs.PartRuns.{EndsEach};

use crate::accepted::{AcceptedTree, OrderedTree, read_tree};
use crate::how_run::how_accepted;
use crate::many::{Configurations, Task, all_turns, answer_all};
use crate::reply::{Asked, Inquiry};
use crate::runs::{Turn, answer, refuse};
use crate::stop::Stop;
use kc_io::Device;
use kc_options::{Options, Status};
use kc_possible::possible::Possible;
use kc_read::file_map::FileMap;
use kc_solve::again::Again;
use std::alloc::Global;

impl<'q> Task for Inquiry<'q> {
    ghost is_ready = { λ s accepted. IsInquiry accepted s };

    ghost leaves = { λ s. HowTurn s.asked.now };

    fn take<D: Device>(
        &self,
        alloc: Global,
        options: &Options,
        accepted: &OrderedTree<'_>,
        device: &mut D,
        _again: &mut Again,
    ) -> Turn {
        let ended = how_accepted(alloc, options, self, accepted, &[], device);
        answer(options, ended, device)
    }
}

// Asks over an accepted tree, for each configuration.
fn how_turns<C: Configurations, D: Device>(
    alloc: Global,
    configurations: &C,
    asked: &Asked<'_>,
    accepted: &OrderedTree<'_>,
    device: &mut D,
) -> Result<Status, Stop<'static>>
    requires { IsReady accepted.now }
    ensures { (files : Files) (root : List ℕ) (keeps : Bool) → IsOrderedOf files root keeps accepted.now → KeepsFor (C.options configurations.now) keeps →
        AreRootedAt root (C.options configurations.now) →
        EndsEach (HowTurn asked.now files) files root (C.options configurations.now) (C.number configurations.now) result (D.log device.old) (D.log device.new) }
{
    let possible = Possible::of(alloc, &accepted.laid, accepted.order.nodes())?;
    let inquiry = Inquiry {
        asked,
        possible: &possible,
    };
    all_turns(
        alloc,
        configurations,
        &inquiry,
        accepted,
        device,
        &mut Again::never(),
    )
}

// Asks over the files, without reporting why it stopped early.
fn how_each_over<C: Configurations, D: Device>(
    alloc: Global,
    files: FileMap,
    root: &str,
    configurations: &C,
    asked: &Asked<'_>,
    device: &mut D,
    kept: &mut Option<AcceptedTree>,
) -> Result<Status, Stop<'static>>
    requires { AreRootedAt root.now (C.options configurations.now) }
    ensures { EndsEach (HowTurn asked.now (files_in files)) (files_in files) root.now (C.options configurations.now) (C.number configurations.now) result (D.log device.old) (D.log device.new) }
{
    let keeps = configurations.keeps_sources();
    let reading = match read_tree(alloc, files, root.as_bytes(), keeps) {
        Ok(reading) => reading,
        Err(refusal) => return refuse(&refusal, device),
    };
    let accepted = match reading.ordered(alloc) {
        Ok(accepted) => accepted,
        Err(refusal) => return refuse(&refusal, device),
    };
    let ended = how_turns(alloc, configurations, asked, &accepted, device);
    let order = accepted.order;
    *kept = Some(AcceptedTree { reading, order });
    ended
}

/// Tells for each configuration of one tree what must be set so that the symbol of the first name to be explained has the asked
/// value, over a map of files and a device (our own).
///
/// The tree is read once, from this Kconfig file, which must be the root file of all options. A refused tree is reported once,
/// and ends all. Otherwise its warnings are reported once. Then each configuration takes its turn, and leaves what
/// [`how`](crate::how) leaves for its options after the tree's warnings. With `names_config` each text begins with a comment line
/// that names the configuration.
///
/// A refused configuration (E17, E21, E24, E25, E26), or one whose files cannot be read or written (E18, E19), does not stop the
/// others. E20 (not enough memory) and a failure of the diagnostics end all. Returns the greatest status. An accepted tree is
/// moved to `kept`.
pub fn how_each<C: Configurations, D: Device>(
    alloc: Global,
    files: FileMap,
    root: &str,
    configurations: &C,
    asked: &Asked<'_>,
    device: &mut D,
    kept: &mut Option<AcceptedTree>,
) -> Status
    requires { AreRootedAt root.now (C.options configurations.now) }
    ensures { HowRunsEach asked.now (files_in files) root.now (C.options configurations.now) (C.number configurations.now) (D.log device.old) (D.log device.new) result }
{
    let ended = how_each_over(alloc, files, root, configurations, asked, device, kept);
    answer_all(ended, device)
}
