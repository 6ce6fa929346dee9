//! Laws of how runs for many configurations end, stated as the contract of a function that does nothing.
ghost use Rattle.kc_disk.specs.Program.{NamedStandApart};

use kc_io::laws::looking_keeps;

/// The law of many configurations over a folder: a run whose configurations have separate files leaves, for each of
/// them, what it leaves for the files as they were before the run, and each of its files holds its text after the run.
/// A run that ends before the first turn changes no file. (Our own.)
pub fn named_configurations_stand_apart()
    ensures { NamedStandApart }
{
    looking_keeps();
}
