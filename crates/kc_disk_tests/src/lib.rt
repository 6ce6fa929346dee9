//! Tests of whole runs of the program over a folder and a device in memory, which cover what cases of files cannot
//! show: devices that fail, when files are replaced, a usage error after which nothing is read, and many fragments.
#![tactic(auto)]

#[cfg(test)]
mod case;
#[cfg(test)]
mod faults;
#[cfg(test)]
mod replaced;
#[cfg(test)]
mod runs;
#[cfg(test)]
mod usage;
