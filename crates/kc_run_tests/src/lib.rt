//! Tests of runs in memory, which cover what cases of files cannot show: input files in chunks, writes that take few
//! bytes, each call of a device that fails, limits whose inputs are generated, a tree cut off after each byte, and that
//! each line of the minimal file is needed. Also the arguments of the command line.
#![tactic(auto)]

#[cfg(test)]
mod arguments;
#[cfg(test)]
mod case;
#[cfg(test)]
mod chunks;
#[cfg(test)]
mod cuts;
#[cfg(test)]
mod faults;
#[cfg(test)]
mod limits;
#[cfg(test)]
mod minimal;
#[cfg(test)]
mod texts;
#[cfg(test)]
mod trees;
#[cfg(test)]
mod trial;
#[cfg(test)]
mod turns;
