//! Tests of single calls of the crates up to kc_solve and of kc_input. They cover what no run of the program shows:
//! limits whose inputs are generated, a folder that fails, a `.config` in chunks, the order in which files are read,
//! the plain slow solver compared with the solver, user values, and generic functions at a type. Whole runs are cases
//! in kconf_cases.
#![tactic(auto)]

#[cfg(test)]
mod bounds;
#[cfg(test)]
mod config_reader;
#[cfg(test)]
mod dependency_file;
#[cfg(test)]
mod expressions;
#[cfg(test)]
mod files;
#[cfg(test)]
mod how;
#[cfg(test)]
mod loading;
#[cfg(test)]
mod order;
#[cfg(test)]
mod places;
#[cfg(test)]
mod reading;
#[cfg(test)]
mod slow;
#[cfg(test)]
mod slow_lines;
#[cfg(test)]
mod solved;
#[cfg(test)]
mod solvers;
#[cfg(test)]
mod tokens;
#[cfg(test)]
mod trees;
#[cfg(test)]
mod trial;
