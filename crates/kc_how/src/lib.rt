#![tactic(auto)]
//! What must be set so that a symbol has a value: a fragment that works and has no line too many, or that no input works.
//!
//! A search suggests fragments; nothing is promised of it but that it ends. What is promised is checked on its answer.
//!
//! - [`question`]: what is asked, of which tree and input. [`goal`]: a symbol and the value that it shall have.
//! - [`answer`]: the answer, with what is proved of it. [`text`]: how it is told.
//! - [`shown`]: values of symbols. [`changes`]: what a fix changes.
//! - [`lines`]: the lines of a fragment. [`merged`]: the user's values of two inputs. [`fix`]: the check of a fragment.
//! - [`facts`]: what a goal needs. [`needs`] and [`ways`]: the ways to a fact, for values ([`truth_ways`]) and conditions
//!   ([`condition_ways`]), for texts ([`texts`]) and for the defaults and ranges that count ([`stated`]).
//! - [`costs`]: the cheapest way to a fact. [`memo`]: what is known of facts. [`prices`] and [`relations`]: what lines and relations cost.
//! - [`plan`]: the cheapest lines that give a goal. [`search`]: the fragments that are tried.
//! - [`tries`] and [`reached`]: what comes of lines. [`minimal`]: those that are needed. [`rank`]: what they cost the user.
//!   [`penalties`]: what the search avoids.

pub mod answer;
mod changes;
mod condition_ways;
mod costs;
mod facts;
pub mod fix;
pub mod goal;
mod lines;
mod memo;
mod merged;
mod minimal;
mod needs;
mod penalties;
mod plan;
mod prices;
pub mod question;
mod rank;
mod reached;
mod relations;
mod search;
mod shown;
mod stated;
pub mod text;
mod texts;
mod tries;
mod truth_ways;
mod ways;
