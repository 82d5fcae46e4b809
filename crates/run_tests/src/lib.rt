//! The tests of scripts at work, and of runs of the program's calls.
#![tactic(auto)]

#[cfg(test)]
mod plays;
#[cfg(test)]
mod runs;
