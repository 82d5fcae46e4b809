//! The tests of scripts and transcripts: their words, their lines, and the script of a load.
#![tactic(auto)]

#[cfg(test)]
mod load;
#[cfg(test)]
mod scripts;
#[cfg(test)]
mod transcripts;
#[cfg(test)]
mod words;
