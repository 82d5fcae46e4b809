//! The tests of a session's own side: its hold, the checks of a port, and its calls.
#![tactic(auto)]

#[cfg(test)]
mod hold;
#[cfg(test)]
mod own;
#[cfg(test)]
mod port;
#[cfg(test)]
mod steps;
#[cfg(test)]
mod sync;
