//! The tests of shelves, sinks and captures.
#![tactic(auto)]

#[cfg(test)]
mod captures;
#[cfg(test)]
mod shelves;
