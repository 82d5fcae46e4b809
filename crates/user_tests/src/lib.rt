//! The tests of sessions on one fabric, also on threads.
#![tactic(auto)]

#[cfg(test)]
mod users;
