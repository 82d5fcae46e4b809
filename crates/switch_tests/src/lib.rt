//! The tests of the switch and its parts, up to its drive on one thread.
#![tactic(auto)]

#[cfg(test)]
mod batches;
#[cfg(test)]
mod drive;
#[cfg(test)]
mod entries;
#[cfg(test)]
mod learn;
#[cfg(test)]
mod leases;
#[cfg(test)]
mod lines;
#[cfg(test)]
mod names;
