//! The tests of the words and of what is lowest: names, frames, rings, slots, buffers, cells, the turn
//! and tables.
#![tactic(auto)]

#[cfg(test)]
mod count;
#[cfg(test)]
mod extra;
#[cfg(test)]
mod frag;
#[cfg(test)]
mod pipe;
#[cfg(test)]
mod pool;
#[cfg(test)]
mod reach;
#[cfg(test)]
mod region;
#[cfg(test)]
mod ring;
#[cfg(test)]
mod slot;
#[cfg(test)]
mod turn;
#[cfg(test)]
mod types;
#[cfg(test)]
mod watch;
