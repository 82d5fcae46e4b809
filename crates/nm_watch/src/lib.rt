//! Who monitors what: the ports that netmap(4)'s monitors copy from.
#![tactic(auto)]

mod watches;

pub use watches::{Watch, Watches};
