//! A port of a switch, an end of a pipe or a monitor, which owns the buffers of the kernel side of
//! its receive ring, and the ports of a switch in a list by rising id.
#![tactic(auto)]

mod laws;
mod port;
mod ports;
mod room;
mod steps;

pub use laws::{lines_are_ports, lines_find_lots, ports_are_kept, ports_open_and_close};
pub use port::{Opening, Port};
pub use ports::{is_open_on, leased_port, offered_port, open_port, open_ports_on, shutting_port};
pub use room::PutRoom;
pub use steps::{close_at, done_at, grant_at, put_at, shut_at, sync_at};
