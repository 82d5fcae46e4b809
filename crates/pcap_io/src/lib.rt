//! Classic captures: files of the libpcap format 2.4 with Ethernet frames (pcap-savefile(5)), read
//! whole and written a record at a time. Captures of the format pcapng are refused.
#![tactic(auto)]

mod bytes;
mod fault;
pub mod laws;
mod order;
mod reading;
mod record;
mod writing;

pub use bytes::Bytes;
pub use fault::PcapFault;
pub use reading::read;
pub use record::Record;
pub use writing::{header, record_head, write_header, write_record};

/// The most captured bytes of a record.
pub const MAX_CAPTURED: u32 = 262_144;
