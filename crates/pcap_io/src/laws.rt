//! Laws of captures. Each function does nothing; its contract is a law about the definitions, which
//! the check proves.
#![tactic(auto, using(crate::proofs::CaptureLaws::capture_laws))]

ghost use Rattle.std.specs.Prelude.{◌≡◌};
ghost use Rattle.pcap_io.specs.Limits.{header_bytes, head_bytes, most_captured};
ghost use Rattle.pcap_io.specs.Laws.{CapturesHaveNoFault, BytesDetermineRecords, WrittenIsReadAgain};

use crate::MAX_CAPTURED;
use crate::reading::{HEAD_LEN, HEADER_LEN};

/// Bytes are a capture of some records or have a first fault, and never both.
pub fn captures_have_no_fault()
    ensures { CapturesHaveNoFault }
{}

/// The bytes of a capture determine its records, so `read` answers a capture's own records or that
/// it is out of memory.
pub fn bytes_determine_records()
    ensures { BytesDetermineRecords }
{}

/// What `write_header` and then `write_record` write is a capture of these records.
pub fn written_is_read_again()
    ensures { WrittenIsReadAgain }
{}

/// The sizes in the code are the numbers that the definitions have.
pub fn limits_are_defined()
    ensures header { HEADER_LEN ≡ header_bytes }
    ensures head { HEAD_LEN ≡ head_bytes }
    ensures captured { MAX_CAPTURED ≡ most_captured }
{}
