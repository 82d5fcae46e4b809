//! What holds of the definitions that all crates cite: each law is the clause of a function with an
//! empty body.
ghost use Rattle.std.specs.Prelude.{◌≡◌};
ghost use Rattle.nm_types.specs.Limits as limits;

use crate::limits::{
    BUCKETS, BUFFER_BYTES, DEFAULT_POOL, Limits, MAX_BATCH, MAX_CAPTURE_BYTES, MAX_COUNTS,
    MAX_EXTRA, MAX_FRAME_BYTES, MAX_FRAME_SLOTS, MAX_MONITORS, MAX_PIPE_ENDS, MAX_PLAYED, MAX_POOL,
    MAX_PORTS, MAX_RING, MAX_SCRIPT_BYTES, MAX_SCRIPT_LINES, MAX_SWITCH_PORTS, MAX_SWITCHES,
    MAX_TEXT, MAX_USERS, MIN_RING, NAME_BYTES,
};

/// The limits of the code are the numbers that the definitions have.
pub fn limits_are_defined()
    ensures ring { (MIN_RING ≡ limits.least_ring) × (MAX_RING ≡ limits.most_ring) }
    ensures extra { MAX_EXTRA ≡ limits.most_extra }
    ensures pool { (MAX_POOL ≡ limits.most_pool) × (DEFAULT_POOL ≡ limits.default_pool) }
    ensures buffer { BUFFER_BYTES ≡ limits.buffer_bytes }
    ensures batch { MAX_BATCH ≡ limits.most_batch }
    ensures frame { (MAX_FRAME_BYTES ≡ limits.most_frame_bytes)
        × (MAX_FRAME_SLOTS ≡ limits.most_frame_slots) }
    ensures switches { MAX_SWITCHES ≡ limits.most_switches }
    ensures switch_ports { MAX_SWITCH_PORTS ≡ limits.most_switch_ports }
    ensures pipe_ends { MAX_PIPE_ENDS ≡ limits.most_pipe_ends }
    ensures monitors { MAX_MONITORS ≡ limits.most_monitors }
    ensures ports { MAX_PORTS ≡ limits.most_ports }
    ensures name { NAME_BYTES ≡ limits.name_bytes }
    ensures learning { BUCKETS ≡ limits.buckets }
    ensures first_record { (Limits.VERSION_1.entries ≡ limits.first_most_entries)
        × (Limits.VERSION_1.bytes ≡ limits.first_most_bytes) }
    ensures record { (Limits.VERSION_2.entries ≡ limits.most_entries)
        × (Limits.VERSION_2.bytes ≡ limits.most_bytes) }
    ensures text { MAX_TEXT ≡ limits.most_text }
    ensures users { MAX_USERS ≡ limits.most_users }
    ensures script { (MAX_SCRIPT_BYTES ≡ limits.most_script_bytes)
        × (MAX_SCRIPT_LINES ≡ limits.most_script_lines) }
    ensures counts { MAX_COUNTS ≡ limits.most_counts }
    ensures captures { (MAX_CAPTURE_BYTES ≡ limits.most_capture_bytes)
        × (MAX_PLAYED ≡ limits.most_played) }
{}
