use std::alloc::Alloc;
use std::fs::{self, Files};

/// The most kilobytes that this process has had in memory so far, as Linux tells it: 0 where it does
/// not.
pub fn peak<R: Files + Alloc>(rt: &R) -> u64 {
    let Ok(status) = fs::read_to_string(rt, "/proc/self/status") else {
        return 0;
    };
    let Some((_, rest)) = status.split_once("VmHWM:") else {
        return 0;
    };
    match rest.split_whitespace().next() {
        Some(kilobytes) => kilobytes.parse().unwrap_or(0),
        None => 0,
    }
}
