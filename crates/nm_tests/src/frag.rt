use nm_frag::{part, slots};
use std::process::Abort;

/// For each length the number of slots, and the place and length of the last part.
const FRAMES: [(usize, u32, usize, usize); 6] = [
    (0, 1, 0, 0),
    (60, 1, 0, 60),
    (2048, 1, 0, 2048),
    (2049, 2, 2048, 1),
    (5000, 3, 4096, 904),
    (131_072, 64, 129_024, 2048),
];

#[test]
fn last_parts(rt: HostRuntime) {
    for (len, count, start, last) in FRAMES {
        if len <= 131_072 {
            let n = slots(len);
            assert!(rt; n == count, "{len}");
            assert!(rt; part(len, n - 1) == (start, last), "{len}");
        }
    }
}
