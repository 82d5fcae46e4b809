//! Puts of loads, which are parts of the scripts that `load` answers.
use nm_types::NoMemory;
use vale_gen::load;
use vale_script::{Act, Line, Script, Unit};

/// A put: its line, its user, the last byte of its destination (255: everyone), its length and fill.
type Row = (u32, u32, u8, u16, u8);

/// Puts of the loads of 7 and of the greatest number, worked out outside this program.
const PUTS: &[(u64, Row)] = &[
    (7, (10, 1, 255, 68, 0)),
    (7, (11, 1, 3, 69, 1)),
    (7, (12, 1, 3, 70, 2)),
    (7, (14, 1, 255, 72, 4)),
    (7, (318, 1, 1, 112, 44)),
    (7, (2382, 2, 4, 113, 44)),
    (7, (8263, 4, 2, 86, 207)),
    (u64::MAX, (10, 1, 3, 60, 0)),
    (u64::MAX, (11, 1, 255, 61, 1)),
    (u64::MAX, (2074, 2, 255, 61, 0)),
];

fn block_of(script: &Script) -> &[Line] {
    match script.units().last() {
        Some(Unit::Block { lines }) => lines.as_slice(),
        Some(Unit::Single { .. }) | None => &[],
    }
}

fn row_of(line: &Line) -> Option<Row> {
    match &line.act {
        Act::Put { to, len, fill, .. } => Some((line.at, line.user, to.0[5], *len, *fill)),
        _ => None,
    }
}

/// A script has a put.
fn has_put(script: &Script, put: Row) -> bool {
    block_of(script)
        .iter()
        .any(|line| line.at == put.0 && row_of(line) == Some(put))
}

#[test]
fn frames_of_loads(rt: HostRuntime) -> Result<(), NoMemory> {
    for (n, put) in PUTS {
        let script = load(rt.alloc(), *n)?;
        assert!(rt; has_put(&script, *put), "line {}", put.0);
    }
    Ok(())
}
