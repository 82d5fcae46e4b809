use nm_types::{MAX_EXTRA, MAX_RING, Name, NoMemory, OpenFault, PortId};
use std::alloc::Global;
use std::process::Abort;
use vale_names::Names;

/// An opening: the name, the sizes of both rings, the extra buffers and the answer.
type Opening = (&'static str, u32, u32, u32, Option<OpenFault>);

/// Openings in order.
const OPENINGS: [Opening; 19] = [
    ("vale0:a", 4, 4, 0, None),
    ("vale0:b", MAX_RING, MAX_RING, MAX_EXTRA, None),
    ("vale0:c", 1, 2, 0, Some(OpenFault::BadSize)),
    ("vale0:c", 2, 1, 0, Some(OpenFault::BadSize)),
    ("vale0:c", MAX_RING + 1, 2, 0, Some(OpenFault::BadSize)),
    ("vale0:c", 2, MAX_RING + 1, 0, Some(OpenFault::BadSize)),
    ("vale0:e", 2, 2, MAX_EXTRA + 1, Some(OpenFault::BadSize)),
    ("vale0:a", 0, 2, 0, Some(OpenFault::BadSize)),
    ("vale0:a", 2, 2, 0, Some(OpenFault::NameTaken)),
    ("vale:a", 2, 2, 0, None),
    ("vale0:abcdefghij", 2, 2, 0, None),
    ("pipe0{", 0, 2, 0, Some(OpenFault::BadSize)),
    ("pipe0{", 2, 2, 0, None),
    ("pipe0}", 2, 2, 0, None),
    ("pipe0{", 2, 2, 0, Some(OpenFault::NameTaken)),
    ("mon0", 2, 2, 0, Some(OpenFault::BadSize)),
    ("mon0", 0, 2, 3, None),
    ("mon0", 0, 2, 0, Some(OpenFault::NameTaken)),
    ("monitor", 0, MAX_RING, 0, None),
];

/// A step of a walk, with its answer.
enum Step {
    Opens(&'static str, u32, Option<OpenFault>),
    Finds(&'static str, Option<PortId>),
    Shuts(u32),
    Goes(u32),
}

/// A fifth switch is refused while four have a port, also a shutting one.
const FIFTH_SWITCH: [Step; 14] = [
    Step::Opens("vale0:a", 0, None),
    Step::Opens("vale1:a", 1, None),
    Step::Opens("vale2:a", 2, None),
    Step::Opens("vale3:a", 3, None),
    Step::Opens("vale4:a", 4, Some(OpenFault::SwitchesFull)),
    Step::Opens("vale3:b", 5, None),
    Step::Goes(5),
    Step::Shuts(3),
    Step::Opens("vale4:a", 6, Some(OpenFault::SwitchesFull)),
    Step::Goes(3),
    Step::Opens("vale4:a", 7, None),
    Step::Opens("vale3:a", 8, Some(OpenFault::SwitchesFull)),
    Step::Opens("pipe0{", 9, None),
    Step::Finds("vale4:a", Some(PortId(7))),
];

/// The name of a shutting port is taken and finds nothing; it is free once the port is gone.
const SHUT_AND_GONE: [Step; 15] = [
    Step::Opens("vale0:a", 4, None),
    Step::Opens("pipe0}", 5, None),
    Step::Opens("mon0", 6, None),
    Step::Finds("pipe0}", Some(PortId(5))),
    Step::Finds("pipe0{", None),
    Step::Shuts(4),
    Step::Shuts(6),
    Step::Finds("vale0:a", None),
    Step::Finds("mon0", None),
    Step::Opens("vale0:a", 7, Some(OpenFault::NameTaken)),
    Step::Opens("mon0", 8, Some(OpenFault::NameTaken)),
    Step::Goes(4),
    Step::Opens("vale0:a", 9, None),
    Step::Finds("vale0:a", Some(PortId(9))),
    Step::Finds("vale9:a", None),
];

/// What precedes and follows a letter in the names of pipe ends and monitors.
const KINDS: [(&str, &str); 4] = [("pipe", "{"), ("pipe", "}"), ("mon", "0"), ("mon", "1")];

/// The name that a text is.
fn name(rt: &impl Abort, text: &str) -> Name {
    match Name::parse(text) {
        Ok(name) => name,
        Err(_) => panic!(rt; "{text} is no name"),
    }
}

/// Opens a port with rings of 2 slots (a monitor without a transmit ring), and returns the refusal.
fn opened(rt: &impl Abort, names: &mut Names, text: &str, id: u32) -> Option<OpenFault> {
    let name = name(rt, text);
    let tx = if name.is_monitor() { 0 } else { 2 };
    names.open(&name, PortId(id), tx, 2, 0).err()
}

/// Tells whether a step is answered as it says.
fn is_answered(rt: &impl Abort, names: &mut Names, step: &Step) -> bool {
    match step {
        Step::Opens(text, id, answer) => opened(rt, names, text, *id) == *answer,
        Step::Finds(text, answer) => names.find(&name(rt, text)) == *answer,
        Step::Shuts(id) => {
            names.shut(PortId(*id));
            true
        }
        Step::Goes(id) => {
            names.gone(PortId(*id));
            true
        }
    }
}

/// Takes steps over no names, each of which is answered as it says.
fn walk(rt: &impl Abort, alloc: Global, steps: &[Step]) -> Result<(), NoMemory> {
    let mut names = Names::new(alloc)?;
    for (at, step) in steps.iter().enumerate() {
        assert!(rt; is_answered(rt, &mut names, step), "step {at}");
    }
    Ok(())
}

/// The opening of a name has this answer.
fn open(rt: &impl Abort, names: &mut Names, text: &str, id: u32, answer: Option<OpenFault>) {
    assert!(rt; opened(rt, names, text, id) == answer, "{text}");
}

/// The opening of each of the four names with this letter has this answer.
fn open_each(
    rt: &impl Abort,
    alloc: Global,
    names: &mut Names,
    letter: char,
    answer: Option<OpenFault>,
) {
    for (front, back) in KINDS {
        match format!(in alloc; "{front}{letter}{back}") {
            Ok(text) => open(rt, names, &text, letter as u32, answer),
            Err(_) => panic!(rt; "no memory"),
        }
    }
}

/// Tells whether an opening under a number is answered as it says.
fn opens(rt: &impl Abort, names: &mut Names, id: u32, opening: &Opening) -> bool {
    let (text, tx, rx, extra, answer) = opening;
    names
        .open(&name(rt, text), PortId(id), *tx, *rx, *extra)
        .err()
        == *answer
}

#[test]
fn openings_and_refusals(rt: HostRuntime) -> Result<(), NoMemory> {
    let mut names = Names::new(rt.alloc())?;
    for (i, opening) in OPENINGS.iter().enumerate() {
        assert!(rt; opens(&rt, &mut names, i as u32, opening), "opening {i}");
    }
    Ok(())
}

#[test]
fn switches_live_with_their_ports(rt: HostRuntime) -> Result<(), NoMemory> {
    walk(&rt, rt.alloc(), &FIFTH_SWITCH)?;
    walk(&rt, rt.alloc(), &SHUT_AND_GONE)
}

/// Opens the ports of one switch with the numbers below 254.
fn open_many(rt: &impl Abort, alloc: Global, names: &mut Names) {
    for id in 0..254 {
        match format!(in alloc; "vale0:{id}") {
            Ok(text) => open(rt, names, &text, id, None),
            Err(_) => panic!(rt; "no memory"),
        }
    }
}

/// With 254 ports of one switch, one more is refused with `PortsFull`, even if its name is taken.
#[test]
fn one_switch_port_too_many(rt: HostRuntime) -> Result<(), NoMemory> {
    let mut names = Names::new(rt.alloc())?;
    open_many(&rt, rt.alloc(), &mut names);
    open(&rt, &mut names, "vale0:0", 254, Some(OpenFault::PortsFull));
    open(&rt, &mut names, "vale0:z", 254, Some(OpenFault::PortsFull));
    open(&rt, &mut names, "vale1:0", 254, None);
    Ok(())
}

/// With 32 pipe ends and 32 monitors, one more of each is refused with `PortsFull`, even if its
/// name is taken.
#[test]
fn one_end_or_monitor_too_many(rt: HostRuntime) -> Result<(), NoMemory> {
    let full = Some(OpenFault::PortsFull);
    let mut names = Names::new(rt.alloc())?;
    for letter in 'a'..='p' {
        open_each(&rt, rt.alloc(), &mut names, letter, None);
    }
    open_each(&rt, rt.alloc(), &mut names, 'a', full);
    open_each(&rt, rt.alloc(), &mut names, 'z', full);
    Ok(())
}
