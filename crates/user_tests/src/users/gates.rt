//! What other users do while one is held between a grant and its completion. The gate that holds the
//! one has the others, so all is on one thread.
ghost use Rattle.nm_user.specs.Words.{IsPassIn};

use super::lines::{Line, NONE, are_lines, play};
use super::{FOUR, FRAME, User, leave, open, pull, push, three_come};
use nm_io::{Gate, NoGate, Stage};
use nm_user::{Received, Sent};
use std::process::Abort;
use std::sync::{Mutex, Wait};
use std::test::Fail;
use vale_fabric::{Fabric, Pass};

/// A broadcast from 02:00:00:00:00:0b.
const OTHER: [u8; 14] = [255, 255, 255, 255, 255, 255, 2, 0, 0, 0, 0, 11, 136, 181];

/// What the others do.
#[derive(Clone, Copy)]
enum Deed {
    /// The second user sends a frame, and the third one reads.
    SendAndRead,
    /// The third user closes its port and opens one of the same name.
    OpenAgain,
}

/// The second and the third user, at whose port frames come, and the stage at which they do what
/// they do, counted from 1.
struct Others<'f> {
    second: User<'f>,
    third: User<'f>,
    deed: Deed,
    at: u32,
    passed: u32,
}

/// Holds a user once, while the others do what they do.
struct Holding<'r, 'f, R> {
    rt: &'r R,
    others: Mutex<Others<'f>>,
}

impl<'f> Others<'f> {
    /// What they do, if the stage is the one.
    fn pass<R: Abort + Wait>(&mut self, rt: &R) {
        self.passed = self.passed.wrapping_add(1);
        if self.passed == self.at {
            match self.deed {
                Deed::SendAndRead => self.send_and_read(rt),
                Deed::OpenAgain => self.open_again(rt),
            }
        }
    }

    fn send_and_read<R: Abort + Wait>(&mut self, rt: &R) {
        let sent = send(rt, &mut self.second, &OTHER, &NoGate);
        assert!(rt; sent.given == 2 && sent.full == 0 && sent.gone == 0);
        assert!(rt; read(rt, &mut self.third).gave == 0);
    }

    fn open_again<R: Abort + Wait>(&mut self, rt: &R) {
        let User { session, port } = &mut self.third;
        assert!(rt; session.has_port(*port));
        assert!(rt; session.detach(rt, *port).unread == 0);
        *port = open(rt, session, "vale0:c", FOUR);
    }
}

impl<'r, 'f, R: Abort + Wait + Sync> Gate for Holding<'r, 'f, R> {
    fn pass(&self, _user: u64, _stage: Stage) {
        self.others.lock(self.rt).pass(self.rt);
    }
}

/// Puts a frame at a user's port and sends it, past a gate.
pub(super) fn send<R: Abort + Wait, G: Gate>(
    rt: &R,
    user: &mut User,
    frame: &[u8; 14],
    gate: &G,
) -> Sent {
    user.session.put_frame(user.port, frame);
    send_pushed(rt, user, gate)
}

/// Sends the one frame that was put at a user's port.
fn send_pushed<R: Abort + Wait, G: Gate>(rt: &R, user: &mut User, gate: &G) -> Sent {
    let sent = push(rt, &mut user.session, user.port, gate);
    assert!(rt; sent.pushed == 1 && sent.short == 0 && sent.lone == 0);
    sent
}

/// Reads what is ready at a user's port.
fn read<R: Abort + Wait>(rt: &R, user: &mut User) -> Received {
    pull(rt, &mut user.session, user.port)
}

/// What the others do and at which stage; of the first one's frame how many ports were given it, were
/// full and were gone, with how many frames the third reads; and the history.
type Row = (Deed, u32, (u32, u32, u32, u32), &'static [(u32, Line)]);

/// The users' sessions are 1, 3 and 5, and their ports 2, 4 and 6.
const HELD: [Row; 2] = [
    // Leases are read in the order of their grants.
    (
        Deed::SendAndRead,
        4,
        (2, 0, 0, 2),
        &[
            (1, Line::Send(2, 0, 0)),
            (1, Line::Grant(7, 4, 1, 0, 0)),
            (1, Line::Done(8)),
            (1, Line::Grant(7, 6, 1, 0, 0)),
            (3, Line::Send(4, 0, 0)),
            (3, Line::Grant(11, 2, 1, 0, 0)),
            (3, Line::Done(12)),
            (3, Line::Grant(11, 6, 1, 0, 0)),
            (3, Line::Done(14)),
            (5, Line::Sync(6, 0)),
            (1, Line::Done(10)),
            (5, Line::Sync(6, 2)),
        ],
    ),
    // A port opened again is another one.
    (
        Deed::OpenAgain,
        1,
        (1, 0, 1, 0),
        &[
            (1, Line::Send(2, 0, 0)),
            (1, Line::Grant(7, 4, 1, 0, 0)),
            (5, Line::Shut(6)),
            (5, Line::Finish(6, NONE, 0)),
            (1, Line::Done(8)),
            (1, Line::Grant(7, 6, 0, 0, 1)),
            (5, Line::Sync(11, 0)),
        ],
    ),
];

/// Three users open a port of one switch each. The first sends a frame, and is held while the others
/// do this at this stage. Then the third reads, and all leave. Answers what was told of the frame, and
/// how many frames the third read.
fn hold_first<R: AllocGlobal + Abort + Wait + Sync>(
    rt: &R,
    fabric: &Fabric,
    pass: Pass,
    deed: Deed,
    at: u32,
) -> (u32, u32, u32, u32)
    requires { IsPassIn fabric.now pass }
{
    let ports = [("vale0:a", FOUR), ("vale0:b", FOUR), ("vale0:c", FOUR)];
    let (mut first, second, third) = three_come(rt, fabric, pass, ports);
    let gate = Holding {
        rt,
        others: Mutex::new(Others {
            second,
            third,
            deed,
            at,
            passed: 0,
        }),
    };
    let sent = send(rt, &mut first, &FRAME, &gate);
    let Holding { rt: _, others } = gate;
    let Others {
        second,
        mut third,
        deed: _,
        at: _,
        passed: _,
    } = others.into_inner();
    let gave = read(rt, &mut third).gave;
    drop(leave(rt, first));
    drop(leave(rt, second));
    drop(leave(rt, third));
    (sent.given, sent.full, sent.gone, gave)
}

#[test]
fn others_go_on_while_one_is_held(rt: HostRuntime) -> Result<(), Fail> {
    for (deed, at, told, lines) in HELD {
        let (held, history) = play(&rt, |fabric, pass| hold_first(&rt, fabric, pass, deed, at))?;
        assert!(rt; held == told);
        are_lines(&rt, &history, lines);
    }
    Ok(())
}
