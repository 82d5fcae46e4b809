//! What one user of a load puts.
ghost use Rattle.std.specs.Prelude.{◌≡◌, ◌+◌, ◌*◌, ◌%◌, ◌<◌, ◌≤◌, ◌^◌, IfOk, OnOk, string_bytes};
ghost use Rattle.vale_gen.specs.Load.{user_name, port_name, station, destination, is_followed, put, frame_deeds};
ghost use Rattle.vale_gen.specs.Sheets.{with_deeds};

use crate::sheet::Sheet;
use nm_types::{Mac, Name, NoMemory};
use std::alloc::Global;
use std::marker::Model;
use vale_script::Act;

/// The users of a load.
pub(crate) const USERS: u8 = 4;

/// The frames that each of them puts.
pub(crate) const FRAMES: u32 = 2_000;

/// How many of these go with one sync.
const BATCH: u32 = 64;

/// The name of a user.
pub(crate) fn user_name(alloc: Global, user: u8) -> Result<String, NoMemory>
    requires { user ≤ USERS }
    ensures { IfOk result (λ name. string_bytes name ≡ user_name user) }
{
    Ok(format!(in alloc; "u{user}")?)
}

/// The name of a user's port.
pub(crate) fn port_name(alloc: Global, user: u8) -> Result<Name, NoMemory>
    requires least { 1 ≤ user }
    requires most { user ≤ USERS }
    ensures { IfOk result (λ name. name ≡ port_name user) }
{
    let text = format!(in alloc; "vale0:u{user}")?;
    match Name::parse(text.as_str()) {
        Ok(name) => Ok(name),
        Err(_) => unreachable!(),
    }
}

fn station(d: u8) -> Mac
    ensures { result ≡ station d }
{
    Mac([2, 0, 0, 0, 0, d])
}

/// One of the users or all of them, by a random number.
fn destination(x: u64) -> Mac
    ensures { result ≡ destination x }
{
    match (x >> 33) % 5 {
        4 => Mac([0xff; 6]),
        k => station(k as u8 + 1),
    }
}

/// Tells whether syncs follow a frame.
fn is_followed(j: u32) -> bool
    requires { j < FRAMES }
    ensures { result ≡ is_followed j }
{
    (j + 1) % BATCH == 0 || j + 1 == FRAMES
}

fn frame_length(n: u64, user: u8, j: u32) -> u16
    ensures { result ≡ 60 + (n + user + j) % 64 }
{
    60 + ((n % 64 + u64::from(user) + u64::from(j)) % 64) as u16
}

fn next_number(x: u64) -> u64
    ensures { result ≡ (x * 6364136223846793005 + 1442695040888963407) % 2 ^ 64 }
{
    x.wrapping_mul(6_364_136_223_846_793_005)
        .wrapping_add(1_442_695_040_888_963_407)
}

/// The frames of one user, put one after another; `x` is its random number.
#[derive(Drop)]
pub(crate) struct Workload {
    n: u64,
    user: u8,
    port: Name,
    x: u64,
    frame: u32,
}

impl Model for Workload {
    ghost use Rattle.std.specs.Prelude.{◌≡◌};
    ghost use Rattle.vale_gen.specs.Load.{port_name, number_behind};
    ghost use Rattle.vale_gen.specs.Sheets.{Progress};

    ghost Value = { Progress };

    ghost view = { λ w. record { n = w.n; user = w.user; frame = w.frame } };

    ghost invariant = { λ w. (w.port ≡ port_name w.user) × (w.x ≡ number_behind w.n w.user w.frame) };
}

impl Workload {
    /// The work of a user, from its first frame on.
    pub(crate) fn new(alloc: Global, n: u64, user: u8) -> Result<Workload, NoMemory>
        requires least { 1 ≤ user }
        requires most { user ≤ USERS }
        ensures { IfOk result (λ work. work ≡ record { n = n; user = user; frame = 0 }) }
    {
        Ok(Workload {
            n,
            user,
            port: port_name(alloc, user)?,
            x: n.wrapping_add(u64::from(user)),
            frame: 0,
        })
    }

    /// The put of the next frame.
    fn next(&mut self) -> Act
        requires { self.old.frame < FRAMES }
        ensures value { result ≡ put self.old.n self.old.user self.old.frame }
        ensures next { self.new ≡ record self.old { frame = self.old.frame + 1 } }
    {
        let j = self.frame;
        self.x = next_number(self.x);
        self.frame += 1;
        Act::Put {
            name: self.port,
            count: 1,
            to: destination(self.x),
            from: station(self.user),
            len: frame_length(self.n, self.user, j),
            fill: (j % 256) as u8,
        }
    }

    /// Adds the line that puts the next frame, and those of its syncs if they follow it.
    pub(crate) fn add_frame(&mut self, sheet: &mut Sheet) -> Result<(), NoMemory>
        requires room { sheet.old.next + 3 < 2 ^ 32 }
        requires left { self.old.frame < FRAMES }
        ensures lines { OnOk result
            (sheet.new ≡ with_deeds sheet.old (frame_deeds self.old.n self.old.user self.old.frame)) }
        ensures next { OnOk result (self.new ≡ record self.old { frame = self.old.frame + 1 }) }
    {
        let followed = is_followed(self.frame);
        let put = self.next();
        sheet.add(self.user, put)?;
        if followed {
            let name = self.port;
            sheet.add(self.user, Act::Tx { name })?;
            sheet.add(self.user, Act::Rx { name, keep: false })?;
        }
        Ok(())
    }
}
