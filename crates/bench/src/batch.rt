ghost use Rattle.std.specs.Prelude.{◌≡◌, ◌+◌, All, length, map, IfOk, OnOk};
ghost use Rattle.nm_types.specs.Sendable.{IsFrame};
ghost use Rattle.vale_batch.specs.Wants.{IsRising, port_number};
ghost use Rattle.bench.specs.Ports.{first_ports};

use nm_types::{Batch, Mac, NoMemory, PortId};
use std::alloc::Global;
use std::io::{self, Print};
use std::time::{Clock, Duration, Instant};
use vale_batch::classify;
use vale_learn::Table;

/// The ports of the switch. The first one sends.
const PORTS: u32 = 16;

/// Half of the frames of a batch.
const PAIRS: u32 = 32;

const TO_ALL: Mac = Mac([0xff; 6]);

const FEW: u32 = 4;

const MANY: u32 = 100_000;

/// The address behind a port.
fn address_of(port: u32) -> Mac {
    Mac([2, 0, 0, 0, 0, (port % 256) as u8])
}

/// A frame of 60 bytes from the address behind the first port.
fn frame_to(address: Mac) -> [u8; 60] {
    let mut bytes = [0; 60];
    bytes[12] = 0x88;
    bytes[13] = 0xb5;
    bytes[..6].copy_from_slice(&address.0);
    bytes[6..12].copy_from_slice(&address_of(0).0);
    bytes
}

fn push(batch: &mut Batch, address: Mac) -> Result<(), NoMemory>
    requires { All IsFrame batch.old }
    ensures frames { OnOk result (All IsFrame batch.new) }
    ensures count { OnOk result (length batch.new ≡ length batch.old + 1) }
{
    let frame = frame_to(address);
    batch.push(&frame, false)
}

/// A batch of 64 frames. Half of them go to all ports, and half to the addresses behind the other
/// ports, one after another.
fn make_batch(alloc: Global) -> Result<Batch, NoMemory>
    ensures frames { IfOk result (All IsFrame) }
    ensures count { IfOk result (λ batch. length batch ≡ 64) }
{
    let mut batch = Batch::new(alloc);
    for pair in 0..PAIRS {
        push(&mut batch, TO_ALL)?;
        push(&mut batch, address_of(1 + pair % (PORTS - 1)))?;
    }
    Ok(batch)
}

#[tactic(auto, using(crate::proofs::Ports::more_ports))]
fn make_ports(alloc: Global) -> Result<Vec<PortId>, NoMemory>
    ensures { IfOk result (λ ports. ports.items ≡ first_ports 16) }
{
    let mut ports = Vec::with_capacity(alloc, PORTS as usize)?;
    for port in 0..PORTS {
        ports.push_reserved(PortId(port));
    }
    Ok(ports)
}

/// A table that knows the address behind each port.
fn make_table(alloc: Global) -> Result<Table, NoMemory> {
    let mut table = Table::new(alloc)?;
    for port in 0..PORTS {
        table.learn(address_of(port), PortId(port));
    }
    Ok(table)
}

/// Finds out some times where the frames of a batch go. Returns how many of them are too short.
fn classify_often(
    alloc: Global,
    table: &mut Table,
    ports: &[PortId],
    batch: &Batch,
    times: u32,
) -> Result<u32, NoMemory>
    requires frames { All IsFrame batch.now }
    requires count { length batch.now ≡ 64 }
    requires ports { IsRising (map port_number ports.now) }
{
    let mut short = 0;
    for _ in 0..times {
        let lists = classify(alloc, table, ports, PortId(0), batch)?;
        short = lists.short();
    }
    Ok(short)
}

/// How many frames were looked up, and how long it took.
fn play<R: Clock>(rt: &R, alloc: Global, times: u32) -> io::Result<(u64, Duration)> {
    let (Ok(batch), Ok(ports), Ok(mut table)) = (
        make_batch(alloc),
        make_ports(alloc),
        make_table(alloc),
    ) else {
        return Err(io::ErrorKind::OutOfMemory.into());
    };
    let start = Instant::now(rt)?;
    let Ok(short) = classify_often(alloc, &mut table, &ports, &batch, times) else {
        return Err(io::ErrorKind::OutOfMemory.into());
    };
    let time = start.elapsed(rt)?;
    if short == 0 {
        Ok((u64::from(times) * batch.len() as u64, time))
    } else {
        Err(io::ErrorKind::InvalidData.into())
    }
}

/// Looks up where the frames of a batch of 64 go in a switch of 16 ports, some times, and prints how
/// many frames that were, or, if `is_timed`, also how many nanoseconds each of 6.4 million took.
pub fn run<R: Print + Clock>(rt: &R, alloc: Global, is_timed: bool) -> io::Result<()> {
    let (frames, time) = play(rt, alloc, if is_timed { MANY } else { FEW })?;
    if is_timed && frames > 0 {
        let nanos = time.as_nanos() / u128::from(frames);
        println!(rt; "batch: {frames} frames looked up among {PORTS} ports, {nanos} ns each")
    } else {
        println!(rt; "batch: {frames} frames looked up among {PORTS} ports")
    }
}
