//! Measures parts of vale: `bench capture`, `bench pool`, `bench turn`, `bench line`, `bench batch`,
//! `bench text`, `bench fabric`, `bench broadcast`, `bench jumbo`,
//! `bench session`.
//! Without a word each part runs small and prints counts alone.
//! `bench asks FILE POOL` serves the asks of a file by a drive.
#![tactic(auto)]

mod asks;
mod batch;
mod broadcast;
mod capture;
mod fabric;
mod jumbo;
mod line;
mod look;
mod memory;
mod pool;
mod session;
mod text;
mod threads;
mod turn;
mod users;

use std::alloc::{Alloc, Global};
use std::env;
use std::fs::Files;
use std::io::{self, Print};
use std::sync::Wait;
use std::thread::Threads;
use std::time::Clock;
use threads::Shared;

/// The words of all parts, in the order in which they run small.
const WORDS: [&str; 10] = [
    "capture",
    "pool",
    "turn",
    "line",
    "batch",
    "text",
    "fabric",
    "broadcast",
    "jumbo",
    "session",
];

/// Measures the part that a word names, small or timed.
fn measure<R: Print + Clock + Files + Alloc + Threads + Wait + Sync>(
    rt: &R,
    alloc: Global,
    word: &str,
    is_timed: bool,
) -> io::Result<()> {
    match word {
        "capture" => capture::run(rt, alloc, is_timed),
        "pool" => pool::run(rt, alloc, is_timed),
        "turn" => threads::run(rt, alloc, Shared::Turn, is_timed),
        "line" => line::run(rt, alloc, is_timed),
        "batch" => batch::run(rt, alloc, is_timed),
        "text" => text::run(rt, alloc, is_timed),
        "fabric" => threads::run(rt, alloc, Shared::Fabric, is_timed),
        "broadcast" => broadcast::run(rt, alloc, is_timed),
        "jumbo" => jumbo::run(rt, alloc, is_timed),
        "session" => session::run(rt, alloc, is_timed),
        _ => println!(rt; "{word}: no such measurement"),
    }
}

/// Runs each part small.
fn measure_all<R: Print + Clock + Files + Alloc + Threads + Wait + Sync>(
    rt: &R,
    alloc: Global,
) -> io::Result<()> {
    for word in WORDS {
        measure(rt, alloc, word, false)?;
    }
    Ok(())
}

fn main(rt: HostRuntime) -> io::Result<()> {
    let mut words = env::args(&rt)?.skip(1);
    let Some(word) = words.next() else {
        return measure_all(&rt, rt.alloc());
    };
    if word.as_str() == "asks" {
        return asks::run(&rt, rt.alloc(), words.next(), words.next());
    }
    measure(&rt, rt.alloc(), &word, true)
}
