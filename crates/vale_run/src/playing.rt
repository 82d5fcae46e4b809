//! Plays a script over a book of its own.
ghost use Rattle.std.specs.Prelude.{◌≡◌, map, IfOk};
ghost use Rattle.vale_script.specs.Sound.{IsSound};
ghost use Rattle.vale_captures.specs.Inputs.{name_of};
ghost use Rattle.vale_run.specs.Writing.{IsPlayOf};

use nm_io::Gate;
use nm_types::{Limits, NoMemory, StepFault};
use std::sync::Wait;
use std::thread::Threads;
use vale_act::play;
use vale_book::Book;
use vale_captures::{Inputs, Outputs};
use vale_fabric::Fabric;
use vale_script::Script;

/// Plays a script with its captures, and gives the book of what happened, with the files to be
/// saved or the fault that stopped the play. `NoMemory` of the whole says that there was no memory
/// to begin.
pub(crate) fn play_recorded<R: AllocGlobal + Threads + Wait + Sync, G: Gate>(
    rt: &R,
    script: &Script,
    inputs: &Inputs,
    gate: &G,
) -> Result<(Book, Result<Outputs, StepFault>), NoMemory>
    requires sound { IsSound script.now }
    requires files { map name_of inputs.now ≡ script.now.files }
    ensures { IfOk result (λ made. IsPlayOf Limits.VERSION_2 script.now inputs.now made.0 made.1) }
{
    let alloc = rt.alloc();
    let (fabric, pass) = Fabric::new(alloc, script.pool(), Limits::VERSION_2)?;
    let (pass, played) = play(alloc, rt, &fabric, pass, script, inputs, gate);
    Ok((fabric.close(rt, pass), played))
}
