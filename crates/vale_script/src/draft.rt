//! What the lines so far have said.
ghost use Rattle.std.specs.Prelude.{◌≡◌, ◌+◌, ◌<◌, ◌≤◌, ◌++◌, ◌∷◌, [], ℕ, length, true, false, is_some, unwrap_or, Some, None, IfOk, OnOk, string_bytes, option_map};
ghost use Rattle.std.specs.Option.{IfNone};
ghost use Rattle.vale_script.specs.Drafts.{draft_of, use_of};
ghost use Rattle.vale_script.specs.Keeps.{NamesUser, IsNumbered};
ghost use Rattle.vale_script.specs.Sound.{IsUserName};
ghost use Rattle.vale_script.specs.Rules.{nothing_said, port_key, first_use, second_use, lacks_port, lacks_ports, watches_wrongly, is_saved, is_twice, act_cause, user_cause, cause_of, with_port, with_played, with_saved, with_act, with_line, with_user, with_end, does_act, after, finished};
ghost use Rattle.vale_script.specs.Statements.{shown};
ghost use Rattle.vale_script.specs.Tables.{seen};

use crate::keys::{number_of, port_of, set_number, set_port, unset_port};
use crate::script::{Act, Line, Lines, Script, ScriptWord, Unit};
use crate::statements::Said;
use crate::tables::{set, value_of};
use nm_types::{DEFAULT_POOL, LineCause, MAX_USERS, Name, NoMemory, Side};
use std::alloc::Global;
use std::collections::HashMap;

/// What the lines use a file for.
#[derive(Clone, Copy, Debug, PartialEq, Eq)]
pub(crate) enum FileUse {
    Played,
    Saved,
}

/// A block that has begun: the line of its `par`, and its lines so far.
#[derive(Drop)]
pub(crate) struct Block {
    at: u32,
    lines: Vec<Line>,
}

/// What the lines so far have said.
#[derive(Drop)]
pub(crate) struct Draft {
    alloc: Global,
    pool: Option<u32>,
    spoken: bool,
    users: Vec<ScriptWord>,
    numbers: HashMap<u128, u32>,
    ports: HashMap<(u128, u128), bool>,
    files: HashMap<String, FileUse>,
    played: Vec<ScriptWord>,
    units: Vec<Unit>,
    block: Option<Block>,
}

/// A port that a line uses, and whether the line needs its transmit ring.
#[derive(Clone, Copy)]
struct PortUse {
    name: Name,
    sends: bool,
}

fn first_use(act: &Act) -> Option<PortUse>
    ensures { use_of result ≡ first_use act.now }
{
    let (name, sends) = match act {
        Act::Enter | Act::Open { .. } => return None,
        Act::Put { name, .. } | Act::Hex { name, .. } | Act::Play { name, .. } | Act::Tx { name } =>
            (*name, true),
        Act::Rx { name, .. }
        | Act::Extra { name, .. }
        | Act::Stat { name }
        | Act::Save { name, .. }
        | Act::Close { name } => (*name, false),
        Act::Fwd { from, .. } => (*from, false),
        Act::Poke { name, side, .. }
        | Act::Move { name, side, .. }
        | Act::Swap { name, side, .. } => (*name, *side == Side::Tx),
        Act::Watch { monitor, .. } => (*monitor, false),
    };
    Some(PortUse { name, sends })
}

fn second_use(act: &Act) -> Option<PortUse>
    ensures { use_of result ≡ second_use act.now }
{
    let (name, sends) = match act {
        Act::Fwd { to, .. } => (*to, true),
        Act::Swap {
            other,
            other_side,
            ..
        } => (*other, *other_side == Side::Tx),
        _ => return None,
    };
    Some(PortUse { name, sends })
}

/// Whether a line has a port watch that is no monitor, or a monitor watched.
fn watches_wrongly(act: &Act) -> bool
    ensures { result ≡ watches_wrongly act.now }
{
    match act {
        Act::Watch {
            monitor,
            target,
            ..
        } => !monitor.is_monitor() || target.is_monitor(),
        _ => false,
    }
}

fn is_saved(used: Option<FileUse>) -> bool
    ensures { result ≡ is_saved used }
{
    match used {
        Some(FileUse::Saved) => true,
        Some(FileUse::Played) | None => false,
    }
}

impl Draft {
    /// Nothing said yet.
    #[tactic(auto, using(crate::proofs::Keyed::empty_tables))]
    pub(crate) fn new(alloc: Global) -> Draft
        ensures { draft_of result ≡ nothing_said }
    {
        Draft {
            alloc,
            pool: None,
            spoken: false,
            users: Vec::new(alloc),
            numbers: HashMap::new(alloc),
            ports: HashMap::new(alloc),
            files: HashMap::new(alloc),
            played: Vec::new(alloc),
            units: Vec::new(alloc),
            block: None,
        }
    }

    fn lacks_port(&self, user: &str, used: Option<PortUse>) -> bool
        requires { IsUserName user.now }
        ensures { result ≡ lacks_port (draft_of self.now) user.now (use_of used) }
    {
        match used {
            Some(used) => {
                port_of(&self.ports, user, &used.name).is_none()
                    || (used.sends && used.name.is_monitor())
            }
            None => false,
        }
    }

    fn lacks_ports(&self, user: &str, act: &Act) -> bool
        requires { IsUserName user.now }
        ensures { result ≡ lacks_ports (draft_of self.now) user.now act.now }
    {
        self.lacks_port(user, first_use(act))
            || self.lacks_port(user, second_use(act))
            || watches_wrongly(act)
    }

    fn is_twice(&self, user: &str, act: &Act) -> bool
        requires { IsUserName user.now }
        ensures { result ≡ is_twice (draft_of self.now) user.now act.now }
    {
        match act {
            Act::Open { name, .. } => port_of(&self.ports, user, name).is_some(),
            Act::Play { file, .. } => is_saved(value_of(&self.files, file.as_str())),
            Act::Save { name, file } => {
                value_of(&self.files, file.as_str()).is_some()
                    || port_of(&self.ports, user, name).unwrap_or(false)
            }
            _ => false,
        }
    }

    fn act_cause(&self, number: Option<u32>, user: &str, act: &Act) -> Option<LineCause>
        requires named { IsUserName user.now }
        requires numbered { number ≡ (draft_of self.now).numbers user.now }
        ensures { result ≡ act_cause (draft_of self.now) user.now act.now }
    {
        if number.is_none() {
            Some(LineCause::User)
        } else if self.lacks_ports(user, act) {
            Some(LineCause::Port)
        } else if self.is_twice(user, act) {
            Some(LineCause::Twice)
        } else {
            None
        }
    }

    fn user_cause(&self, name: &str) -> Option<LineCause>
        requires { IsUserName name.now }
        ensures { result ≡ user_cause (draft_of self.now) name.now }
    {
        if self.block.is_some() {
            Some(LineCause::Order)
        } else if number_of(&self.numbers, name).is_some() || self.users.len() >= MAX_USERS {
            Some(LineCause::Twice)
        } else {
            None
        }
    }

    /// The number of the user who does what a line says, or none if no line has declared it.
    pub(crate) fn number_for(&self, said: &Said<'_>) -> Option<u32>
        requires { NamesUser (shown said.now) }
        ensures { IsNumbered (draft_of self.now) (shown said.now) result }
    {
        match said {
            Said::Does { user, .. } => number_of(&self.numbers, user),
            _ => None,
        }
    }

    /// Why the lines so far do not let a line say this, where `number` is its user's.
    pub(crate) fn cause_of(&self, number: Option<u32>, said: &Said<'_>) -> Option<LineCause>
        requires named { NamesUser (shown said.now) }
        requires numbered { IsNumbered (draft_of self.now) (shown said.now) number }
        ensures { result ≡ cause_of (draft_of self.now) (shown said.now) }
    {
        match said {
            Said::Nothing => None,
            Said::Pool { .. } => self.spoken.then_some(LineCause::Order),
            Said::NewUser { name } => self.user_cause(name),
            Said::Begin => self.block.is_some().then_some(LineCause::Order),
            Said::End => self.block.is_none().then_some(LineCause::Order),
            Said::Does { user, act } => self.act_cause(number, user, act),
        }
    }

    fn set_port(&mut self, user: &str, name: &Name, saved: bool) -> Result<(), NoMemory>
        requires { IsUserName user.now }
        ensures units { self.new.units ≡ self.old.units }
        ensures value { OnOk result (draft_of self.new ≡ with_port (draft_of self.old) user.now name.now (Some saved)) }
    {
        set_port(&mut self.ports, user, name, saved)
    }

    fn unset_port(&mut self, user: &str, name: &Name)
        requires { IsUserName user.now }
        ensures units { self.new.units ≡ self.old.units }
        ensures value { draft_of self.new ≡ with_port (draft_of self.old) user.now name.now None }
    {
        unset_port(&mut self.ports, user, name);
    }

    fn play(&mut self, file: &str) -> Result<(), NoMemory>
        ensures units { self.new.units ≡ self.old.units }
        ensures value { OnOk result (draft_of self.new ≡ with_played (draft_of self.old) file.now) }
    {
        if value_of(&self.files, file).is_none() {
            self.played.push(ScriptWord::new(self.alloc, file)?)?;
        }
        set(self.alloc, &mut self.files, file, FileUse::Played)
    }

    fn save(&mut self, user: &str, name: &Name, file: &str) -> Result<(), NoMemory>
        requires { IsUserName user.now }
        ensures units { self.new.units ≡ self.old.units }
        ensures value { OnOk result (draft_of self.new ≡ with_saved (draft_of self.old) user.now name.now file.now) }
    {
        self.set_port(user, name, true)?;
        set(self.alloc, &mut self.files, file, FileUse::Saved)
    }

    /// Keeps what an act opens, closes, plays and saves.
    fn note(&mut self, user: &str, act: &Act) -> Result<(), NoMemory>
        requires { IsUserName user.now }
        ensures units { self.new.units ≡ self.old.units }
        ensures value { OnOk result (draft_of self.new ≡ with_act (draft_of self.old) user.now act.now) }
    {
        match act {
            Act::Open { name, .. } => self.set_port(user, name, false),
            Act::Close { name } => {
                self.unset_port(user, name);
                Ok(())
            }
            Act::Play { file, .. } => self.play(file.as_str()),
            Act::Save { name, file } => self.save(user, name, file.as_str()),
            _ => Ok(()),
        }
    }

    fn add_line(&mut self, line: Line) -> Result<(), NoMemory>
        ensures few { length self.new.units.items ≤ length self.old.units.items + 1 }
        ensures value { OnOk result (draft_of self.new ≡ with_line (draft_of self.old) line) }
    {
        match &mut self.block {
            Some(block) => block.lines.push(line)?,
            None => {
                self.units.reserve(1)?;
                self.units.push_reserved(Unit::Single { line });
            }
        }
        Ok(())
    }

    fn add_user(&mut self, at: u32, name: &str) -> Result<(), NoMemory>
        requires few { length self.old.users.items < MAX_USERS }
        requires named { IsUserName name.now }
        ensures few { length self.new.units.items ≤ length self.old.units.items + 1 }
        ensures value { OnOk result (draft_of self.new ≡ with_user (draft_of self.old) at name.now) }
    {
        let user = self.users.len() as u32 + 1;
        self.users.push(ScriptWord::new(self.alloc, name)?)?;
        set_number(&mut self.numbers, name, user)?;
        let act = Act::Enter;
        self.units.push(Unit::Single {
            line: Line { at, user, act },
        })?;
        self.spoken = true;
        Ok(())
    }

    fn end_block(&mut self) -> Result<(), NoMemory>
        ensures few { length self.new.units.items ≤ length self.old.units.items + 1 }
        ensures value { OnOk result (draft_of self.new ≡ with_end (draft_of self.old)) }
    {
        if let Some(block) = self.block.take() {
            self.units.push(Unit::Block {
                lines: Lines::from(block.lines),
            })?;
        }
        Ok(())
    }

    fn add_act(
        &mut self,
        at: u32,
        number: Option<u32>,
        user: &str,
        act: Act,
    ) -> Result<(), NoMemory>
        requires named { IsUserName user.now }
        requires numbered { number ≡ (draft_of self.old).numbers user.now }
        ensures few { length self.new.units.items ≤ length self.old.units.items + 1 }
        ensures value { OnOk result (draft_of self.new ≡ does_act (draft_of self.old) at user.now act) }
    {
        self.note(user, &act)?;
        self.add_line(Line {
            at,
            user: number.unwrap_or(0),
            act,
        })
    }

    /// Adds what a line says that is not bad, where `number` is its user's.
    pub(crate) fn add(
        &mut self,
        at: u32,
        number: Option<u32>,
        said: Said<'_>,
    ) -> Result<(), NoMemory>
        requires none { cause_of (draft_of self.old) (shown said) ≡ None }
        requires named { NamesUser (shown said) }
        requires numbered { IsNumbered (draft_of self.old) (shown said) number }
        ensures few { length self.new.units.items ≤ length self.old.units.items + 1 }
        ensures value { OnOk result (draft_of self.new ≡ after (draft_of self.old) at (shown said.entry)) }
    {
        match said {
            Said::Nothing => Ok(()),
            Said::Pool { size } => {
                self.pool = Some(size);
                self.spoken = true;
                Ok(())
            }
            Said::NewUser { name } => self.add_user(at, name),
            Said::Begin => {
                let lines = Vec::new(self.alloc);
                self.block = Some(Block { at, lines });
                self.spoken = true;
                Ok(())
            }
            Said::End => self.end_block(),
            Said::Does { user, act } => self.add_act(at, number, user, act),
        }
    }

    /// The script that the lines are, or the line of a `par` whose block has no end.
    pub(crate) fn finish(self) -> Result<Script, u32>
        ensures few { IfOk result (λ script. length script.units ≤ length self.units.items) }
        ensures value { finished (draft_of self) ≡ result }
    {
        let Draft {
            pool,
            users,
            played,
            units,
            block,
            ..
        } = self;
        match block {
            Some(block) => Err(block.at),
            None => Ok(Script::new(pool.unwrap_or(DEFAULT_POOL), users, played, units)),
        }
    }
}
