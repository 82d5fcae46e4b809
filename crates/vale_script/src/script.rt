//! What a script says.
ghost use Rattle.std.specs.Prelude.{◌≡◌, IfOk};

use nm_types::{Frame, Mac, Name, NoMemory, Side, Sides};
use std::alloc::Global;
use std::marker::Model;

/// A word of a script that is kept: the name of a user or of a file. It is seen as its bytes.
#[derive(Clone, Drop)]
pub struct ScriptWord {
    text: String,
}

impl Model for ScriptWord {
    ghost use Rattle.std.specs.Prelude.{List, ℕ, string_bytes};

    ghost Value = { List ℕ };

    ghost view = { λ w. string_bytes w.text };
}

impl ScriptWord {
    /// Keeps a word.
    pub fn new(alloc: Global, text: &str) -> Result<ScriptWord, NoMemory>
        ensures { IfOk result (λ word. word ≡ text.now) }
    {
        Ok(ScriptWord {
            text: String::from_str(alloc, text)?,
        })
    }

    /// The word's text.
    pub fn as_str(&self) -> &str
        ensures { result.now ≡ self.now }
    {
        self.text.as_str()
    }
}

/// A field of a slot.
#[derive(Clone, Copy, Debug, PartialEq, Eq)]
pub enum SlotField {
    /// The index of the slot's buffer.
    Idx,
    /// The frame's length.
    Len,
    /// The flags of netmap(4).
    Flags,
    /// The pointer of an indirect buffer.
    Ptr,
}

/// What a line has its user do.
#[derive(Clone, Drop)]
pub enum Act {
    /// Enters: the line declares the user.
    Enter,
    /// Opens a port of this name, with rings of these sizes and `extra` extra buffers.
    Open {
        name: Name,
        tx: u32,
        rx: u32,
        extra: u32,
    },
    /// Puts `count` frames of `len` bytes into the transmit ring: the addresses, the type 88 b5, and
    /// the byte `fill` up to the end.
    Put {
        name: Name,
        count: u32,
        to: Mac,
        from: Mac,
        len: u16,
        fill: u8,
    },
    /// Puts one frame of these bytes.
    Hex {
        name: Name,
        bytes: Frame,
    },
    /// Puts a capture's frames, with a sync behind each `batch` of them.
    Play {
        name: Name,
        file: ScriptWord,
        batch: u32,
    },
    /// Syncs the transmit ring.
    Tx {
        name: Name,
    },
    /// Syncs the receive ring; without `keep`, head and cur go to the tail first.
    Rx {
        name: Name,
        keep: bool,
    },
    /// Forwards at most `count` frames from one port's receive ring to another's transmit ring.
    Fwd {
        from: Name,
        to: Name,
        count: u32,
    },
    /// Writes a field of a slot.
    Poke {
        name: Name,
        side: Side,
        slot: u32,
        field: SlotField,
        value: u64,
    },
    /// Sets head and cur of a ring.
    Move {
        name: Name,
        side: Side,
        head: u32,
        cur: u32,
    },
    /// Exchanges the buffers of two slots; without `quiet`, marks both as changed.
    Swap {
        name: Name,
        side: Side,
        slot: u32,
        other: Name,
        other_side: Side,
        other_slot: u32,
        quiet: bool,
    },
    /// Links the extra buffer in position `i` to the one in position `j`, counted from 1; 0 stands
    /// for the head of the list, or for its end.
    Extra {
        name: Name,
        i: u32,
        j: u32,
    },
    /// Has a monitor watch a port.
    Watch {
        monitor: Name,
        target: Name,
        sides: Sides,
    },
    /// Reads the port's counters.
    Stat {
        name: Name,
    },
    /// Saves the frames that the port gives over its life.
    Save {
        name: Name,
        file: ScriptWord,
    },
    /// Closes the port.
    Close {
        name: Name,
    },
}

/// A line of a user: its number, counted from 1 with silent lines, and its user's, from 1.
#[derive(Clone, Drop)]
pub struct Line {
    pub at: u32,
    pub user: u32,
    pub act: Act,
}

/// The lines of a parallel block.
#[derive(Clone, Drop)]
pub struct Lines {
    items: Vec<Line>,
}

impl Model for Lines {
    ghost use Rattle.std.specs.Prelude.{List};
    ghost use Rattle.vale_script.specs.declared.script.Line.{Line};

    ghost Value = { List Line };

    ghost view = { λ l. l.items.items };
}

impl From<Vec<Line>> for Lines {
    ghost from_gives = { λ items lines. lines ≡ items.items };

    fn from(items: Vec<Line>) -> Self {
        Lines { items }
    }
}

impl Lines {
    /// The lines, in order.
    pub fn as_slice(&self) -> &[Line]
        ensures { result.now ≡ self.now }
    {
        &self.items
    }
}

/// What runs at once: a line, or a block whose users run side by side.
#[derive(Clone, Drop)]
pub enum Unit {
    /// A line outside every block.
    Single { line: Line },
    /// The lines between `par` and `end`.
    Block { lines: Lines },
}

/// A script that was read: the size of its pool, the users that it declares, the files that it plays,
/// each once and in the order of their first `play` line, and its units.
#[derive(Drop)]
pub struct Script {
    pool: u32,
    users: Vec<ScriptWord>,
    files: Vec<ScriptWord>,
    units: Vec<Unit>,
}

impl Model for Script {
    ghost use Rattle.std.specs.Prelude.{◌≤◌, length};
    ghost use Rattle.vale_script.specs.Script.{Program};

    ghost Value = { Program };

    ghost view = { λ s. record { pool = s.pool; users = s.users.items; files = s.files.items; units = s.units.items } };
}

impl Script {
    /// A script of these parts.
    pub fn new(
        pool: u32,
        users: Vec<ScriptWord>,
        files: Vec<ScriptWord>,
        units: Vec<Unit>,
    ) -> Script
        ensures { result ≡ record { pool = pool; users = users.items; files = files.items; units = units.items } }
    {
        Script {
            pool,
            users,
            files,
            units,
        }
    }

    /// How many buffers its pool has.
    pub fn pool(&self) -> u32
        ensures { result ≡ self.now.pool }
    {
        self.pool
    }

    /// The users that it declares.
    pub fn users(&self) -> &[ScriptWord]
        ensures { result.now ≡ self.now.users }
    {
        &self.users
    }

    /// The files that it plays.
    pub fn files(&self) -> &[ScriptWord]
        ensures { result.now ≡ self.now.files }
    {
        &self.files
    }

    /// Its units, in order.
    pub fn units(&self) -> &[Unit]
        ensures { result.now ≡ self.now.units }
    {
        &self.units
    }
}
