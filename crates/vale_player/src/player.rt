use crate::kept::SavedPorts;
use nm_types::{Name, PortId};
use nm_user::Session;
use std::marker::Model;
use vale_script::ScriptWord;

/// A file into which the frames go that a port gives.
#[derive(Drop)]
pub struct SaveFile {
    pub file: ScriptWord,
    pub port: PortId,
}

impl Model for SaveFile {
    ghost use Rattle.vale_replay.specs.Machine.{Save};

    ghost Value = { Save };

    ghost view = { λ s. record { file = s.file; port = s.port } };
}

/// A user of a script at work, as a session of a fabric.
pub struct Player<'f> {
    /// The number by which it has entered.
    pub(crate) number: u64,
    pub(crate) session: Session<'f>,
    /// The files into which its ports' frames go, in the order of the lines that say so.
    pub(crate) saves: Vec<SaveFile>,
    /// The names of the ports whose frames are kept.
    pub(crate) names: &'f [Name],
    /// Such ports, with all that they have given; those of all notes are among them.
    pub(crate) kept: SavedPorts,
    /// Memory for the frame that a line puts.
    pub(crate) frame: Vec<u8>,
}

impl<'f> Model for Player<'f> {
    ghost use Rattle.vale_player.specs.Players.{PlayerState};

    ghost Value = { PlayerState };

    ghost view = { λ p. record {
      number = p.number;
      session = p.session;
      saves = p.saves.items;
      names = p.names.now;
    } };

    ghost use Rattle.vale_player.specs.Kept.{IsKeeping};

    ghost invariant = { λ p. IsKeeping p.session p.names.now p.saves.items p.kept };
}
