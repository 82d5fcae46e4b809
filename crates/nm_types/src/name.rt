ghost use Rattle.std.specs.Prelude.{◌≡◌, ◌≤◌, IfOk, OnErr, IsTrue, None, Some, true, false, length};
ghost use Rattle.nm_types.specs.Names.{is_word_byte, are_word_bytes, is_word, colon_in};
ghost use Rattle.nm_types.specs.Names.{is_switch_port, pipe_end, pipe_kind, kind_of, is_name, IsName};
ghost use Rattle.nm_types.specs.Names.{is_switch_port_name, is_pipe_name, is_monitor_name};
ghost use Rattle.nm_types.specs.Names.{switch_of, peer_byte, peer_name};

use crate::fault::BadName;
use std::marker::Model;

/// What a name names.
#[derive(Clone, Copy, Debug, PartialEq, Eq)]
pub enum Kind {
    /// A port of a VALE switch.
    Vale,
    /// The master end of a pipe.
    Master,
    /// The slave end of a pipe.
    Slave,
    /// A monitor.
    Monitor,
}

/// The name of a port, a pipe end or a monitor, after netmap(4) and vale(4): at most 16 bytes, seen
/// as its text.
#[derive(Clone, Copy, PartialEq, Eq)]
pub struct Name {
    bytes: [u8; 16],
    len: u8,
}

impl Model for Name {
    ghost use Rattle.std.specs.Prelude.{List, ℕ, ◌≡◌, ◌++◌, ◌-◌, ◌≤◌, length, take, replicate};
    ghost use Rattle.nm_types.specs.Names.{IsName};

    ghost Value = { List ℕ };

    ghost view = { λ n. take n.len n.bytes };

    // The bytes behind the text are zero, so that names of one text are one value.
    ghost invariant = { λ n. (length n.bytes ≡ 16) × (n.len ≤ 16)
        × (n.bytes ≡ take n.len n.bytes ++ replicate (16 - n.len) 0)
        × IsName (take n.len n.bytes) };

    ghost inverse = { λ text. record { bytes = text ++ replicate (16 - length text) 0; len = length text } };
}

fn is_word_byte(b: u8) -> bool
    ensures { result ≡ is_word_byte b }
{
    b.is_ascii_alphanumeric() || b == b'_' || b == b'-'
}

/// Tells whether each byte is a letter, a digit, `_` or `-`.
pub fn are_word_bytes(text: &[u8]) -> bool
    ensures { result ≡ are_word_bytes text.now }
{
    text.iter().all(|b| is_word_byte(*b))
}

fn is_word(text: &[u8]) -> bool
    ensures { result ≡ is_word text.now }
{
    !text.is_empty() && are_word_bytes(text)
}

fn colon_in(rest: &[u8]) -> Option<usize>
    ensures { result ≡ colon_in rest.now }
{
    rest.iter().position(|b| *b == b':')
}

fn is_switch_port(rest: &[u8]) -> bool
    ensures { result ≡ is_switch_port rest.now }
{
    match colon_in(rest) {
        None => false,
        Some(colon) => are_word_bytes(&rest[..colon]) && is_word(&rest[colon + 1..]),
    }
}

fn pipe_end(b: u8) -> Option<Kind>
    ensures { result ≡ pipe_end b }
{
    match b {
        b'{' => Some(Kind::Master),
        b'}' => Some(Kind::Slave),
        _ => None,
    }
}

fn pipe_kind(rest: &[u8]) -> Option<Kind>
    ensures { result ≡ pipe_kind rest.now }
{
    if rest.is_empty() || !is_word(&rest[..rest.len() - 1]) {
        None
    } else {
        pipe_end(rest[rest.len() - 1])
    }
}

/// What a name names, or none if the text is no name.
#[tactic(auto, using(crate::proofs::PipeNames::pipe_names))]
pub fn kind_of(text: &[u8]) -> Option<Kind>
    ensures { result ≡ kind_of text.now }
{
    if text.len() > 16 {
        None
    } else if text.starts_with(b"vale") {
        if is_switch_port(&text[4..]) {
            Some(Kind::Vale)
        } else {
            None
        }
    } else if text.starts_with(b"pipe") {
        pipe_kind(&text[4..])
    } else if text.starts_with(b"mon") {
        if is_word(&text[3..]) {
            Some(Kind::Monitor)
        } else {
            None
        }
    } else {
        None
    }
}

#[tactic(auto, unfolding(crate::specs::Names::is_name))]
fn is_name(text: &[u8]) -> bool
    ensures value { result ≡ is_name text.now }
    ensures short { IsTrue result → length text.now ≤ 16 }
{
    kind_of(text).is_some()
}

fn peer_byte(b: u8) -> u8
    ensures { result ≡ peer_byte b }
{
    if b == b'{' { b'}' } else { b'{' }
}

impl Name {
    /// Reads a name; `BadName` exactly if `text` is none.
    pub fn parse(text: &str) -> Result<Name, BadName>
        ensures ok { IfOk result (λ name. (name ≡ text.now) × IsName text.now) }
        ensures bad { OnErr result (is_name text.now ≡ false) }
    {
        Name::from_bytes(text.as_bytes())
    }

    /// Reads a name of bytes; `BadName` exactly if they are none.
    pub fn from_bytes(text: &[u8]) -> Result<Name, BadName>
        ensures ok { IfOk result (λ name. (name ≡ text.now) × IsName text.now) }
        ensures bad { OnErr result (is_name text.now ≡ false) }
    {
        if !is_name(text) {
            return Err(BadName);
        }
        let mut bytes = [0; 16];
        bytes[..text.len()].copy_from_slice(text);
        Ok(Name {
            bytes,
            len: text.len() as u8,
        })
    }

    /// The name's text.
    pub fn as_bytes(&self) -> &[u8]
        ensures text { result.now ≡ self.now }
        ensures name { IsName self.now }
    {
        &self.bytes[..self.len as usize]
    }

    /// What the name names.
    #[tactic(auto, unfolding(crate::specs::Names::is_name), using(crate::proofs::SwitchNames::switch_names))]
    pub fn kind(&self) -> Kind
        ensures { kind_of self.now ≡ Some result }
    {
        let text = self.as_bytes();
        if text.starts_with(b"vale") {
            return Kind::Vale;
        }
        match kind_of(text) {
            Some(kind) => kind,
            None => unreachable!(),
        }
    }

    /// Tells whether it names a port of a switch.
    #[tactic(auto, unfolding(crate::specs::Names::is_switch_port_name))]
    pub fn is_switch_port(&self) -> bool
        ensures { result ≡ is_switch_port_name self.now }
    {
        matches!(&self.kind(), Kind::Vale)
    }

    /// Tells whether it names an end of a pipe.
    #[tactic(auto, unfolding(crate::specs::Names::is_pipe_name))]
    pub fn is_pipe(&self) -> bool
        ensures { result ≡ is_pipe_name self.now }
    {
        matches!(&self.kind(), Kind::Master | Kind::Slave)
    }

    /// Tells whether it names a monitor.
    #[tactic(auto, unfolding(crate::specs::Names::is_monitor_name))]
    pub fn is_monitor(&self) -> bool
        ensures { result ≡ is_monitor_name self.now }
    {
        matches!(&self.kind(), Kind::Monitor)
    }

    /// The name of the pipe's other end.
    pub fn peer(&self) -> Name
        requires { is_pipe_name self.now ≡ true }
        ensures peer { result ≡ peer_name self.now }
        ensures pipe { is_pipe_name result ≡ true }
    {
        let last = self.len as usize - 1;
        let mut bytes = self.bytes;
        bytes[last] = peer_byte(bytes[last]);
        Name {
            bytes,
            len: self.len,
        }
    }

    /// The switch of a switch port's name.
    pub fn switch(&self) -> &[u8]
        ensures { result.now ≡ switch_of self.now }
    {
        switch_of(self.as_bytes())
    }
}

#[tactic(auto, unfolding(crate::specs::Names::switch_of))]
fn switch_of(text: &[u8]) -> &[u8]
    ensures { result.now ≡ switch_of text.now }
{
    if text.len() < 4 {
        return &text[..0];
    }
    let rest = &text[4..];
    match colon_in(rest) {
        Some(colon) => &rest[..colon],
        None => rest,
    }
}
