//! What the words of a line say by themselves.
ghost use Rattle.std.specs.Prelude.{◌≡◌, ◌≤◌, ◌<◌, ◌^◌, ◌&&◌, nat_le, ℕ, map, length, IfOk, None, Some, true, Ok};
ghost use Rattle.nm_types.specs.declared.fault.LineCause.TheVariants as causes;
ghost use Rattle.vale_script.specs.Forms.{form_of};
ghost use Rattle.vale_script.specs.Places.{any_out, field_of};
ghost use Rattle.vale_words.specs.Fixed.{word_at, side_of, sides_of};
ghost use Rattle.vale_script.specs.Keeps.{IsSoundStatement, NamesUser};
ghost use Rattle.nm_types.specs.Names.{IsName};
ghost use Rattle.vale_script.specs.Sound.{IsUserName, IsFileName, IsSoundDeed};
ghost use Rattle.vale_script.specs.declared.statements.LineFault.TheVariants as faults;
ghost use Rattle.vale_script.specs.Statements.{shown, user_at, port_at, text_at, number_at, two_at, address_at, byte_at_place, open_act, put_with, put_act, fwd_act, poke_act, move_act, swap_act, extra_act, watch_act, named_act, plain_act, hex_act, play_act, save_act, act_of, statement_of, cause_by, cause_of_words, has_form, said_by_verb, words_said, line_said, Tells, TellsSaid, shown_text};

use crate::forms::{Place, Verb, form_of, verb_of};
use crate::places::{any_out, field_of, greatest_of, has_fixed_words};
use crate::script::{Act, ScriptWord};
use nm_types::{
    BUFFER_BYTES, Frame, LineCause, MAX_BATCH, MAX_COUNTS, MAX_POOL, Mac, Name, NoMemory, Side,
};
use std::alloc::{AllocError, Global};
use vale_words::{
    cut_plain_words, cut_words, frame_bytes, hex_byte_of, is_silent, is_user_name, mac_of,
    name_text, number_in, port_name, room_for_words, side_of, sides_of, text_of, word_at,
};

/// Why a line says nothing that a script may say.
#[derive(Clone, Copy, Debug, PartialEq, Eq)]
pub enum LineFault {
    /// The line is bad, for this cause.
    Bad { cause: LineCause },
    /// Out of memory.
    NoMemory,
}

impl From<NoMemory> for LineFault {
    ghost from_gives = { λ _ e. e ≡ faults.NoMemory };

    fn from(_: NoMemory) -> Self {
        LineFault::NoMemory
    }
}

impl From<AllocError> for LineFault {
    ghost from_gives = { λ _ e. e ≡ faults.NoMemory };

    fn from(_: AllocError) -> Self {
        LineFault::NoMemory
    }
}

impl From<LineCause> for LineFault {
    ghost from_gives = { λ cause e. e ≡ faults.Bad cause };

    fn from(cause: LineCause) -> Self {
        LineFault::Bad { cause }
    }
}

/// What a line says.
#[derive(Drop)]
pub enum Said<'a> {
    /// Nothing.
    Nothing,
    /// The size of the pool.
    Pool { size: u32 },
    /// A new user of this name.
    NewUser { name: &'a str },
    /// A block begins.
    Begin,
    /// A block ends.
    End,
    /// A user does this.
    Does { user: &'a str, act: Act },
}

fn user_at<'a>(words: &[&'a [u8]]) -> Result<&'a str, LineCause>
    ensures user { shown_text result ≡ user_at (map (λ w. w.now) words.now) }
    ensures named { IfOk result (λ name. IsUserName name.now) }
{
    let word = word_at(words, 1);
    if !is_user_name(word) {
        return Err(LineCause::Name);
    }
    name_text(word).ok_or(LineCause::Word)
}

fn text_at<'a>(words: &[&'a [u8]], i: usize) -> Result<&'a str, LineCause>
    ensures text { shown_text result ≡ text_at i (map (λ w. w.now) words.now) }
    ensures named { IfOk result (λ text. IsFileName text.now) }
{
    text_of(word_at(words, i)).ok_or(LineCause::Word)
}

fn port_at(words: &[&[u8]], i: usize) -> Result<Name, LineCause>
    ensures port { result ≡ port_at i (map (λ w. w.now) words.now) }
    ensures named { IfOk result IsName }
{
    port_name(word_at(words, i)).ok_or(LineCause::Name)
}

fn address_at(words: &[&[u8]], i: usize) -> Result<Mac, LineCause>
    ensures { result ≡ address_at i (map (λ w. w.now) words.now) }
{
    mac_of(word_at(words, i)).ok_or(LineCause::Name)
}

fn byte_at(words: &[&[u8]], i: usize) -> Result<u8, LineCause>
    ensures { result ≡ byte_at_place i (map (λ w. w.now) words.now) }
{
    hex_byte_of(word_at(words, i)).ok_or(LineCause::Number)
}

fn value_at(words: &[&[u8]], i: usize, high: u64) -> Result<u64, LineCause>
    ensures within { IfOk result (λ n. n ≤ high) }
    ensures value { result ≡ number_at 0 high i (map (λ w. w.now) words.now) }
{
    number_in(0, high, word_at(words, i)).ok_or(LineCause::Number)
}

fn number_at(words: &[&[u8]], i: usize, low: u32, high: u32) -> Result<u32, LineCause>
    ensures least { IfOk result (λ n. low ≤ n) }
    ensures within { IfOk result (λ n. n ≤ high) }
    ensures value { result ≡ number_at low high i (map (λ w. w.now) words.now) }
{
    match number_in(low as u64, high as u64, word_at(words, i)) {
        Some(number) => Ok(number as u32),
        None => Err(LineCause::Number),
    }
}

fn any_at(words: &[&[u8]], i: usize) -> Result<u32, LineCause>
    ensures { result ≡ number_at 0 4294967295 i (map (λ w. w.now) words.now) }
{
    number_at(words, i, 0, u32::MAX)
}

/// Two numbers, one behind the other.
fn two_at(words: &[&[u8]], i: usize) -> Result<(u32, u32), LineCause>
    requires { i < 9 }
    ensures { result ≡ two_at i (map (λ w. w.now) words.now) }
{
    let first = any_at(words, i)?;
    let second = any_at(words, i + 1)?;
    Ok((first, second))
}

fn side_at(words: &[&[u8]], i: usize) -> Side
    ensures { result ≡ side_of (word_at i (map (λ w. w.now) words.now)) }
{
    side_of(word_at(words, i))
}

fn open_act(words: &[&[u8]]) -> Result<Act, LineCause>
    ensures sound { IfOk result IsSoundDeed }
    ensures value { result ≡ open_act (map (λ w. w.now) words.now) }
{
    let name = port_at(words, 2)?;
    let (tx, rx) = two_at(words, 3)?;
    let extra = if words.len() == 6 {
        any_at(words, 5)?
    } else {
        0
    };
    Ok(Act::Open {
        name,
        tx,
        rx,
        extra,
    })
}

fn put_with(words: &[&[u8]], name: Name, count: u32) -> Result<Act, LineCause>
    requires counted { count ≤ MAX_COUNTS }
    requires named { IsName name }
    ensures sound { IfOk result IsSoundDeed }
    ensures value { result ≡ put_with name count (map (λ w. w.now) words.now) }
{
    let to = address_at(words, 4)?;
    let from = address_at(words, 5)?;
    let len = number_at(words, 6, 0, BUFFER_BYTES as u32)?;
    let fill = byte_at(words, 7)?;
    Ok(Act::Put {
        name,
        count,
        to,
        from,
        len: len as u16,
        fill,
    })
}

fn put_act(words: &[&[u8]]) -> Result<Act, LineCause>
    ensures sound { IfOk result IsSoundDeed }
    ensures value { result ≡ put_act (map (λ w. w.now) words.now) }
{
    let name = port_at(words, 2)?;
    let count = number_at(words, 3, 0, MAX_COUNTS as u32)?;
    put_with(words, name, count)
}

fn fwd_act(words: &[&[u8]]) -> Result<Act, LineCause>
    ensures sound { IfOk result IsSoundDeed }
    ensures value { result ≡ fwd_act (map (λ w. w.now) words.now) }
{
    let from = port_at(words, 2)?;
    let to = port_at(words, 3)?;
    let count = number_at(words, 4, 0, MAX_COUNTS as u32)?;
    Ok(Act::Fwd { from, to, count })
}

fn poke_act(words: &[&[u8]]) -> Result<Act, LineCause>
    ensures sound { IfOk result IsSoundDeed }
    ensures value { result ≡ poke_act (map (λ w. w.now) words.now) }
{
    let name = port_at(words, 2)?;
    let side = side_at(words, 3);
    let slot = any_at(words, 4)?;
    let field = word_at(words, 5);
    let value = value_at(words, 6, greatest_of(field))?;
    Ok(Act::Poke {
        name,
        side,
        slot,
        field: field_of(field),
        value,
    })
}

fn move_act(words: &[&[u8]]) -> Result<Act, LineCause>
    ensures sound { IfOk result IsSoundDeed }
    ensures value { result ≡ move_act (map (λ w. w.now) words.now) }
{
    let name = port_at(words, 2)?;
    let side = side_at(words, 3);
    let (head, cur) = two_at(words, 4)?;
    Ok(Act::Move {
        name,
        side,
        head,
        cur,
    })
}

fn swap_act(words: &[&[u8]]) -> Result<Act, LineCause>
    ensures sound { IfOk result IsSoundDeed }
    ensures value { result ≡ swap_act (map (λ w. w.now) words.now) }
{
    let name = port_at(words, 2)?;
    let slot = any_at(words, 4)?;
    let other = port_at(words, 5)?;
    let other_slot = any_at(words, 7)?;
    Ok(Act::Swap {
        name,
        side: side_at(words, 3),
        slot,
        other,
        other_side: side_at(words, 6),
        other_slot,
        quiet: words.len() == 9,
    })
}

fn extra_act(words: &[&[u8]]) -> Result<Act, LineCause>
    ensures sound { IfOk result IsSoundDeed }
    ensures value { result ≡ extra_act (map (λ w. w.now) words.now) }
{
    let name = port_at(words, 2)?;
    let (i, j) = two_at(words, 3)?;
    Ok(Act::Extra { name, i, j })
}

fn watch_act(words: &[&[u8]]) -> Result<Act, LineCause>
    ensures sound { IfOk result IsSoundDeed }
    ensures value { result ≡ watch_act (map (λ w. w.now) words.now) }
{
    let monitor = port_at(words, 2)?;
    let target = port_at(words, 3)?;
    Ok(Act::Watch {
        monitor,
        target,
        sides: sides_of(word_at(words, 4)),
    })
}

/// An act on one port, of which the line says no more than `keep`.
fn named_act(verb: Verb, words: &[&[u8]]) -> Result<Act, LineCause>
    ensures sound { IfOk result IsSoundDeed }
    ensures value { result ≡ named_act verb (map (λ w. w.now) words.now) }
{
    let name = port_at(words, 2)?;
    match verb {
        Verb::Tx => Ok(Act::Tx { name }),
        Verb::Rx => Ok(Act::Rx {
            name,
            keep: words.len() == 4,
        }),
        Verb::Stat => Ok(Act::Stat { name }),
        Verb::Close => Ok(Act::Close { name }),
        _ => Err(LineCause::Word),
    }
}

/// An act whose words take no memory.
fn plain_act(verb: Verb, words: &[&[u8]]) -> Result<Act, LineCause>
    ensures sound { IfOk result IsSoundDeed }
    ensures value { result ≡ plain_act verb (map (λ w. w.now) words.now) }
{
    match verb {
        Verb::Open => open_act(words),
        Verb::Put => put_act(words),
        Verb::Fwd => fwd_act(words),
        Verb::Poke => poke_act(words),
        Verb::Move => move_act(words),
        Verb::Swap => swap_act(words),
        Verb::Extra => extra_act(words),
        Verb::Watch => watch_act(words),
        _ => named_act(verb, words),
    }
}

fn hex_act(alloc: Global, words: &[&[u8]]) -> Result<Act, LineFault>
    ensures sound { IfOk result IsSoundDeed }
    ensures value { Tells (hex_act (map (λ w. w.now) words.now)) result }
{
    let name = port_at(words, 2)?;
    match frame_bytes(alloc, word_at(words, 3))? {
        Some(bytes) => Ok(Act::Hex {
            name,
            bytes: Frame::new(alloc, &bytes, false)?,
        }),
        None => Err(LineFault::Bad {
            cause: LineCause::Number,
        }),
    }
}

fn play_act(alloc: Global, words: &[&[u8]]) -> Result<Act, LineFault>
    ensures sound { IfOk result IsSoundDeed }
    ensures value { Tells (play_act (map (λ w. w.now) words.now)) result }
{
    let name = port_at(words, 2)?;
    let file = text_at(words, 3)?;
    let batch = number_at(words, 4, 1, MAX_BATCH as u32)?;
    let file = ScriptWord::new(alloc, file)?;
    Ok(Act::Play { name, file, batch })
}

fn save_act(alloc: Global, words: &[&[u8]]) -> Result<Act, LineFault>
    ensures sound { IfOk result IsSoundDeed }
    ensures value { Tells (save_act (map (λ w. w.now) words.now)) result }
{
    let name = port_at(words, 2)?;
    let file = text_at(words, 3)?;
    let file = ScriptWord::new(alloc, file)?;
    Ok(Act::Save { name, file })
}

/// What a line of this form has its user do.
fn act_of(alloc: Global, verb: Verb, words: &[&[u8]]) -> Result<Act, LineFault>
    ensures sound { IfOk result IsSoundDeed }
    ensures value { Tells (act_of verb (map (λ w. w.now) words.now)) result }
{
    match verb {
        Verb::Hex => hex_act(alloc, words),
        Verb::Play => play_act(alloc, words),
        Verb::Save => save_act(alloc, words),
        _ => match plain_act(verb, words) {
            Ok(act) => Ok(act),
            Err(cause) => Err(LineFault::Bad { cause }),
        },
    }
}

/// What the words of a line say, each of which is good at its place.
fn statement_of<'a>(alloc: Global, verb: Verb, words: &[&'a [u8]]) -> Result<Said<'a>, LineFault>
    ensures sound { IfOk result (λ said. IsSoundStatement (shown said)) }
    ensures named { IfOk result (λ said. NamesUser (shown said)) }
    ensures value { TellsSaid (statement_of verb (map (λ w. w.now) words.now)) result }
{
    match verb {
        Verb::Pool => {
            let size = number_at(words, 1, 1, MAX_POOL)?;
            Ok(Said::Pool { size })
        }
        Verb::User => {
            let name = user_at(words)?;
            Ok(Said::NewUser { name })
        }
        Verb::Par => Ok(Said::Begin),
        Verb::End => Ok(Said::End),
        _ => {
            let user = user_at(words)?;
            let act = act_of(alloc, verb, words)?;
            Ok(Said::Does { user, act })
        }
    }
}

/// Why the words of a line are no such line, by the words alone, where `first` is the first word.
/// The causes have an order, so all words are looked at for one before the next.
fn cause_by(verb: Verb, first: &[u8], others: &[&[u8]]) -> Option<LineCause>
    ensures { result ≡ cause_by verb first.now (map (λ w. w.now) others.now) }
{
    let form = form_of(verb);
    if any_out(LineCause::Word, form.places, first, others) {
        Some(LineCause::Word)
    } else if others.len() < form.least || others.len() > form.places.len() {
        Some(LineCause::Count)
    } else if any_out(LineCause::Number, form.places, first, others) {
        Some(LineCause::Number)
    } else if any_out(LineCause::Name, form.places, first, others) {
        Some(LineCause::Name)
    } else {
        None
    }
}

/// Whether any of the words behind the first one is none of those that its place in this form has. Each
/// such place stands behind a user's and a port's name.
#[tactic(auto, using(crate::proofs::Free::none_of_free))]
fn misses_fixed(verb: Verb, places: &[Place], first: &[u8], others: &[&[u8]]) -> bool
    requires { places.now ≡ (form_of verb).places }
    ensures { result ≡ any_out causes.Word (form_of verb).places first.now (map (λ w. w.now) others.now) }
{
    has_fixed_words(verb) && others.len() > 2 && any_out(LineCause::Word, places, first, others)
}

/// Whether words are as many as a line of this form has, with its fixed words at their places.
fn has_form(verb: Verb, words: &[&[u8]]) -> bool
    ensures { result ≡ has_form verb (map (λ w. w.now) words.now) }
{
    let Some((first, others)) = words.split_first() else {
        return false;
    };
    let form = form_of(verb);
    form.least <= others.len()
        && others.len() <= form.places.len()
        && !misses_fixed(verb, form.places, first, others)
}

/// Why the words of a line are no such line, by the words alone.
fn cause_of_words(verb: Verb, words: &[&[u8]]) -> Option<LineCause>
    ensures { result ≡ cause_of_words verb (map (λ w. w.now) words.now) }
{
    match words.split_first() {
        Some((first, others)) => cause_by(verb, first, others),
        None => Some(LineCause::Word),
    }
}

/// What words say that have a line's form. They are read at once, since words that are read are bad for
/// no cause, and only those that are not are looked at for the cause.
#[tactic(auto, using(crate::proofs::Causes::read_lines))]
fn said_in_form<'a>(alloc: Global, verb: Verb, words: &[&'a [u8]]) -> Result<Said<'a>, LineFault>
    requires { has_form verb (map (λ w. w.now) words.now) ≡ true }
    ensures sound { IfOk result (λ said. IsSoundStatement (shown said)) }
    ensures named { IfOk result (λ said. NamesUser (shown said)) }
    ensures value { TellsSaid (said_by_verb (Some verb) (map (λ w. w.now) words.now)) result }
{
    match statement_of(alloc, verb, words) {
        Ok(said) => Ok(said),
        Err(LineFault::NoMemory) => Err(LineFault::NoMemory),
        Err(LineFault::Bad { cause }) => Err(LineFault::Bad {
            cause: cause_of_words(verb, words).unwrap_or(cause),
        }),
    }
}

fn words_said<'a>(alloc: Global, words: &[&'a [u8]]) -> Result<Said<'a>, LineFault>
    ensures sound { IfOk result (λ said. IsSoundStatement (shown said)) }
    ensures named { IfOk result (λ said. NamesUser (shown said)) }
    ensures value { TellsSaid (words_said (map (λ w. w.now) words.now)) result }
{
    let Some(verb) = verb_of(word_at(words, 0)) else {
        return Err(LineFault::Bad {
            cause: LineCause::Word,
        });
    };
    if has_form(verb, words) {
        return said_in_form(alloc, verb, words);
    }
    match cause_of_words(verb, words) {
        Some(cause) => Err(LineFault::Bad { cause }),
        None => statement_of(alloc, verb, words),
    }
}

/// What a line says, cut in words where the words of the line before it were.
pub(crate) fn said_in<'a>(
    alloc: Global,
    words: &mut Vec<&'a [u8]>,
    line: &'a [u8],
) -> Result<Said<'a>, LineFault>
    ensures sound { IfOk result (λ said. IsSoundStatement (shown said)) }
    ensures named { IfOk result (λ said. NamesUser (shown said)) }
    ensures value { TellsSaid (line_said line.now) result }
{
    let plain = cut_plain_words(words, line)?;
    if !plain {
        cut_words(words, line)?;
    }
    if is_silent(words) {
        return Ok(Said::Nothing);
    }
    if !plain {
        return Err(LineFault::Bad {
            cause: LineCause::Word,
        });
    }
    words_said(alloc, words)
}

/// What a line says.
pub fn line_said(alloc: Global, line: &[u8]) -> Result<Said<'_>, LineFault>
    ensures sound { IfOk result (λ said. IsSoundStatement (shown said)) }
    ensures named { IfOk result (λ said. NamesUser (shown said)) }
    ensures value { TellsSaid (line_said line.now) result }
{
    let mut words = room_for_words(alloc)?;
    said_in(alloc, &mut words, line)
}
