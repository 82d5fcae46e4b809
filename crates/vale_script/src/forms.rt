//! The forms of a script's lines: a row for each.
ghost use Rattle.std.specs.Prelude.{◌≡◌, Some, IfSome, true};
ghost use Rattle.vale_script.specs.Forms.{shown_form, form_of, verb_of};

use nm_types::{BUFFER_BYTES, MAX_BATCH, MAX_COUNTS, MAX_POOL};

/// The first word of a line.
#[derive(Clone, Copy, Debug, PartialEq, Eq)]
pub enum Verb {
    Pool,
    User,
    Open,
    Put,
    Hex,
    Play,
    Tx,
    Rx,
    Fwd,
    Poke,
    Move,
    Swap,
    Extra,
    Watch,
    Stat,
    Save,
    Close,
    Par,
    End,
}

/// What stands at a place behind the first word.
#[derive(Clone, Copy, Debug, PartialEq, Eq)]
pub enum Place {
    /// A user's name.
    UserName,
    /// The name of a port, a pipe end or a monitor.
    PortName,
    /// An Ethernet address.
    Address,
    /// Any word.
    File,
    /// A number between these.
    Number { low: u32, high: u32 },
    /// Two hexadecimal digits.
    Byte,
    /// A frame in hexadecimal digits, or a dot.
    Bytes,
    /// `tx` or `rx`.
    Side,
    /// `t`, `r` or `tr`.
    Sides,
    /// A slot's field.
    Field,
    /// A number that fits the field before it.
    Value,
    /// `keep`.
    Keep,
    /// `quiet`.
    Quiet,
}

/// A line's form: its first word, the places of its longest form, and how many of them each such line
/// has.
#[derive(Clone, Copy)]
pub struct Form {
    pub word: &'static [u8],
    pub places: &'static [Place],
    pub least: usize,
}

/// All first words.
const VERBS: [Verb; 19] = [
    Verb::Pool,
    Verb::User,
    Verb::Open,
    Verb::Put,
    Verb::Hex,
    Verb::Play,
    Verb::Tx,
    Verb::Rx,
    Verb::Fwd,
    Verb::Poke,
    Verb::Move,
    Verb::Swap,
    Verb::Extra,
    Verb::Watch,
    Verb::Stat,
    Verb::Save,
    Verb::Close,
    Verb::Par,
    Verb::End,
];

/// A number of 32 bits.
const ANY: Place = Place::Number {
    low: 0,
    high: u32::MAX,
};

/// The number of frames of a `put` or a `fwd` line.
const COUNT: Place = Place::Number {
    low: 0,
    high: MAX_COUNTS as u32,
};

/// The frames between two syncs of a `play` line.
const BATCH: Place = Place::Number {
    low: 1,
    high: MAX_BATCH as u32,
};

const POOL: Place = Place::Number {
    low: 1,
    high: MAX_POOL,
};

const LENGTH: Place = Place::Number {
    low: 0,
    high: BUFFER_BYTES as u32,
};

const U: Place = Place::UserName;

const P: Place = Place::PortName;

const SIDE: Place = Place::Side;

const ADDRESS: Place = Place::Address;

/// The form of the lines that begin with a word.
pub(crate) fn form_of(verb: Verb) -> Form
    ensures { shown_form result ≡ form_of verb }
{
    let (word, places, least): (&'static [u8], &'static [Place], usize) = match verb {
        Verb::Pool => (b"pool", &[POOL], 1),
        Verb::User => (b"user", &[U], 1),
        Verb::Open => (b"open", &[U, P, ANY, ANY, ANY], 4),
        Verb::Put => (
            b"put",
            &[U, P, COUNT, ADDRESS, ADDRESS, LENGTH, Place::Byte],
            7,
        ),
        Verb::Hex => (b"hex", &[U, P, Place::Bytes], 3),
        Verb::Play => (b"play", &[U, P, Place::File, BATCH], 4),
        Verb::Tx => (b"tx", &[U, P], 2),
        Verb::Rx => (b"rx", &[U, P, Place::Keep], 2),
        Verb::Fwd => (b"fwd", &[U, P, P, COUNT], 4),
        Verb::Poke => (b"poke", &[U, P, SIDE, ANY, Place::Field, Place::Value], 6),
        Verb::Move => (b"move", &[U, P, SIDE, ANY, ANY], 5),
        Verb::Swap => (b"swap", &[U, P, SIDE, ANY, P, SIDE, ANY, Place::Quiet], 7),
        Verb::Extra => (b"extra", &[U, P, ANY, ANY], 4),
        Verb::Watch => (b"watch", &[U, P, P, Place::Sides], 4),
        Verb::Stat => (b"stat", &[U, P], 2),
        Verb::Save => (b"save", &[U, P, Place::File], 3),
        Verb::Close => (b"close", &[U, P], 2),
        Verb::Par => (b"par", &[], 0),
        Verb::End => (b"end", &[], 0),
    };
    Form {
        word,
        places,
        least,
    }
}

fn word_of(verb: Verb) -> &'static [u8]
    ensures { result.now ≡ (form_of verb).word }
{
    form_of(verb).word
}

/// Whether a line that begins with this word does what this verb says.
#[tactic(auto, using(crate::proofs::Verbs::verbs_by_word))]
fn is_verb(verb: Verb, word: &[u8]) -> bool
    ensures { result ≡ true → verb_of word.now ≡ Some verb }
{
    word_of(verb) == word
}

/// What a line does that begins with this word, if it is one of those that most lines begin with.
fn common_verb(word: &[u8]) -> Option<Verb>
    ensures { IfSome result (λ verb. verb_of word.now ≡ Some verb) }
{
    if is_verb(Verb::Tx, word) {
        return Some(Verb::Tx);
    }
    if is_verb(Verb::Rx, word) {
        return Some(Verb::Rx);
    }
    if is_verb(Verb::Put, word) {
        return Some(Verb::Put);
    }
    if is_verb(Verb::Hex, word) {
        return Some(Verb::Hex);
    }
    if is_verb(Verb::Fwd, word) {
        return Some(Verb::Fwd);
    }
    None
}

/// What a line does that begins with this word, or none if no line does.
#[tactic(auto, unfolding(crate::specs::Forms::verb_of))]
pub fn verb_of(word: &[u8]) -> Option<Verb>
    ensures { result ≡ verb_of word.now }
{
    if let Some(verb) = common_verb(word) {
        return Some(verb);
    }
    VERBS.iter().copied().find(|verb| word_of(*verb) == word)
}
