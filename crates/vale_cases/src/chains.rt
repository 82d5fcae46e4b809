use nm_types::Chain;

/// What a session makes of the chain of its extra buffers, which are 6, 7 and 8.
#[derive(Clone, Copy, Debug)]
pub enum ChainChange {
    Nothing,
    /// Another head.
    Head(u32),
    /// A position's buffer names that of another position, counted from 1; 0 and 0 empty the chain.
    Link(u32, u32),
    /// The first buffer's bytes name this one.
    First(u32),
    /// The first transmit slot takes the first buffer, and is pushed.
    Exchange,
}

/// A chain of three extra buffers that is changed, and how a closed port tells it.
#[derive(Clone, Copy, Debug)]
pub struct ChainCase {
    pub change: ChainChange,
    pub chain: Chain,
    /// The buffer that stands in the first extra position then.
    pub first: u32,
    /// The entries from the session's coming to its leaving.
    pub entries: u32,
}

/// Chains that are whole, empty, cut, go round, or lead to buffers of others.
pub const CHAINS: [ChainCase; 9] = [
    ChainCase {
        change: ChainChange::Nothing,
        chain: Chain {
            found: 3,
            astray: 0,
        },
        first: 6,
        entries: 5,
    },
    ChainCase {
        change: ChainChange::Link(0, 0),
        chain: Chain {
            found: 0,
            astray: 3,
        },
        first: 6,
        entries: 5,
    },
    ChainCase {
        change: ChainChange::Link(2, 2),
        chain: Chain {
            found: 2,
            astray: 1,
        },
        first: 6,
        entries: 5,
    },
    ChainCase {
        change: ChainChange::Link(2, 1),
        chain: Chain {
            found: 2,
            astray: 1,
        },
        first: 6,
        entries: 5,
    },
    ChainCase {
        change: ChainChange::Head(2),
        chain: Chain {
            found: 0,
            astray: 3,
        },
        first: 6,
        entries: 5,
    },
    ChainCase {
        change: ChainChange::Head(4_294_967_295),
        chain: Chain {
            found: 0,
            astray: 3,
        },
        first: 6,
        entries: 5,
    },
    ChainCase {
        change: ChainChange::First(5),
        chain: Chain {
            found: 1,
            astray: 2,
        },
        first: 6,
        entries: 5,
    },
    ChainCase {
        change: ChainChange::First(4_294_967_295),
        chain: Chain {
            found: 1,
            astray: 2,
        },
        first: 6,
        entries: 5,
    },
    ChainCase {
        change: ChainChange::Exchange,
        chain: Chain {
            found: 0,
            astray: 3,
        },
        first: 2,
        entries: 6,
    },
];
