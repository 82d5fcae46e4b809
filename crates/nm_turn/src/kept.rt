//! What a turn needs to know of the value that it keeps.
ghost use Rattle.std.specs.Prelude.{ℕ, ◌≤◌, List};

/// A value that stands for a list of entries, numbered from 1. The list only grows, one entry at a
/// time.
pub trait Kept {
    /// One entry of the list.
    type Entry;

    /// Plain data that never changes while a turn keeps the value.
    type Fixed;

    /// The entries that the value stands for.
    ghost entries: { Self → List Self.Entry };

    /// What never changes.
    ghost fixed: { Self → Self.Fixed };

    /// The root of an entry at its number: that number, or the number of an earlier entry.
    ghost root: { Self.Entry → ℕ → ℕ };

    /// No root is later than its entry.
    ghost root_is_earlier: { (entry : Self.Entry) (number : ℕ) → root entry number ≤ number };
}
