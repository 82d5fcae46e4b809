//! Laws of chains and links. Each function does nothing; its contract is a law about the
//! definitions, which the check proves.
#![tactic(auto, using(crate::proofs::Links::link_laws))]

ghost use Rattle.nm_extra.specs.Laws.{FoundAndAstrayAreAll, LinksAreReadAgain};

/// What a chain finds and what is astray are all extra buffers, whatever the links.
pub fn found_and_astray_are_all()
    ensures { FoundAndAstrayAreAll }
{}

/// A link that was written is read again.
pub fn links_are_read_again()
    ensures { LinksAreReadAgain }
{}
