//! Tables by words.
ghost use Rattle.std.specs.Prelude.{◌≡◌, Some, None, OnOk, option_map};
ghost use Rattle.vale_script.specs.Tables.{seen, updated};

use nm_types::NoMemory;
use std::alloc::Global;
use std::collections::HashMap;

/// What a table has under a word.
#[tactic(auto, using(std::proofs::lemmas::Map::Text::text_keys))]
pub(crate) fn value_of<V: Copy>(table: &HashMap<String, V>, word: &str) -> Option<V>
    ensures { result ≡ seen table.now word.now }
{
    table.get(word).copied()
}

/// Sets what a table has under a word.
#[tactic(auto, using(std::proofs::lemmas::Map::Text::text_keys))]
pub(crate) fn set<V: Copy + Drop>(
    alloc: Global,
    table: &mut HashMap<String, V>,
    word: &str,
    value: V,
) -> Result<(), NoMemory>
    ensures { OnOk result (seen table.new ≡ updated (seen table.old) word.now (Some value)) }
{
    let key = String::from_str(alloc, word)?;
    table.insert(key, value)?;
    Ok(())
}
