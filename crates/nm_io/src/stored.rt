//! Files in a map, by their names.
ghost use Rattle.std.specs.Prelude.{◌≡◌, OnOk, OnErr};
ghost use Rattle.std.specs.Option.{option_map};
ghost use Rattle.nm_io.specs.Files.{appended, replaced};
ghost use Rattle.nm_io.specs.ShelfState.{files_in};

use nm_types::NoMemory;
use std::alloc::Global;
use std::collections::BTreeMap;

/// The contents of files by their names, and the memory for more.
#[derive(Drop)]
pub(crate) struct Stored {
    pub(crate) alloc: Global,
    pub(crate) files: BTreeMap<String, Vec<u8>>,
}

impl Stored {
    /// Returns the contents of one file.
    #[tactic(auto, using(std::proofs::lemmas::Map::Text::text_keys))]
    pub(crate) fn contents(&self, name: &str) -> Option<&[u8]>
        ensures { option_map (λ f. f.now) result ≡ files_in self.now.files name.now }
    {
        match self.files.get(name) {
            Some(file) => Some(file.as_slice()),
            None => None,
        }
    }

    /// Sets the contents of one file.
    #[tactic(auto, using(std::proofs::lemmas::Map::Text::text_keys))]
    pub(crate) fn replace(&mut self, name: &str, bytes: &[u8]) -> Result<(), NoMemory>
        ensures ok { OnOk result
            (files_in self.new.files ≡ replaced (files_in self.old.files) name.now bytes.now) }
        ensures err { OnErr result (files_in self.new.files ≡ files_in self.old.files) }
    {
        let key = String::from_str(self.alloc, name)?;
        let file = Vec::from_slice(self.alloc, bytes)?;
        self.files.insert(key, file)?;
        Ok(())
    }

    /// Appends bytes to one file.
    #[tactic(auto, using(std::proofs::lemmas::Map::Text::text_keys))]
    pub(crate) fn extend(&mut self, name: &str, bytes: &[u8]) -> Result<(), NoMemory>
        ensures ok { OnOk result
            (files_in self.new.files ≡ appended (files_in self.old.files) name.now bytes.now) }
        ensures err { OnErr result (files_in self.new.files ≡ files_in self.old.files) }
    {
        match self.files.get_mut(name) {
            Some(file) => {
                file.extend_from_slice(bytes)?;
                Ok(())
            }
            None => self.replace(name, bytes),
        }
    }
}
