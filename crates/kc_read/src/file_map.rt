//! The files of a tree.

ghost use Rattle.std.specs.Prelude.{◌≡◌, [], OnOk, OnErr, option_map, None};
ghost use Rattle.kc_language.specs.Expansion.{bytes_in};
ghost use Rattle.kc_read.specs.Files.{Puts, files_in};

use indexmap::IndexMap;
use kc_expr::hash_key::HashKey;
use kc_text::FileText;
use std::alloc::{AllocError, Global};
use std::marker::Model;

/// Files by name, and whether the root file is flat.
#[derive(Drop)]
pub struct FileMap {
    alloc: Global,
    key: HashKey,
    files: IndexMap<Vec<u8>, FileText, HashKey>,
    is_flat: bool,
}

impl Model for FileMap {
    ghost use Rattle.std.specs.Prelude.{ℕ, List, map};
    ghost use Rattle.kc_read.specs.Files.{FileTable};

    ghost Value = { FileTable };

    ghost view = { λ m. record { entries = map (λ e. (e.0.items, e.1)) m.files.entries; flat = m.is_flat } };
}

impl FileMap {
    /// Returns a map without files. `is_flat` says whether the root file is flat. The table has the fixed key.
    pub fn new(alloc: Global, is_flat: bool) -> Self
        ensures { result ≡ record { entries = []; flat = is_flat } }
    {
        FileMap::keyed(alloc, is_flat, HashKey::known())
    }

    /// Returns a map without files, in a table with this key.
    pub fn keyed(alloc: Global, is_flat: bool, key: HashKey) -> Self
        ensures { result ≡ record { entries = []; flat = is_flat } }
    {
        FileMap {
            alloc,
            key,
            files: IndexMap::with_hasher(alloc, key),
            is_flat,
        }
    }

    /// The key of the table, for other tables with names of the same tree.
    pub fn key(&self) -> HashKey {
        self.key
    }

    /// Whether the root file is flat.
    pub(crate) fn is_flat(&self) -> bool
        ensures { result ≡ self.now.flat }
    {
        self.is_flat
    }

    /// Sets the bytes of a name, and drops its old bytes. The only error is that memory runs out, which never happens for a name
    /// that has bytes. Then the map is unchanged.
    pub fn insert(&mut self, name: Vec<u8>, bytes: Vec<u8>) -> Result<(), AllocError>
        ensures ok { OnOk result (Puts (files_in self.old) (files_in self.new) name.items bytes.items) }
        ensures err { OnErr result (self.new ≡ self.old) }
        ensures unknown { OnErr result (bytes_in self.old.entries name.items ≡ None) }
    {
        self.insert_text(name, FileText::new(self.alloc, bytes))
    }

    /// Sets the text of a name, like `insert`, without counting its lines anew. The only error is that memory runs out, which
    /// never happens for a name that has bytes. Then the map is unchanged.
    pub fn insert_text(&mut self, name: Vec<u8>, text: FileText) -> Result<(), AllocError>
        ensures ok { OnOk result (Puts (files_in self.old) (files_in self.new) name.items text) }
        ensures err { OnErr result (self.new ≡ self.old) }
        ensures unknown { OnErr result (bytes_in self.old.entries name.items ≡ None) }
    {
        self.files.insert(name, text)?;
        Ok(())
    }

    /// The text of a name.
    pub(crate) fn text(&self, name: &[u8]) -> Option<&FileText>
        ensures { option_map (λ t. t.now) result ≡ bytes_in self.now.entries name.now }
    {
        self.files.get(name)
    }

    /// The bytes of a name.
    pub fn get(&self, name: &[u8]) -> Option<&[u8]>
        ensures { option_map (λ b. b.now) result ≡ bytes_in self.now.entries name.now }
    {
        let text = self.text(name)?;
        Some(text.bytes())
    }
}
