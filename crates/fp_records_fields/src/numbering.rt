//! Names, numbered in the order in which they come.
ghost use Rattle.std.specs.Prelude.{◌≡◌, ◌<◌, ◌++◌, ◌∷◌, [], length, false, IfSome, OnErr, OnOk};
ghost use Rattle.fp_records_fields.specs.Names.{is_taken, number_of};

use crate::NoMemory;
use indexmap::IndexSet;
use std::alloc::Global;
use std::marker::Model;

/// Names, each once, in the order in which they came.
#[derive(Drop)]
pub struct Names<'a> {
    set: IndexSet<&'a [u8]>,
}

impl<'a> Model for Names<'a> {
    ghost use Rattle.std.specs.Prelude.{ℕ, List, map};

    ghost Value = { List (List ℕ) };

    ghost view = { λ a. map (λ s. s.now) a.set.keys };
}

impl<'a> Names<'a> {
    /// No names.
    pub fn new(alloc: Global) -> Names<'a>
        ensures { result ≡ [] }
    {
        Names {
            set: IndexSet::new(alloc),
        }
    }

    /// Adds a name that isn't there. After an `Err`, which comes only where no memory is found, the
    /// names are as before.
    pub fn add(&mut self, name: &'a [u8]) -> Result<(), NoMemory>
        requires { is_taken self.old name.now ≡ false }
        ensures names { OnOk result (self.new ≡ self.old ++ name.entry.now ∷ []) }
        ensures err { OnErr result (self.new ≡ self.old) }
    {
        self.set.insert(name)?;
        Ok(())
    }

    /// The number of a name, if it is there.
    pub fn find(&self, name: &[u8]) -> Option<usize>
        ensures number { result ≡ number_of self.now name.now }
        ensures within { IfSome result (λ i. i < length self.now) }
    {
        self.set.get_index_of(name)
    }

    /// Whether a name is there.
    pub fn has(&self, name: &[u8]) -> bool
        ensures { result ≡ is_taken self.now name.now }
    {
        self.set.contains(name)
    }
}
