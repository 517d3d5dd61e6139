//! The declarations of one scope, by their names.

ghost use Rattle.std.specs.Prelude.{◌≡◌, [], OnOk, option_copied};
ghost use Rattle.ob_syntax.specs.Names.{is_declared as is_declared_in, visible as visible_in};
ghost use Rattle.ob_syntax.specs.Names.{with_name};

use indexmap::IndexMap;
use ob_syntax::Meaning;
use std::alloc::{AllocFailed, Global};
use std::marker::Model;

/// A scope, as the list of its names in the order of their declarations; a name has no meaning up
/// to the end of its declaration.
#[derive(Drop)]
pub struct Scope<'a> {
    names: IndexMap<&'a [u8], Option<Meaning>>,
}

impl<'a> Model for Scope<'a> {
    ghost use Rattle.std.specs.Prelude.{ℕ, List, Option, map};
    ghost use Rattle.ob_syntax.specs.declared.checked.Meaning.{Meaning};

    ghost Value = { List (List ℕ × Option Meaning) };

    ghost view = { λ s. map (λ entry. (entry.0.now, entry.1)) s.names.entries };
}

impl<'a> Scope<'a> {
    /// A scope without names.
    pub fn new(alloc: Global) -> Scope<'a>
        ensures { result ≡ [] }
    {
        Scope {
            names: IndexMap::new(alloc),
        }
    }

    pub fn is_declared(&self, name: &[u8]) -> bool
        ensures { result ≡ is_declared_in name.now self.now }
    {
        self.names.contains_key(name)
    }

    /// The meaning of a name that is visible.
    pub fn visible(&self, name: &[u8]) -> Option<Meaning>
        ensures { result ≡ visible_in name.now self.now }
    {
        match self.names.get(name) {
            Some(meaning) => *meaning,
            None => None,
        }
    }

    /// Declares a name, or gives a name that is declared its meaning.
    pub fn set(
        &mut self,
        name: &'a [u8],
        meaning: Option<Meaning>,
    ) -> Result<(), AllocFailed<(&'a [u8], Option<Meaning>)>>
        ensures { OnOk result (self.new ≡ with_name name.entry.now meaning self.old) }
    {
        self.names.insert(name, meaning)?;
        Ok(())
    }
}
