// Paths below some directory.
ghost use Rattle.std.specs.Prelude.{◌≡◌, List, ℕ, IfOk, IsTrue};
ghost use Rattle.std.specs.List.{list_all};
ghost use Rattle.kb_world.specs.Names.{is_name};
ghost use Rattle.kb_world.specs.Path.{IsPath};

use crate::text::Text;
use std::alloc::AllocError;
use std::marker::Model;

/// A path below some directory, as the list of its names.
#[derive(Debug, Drop)]
pub struct RelPath {
    names: Vec<Text>,
}

impl Model for RelPath {
    ghost use Rattle.std.specs.Prelude.{List, ℕ, IsTrue};
    ghost use Rattle.std.specs.List.{list_all};
    ghost use Rattle.kb_world.specs.Names.{is_name};

    ghost Value = { List (List ℕ) };

    ghost view = { λ p. p.names.items };

    ghost invariant = { λ p. IsTrue (list_all is_name p.names.items) };
}

impl RelPath {
    /// The path with these names.
    pub fn new(names: Vec<Text>) -> RelPath
        requires { IsTrue (list_all is_name names.items) }
        ensures { result ≡ names.items }
    {
        RelPath { names }
    }

    /// The names, from the directory on.
    pub fn names(&self) -> &[Text]
        ensures all { result.now ≡ self.now }
        ensures named { IsPath self.now }
    {
        &self.names
    }
}

impl Clone for RelPath {
    ghost is_clone = { λ path made. made ≡ path };

    fn clone(&self) -> Result<Self, AllocError> {
        Ok(RelPath {
            names: self.names.clone()?,
        })
    }
}
