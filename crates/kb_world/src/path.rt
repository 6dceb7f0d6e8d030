// Paths of the tree, as lists of names from the root.
ghost use Rattle.std.specs.Prelude.{◌≡◌, ◌≢◌, ◌==◌, List, ℕ, [], ◌∷◌, ◌++◌, IfOk, IfSome, IsErrOf, IsTrue, MatchOption, Some, true, false, drop, length, map, refl, nat_eq};
ghost use Rattle.std.specs.List.{slice_split};
ghost use Rattle.std.specs.Str.{byte};
ghost use Rattle.std.specs.Ordering.{nat_cmp};
ghost use Rattle.std.specs.Cmp as laws_of;
ghost use Rattle.std.specs.Cmp.Lexicographic.{pointwise, lists_total, lists_equiv, lists_ties, lists_po, nat_list_cmp_total, nat_list_eq_equiv, texts_ties};
ghost use Rattle.kb_world.specs.Names.{is_name};
ghost use Rattle.std.specs.Option.{option_copied};
ghost use Rattle.kb_world.specs.Path.{IsPath, path_text, child, parent, is_under, path_cmp};
ghost use Rattle.kb_world.specs.Tree.{name_in, sole};
ghost use Rattle.kb_world.specs.declared.path.PathError.TheVariants.{NotAPath, NoMemory};

use crate::names::is_name;
use crate::text::Text;
use std::alloc::{AllocError, AllocFailed, Global};
use std::cmp::Ordering;
use std::fmt;
use std::marker::Model;

/// A path of the tree: the list of names from the root, each of them an `is_name`. Paths are ordered name by name,
/// each name by bytes, a path before those below it.
#[derive(Debug, Drop)]
pub struct Path {
    names: Vec<Text>,
}

impl Model for Path {
    ghost use Rattle.std.specs.Prelude.{List, ℕ, IsTrue};
    ghost use Rattle.std.specs.List.{list_all};
    ghost use Rattle.kb_world.specs.Names.{is_name};

    ghost Value = { List (List ℕ) };

    ghost view = { λ p. p.names.items };

    ghost invariant = { λ p. IsTrue (list_all is_name p.names.items) };
}

/// Why a text isn't read as a path.
#[derive(Clone, Copy, Debug, PartialEq, Eq)]
pub enum PathError {
    /// The text isn't `/`, and isn't a run of `/` and a name.
    NotAPath,
    NoMemory,
}

impl From<AllocError> for PathError {
    ghost from_gives = { λ _ e. e ≡ NoMemory };

    fn from(_: AllocError) -> Self {
        PathError::NoMemory
    }
}

impl<T: Drop> From<AllocFailed<T>> for PathError {
    ghost from_gives = { λ _ e. e ≡ NoMemory };

    fn from(_: AllocFailed<T>) -> Self {
        PathError::NoMemory
    }
}

// The room that the text of a path begins with: most are no longer.
const USUAL_LENGTH: usize = 128;

// What stands behind a leading `/`.
fn after_slash(text: &str) -> Option<&str>
    ensures { MatchOption result ((rest : List ℕ) → text.now ≢ byte "/" ∷ rest) (λ rest. text.now ≡ byte "/" ∷ rest.now) }
{
    text.strip_prefix('/')
}

// The parts of the text between its `/`s.
fn parts_of(alloc: Global, text: &str) -> Result<Vec<&str>, AllocError>
    ensures { IfOk result (λ parts. map (λ part. part.now) parts.items ≡ slice_split (λ c. c == byte "/") text.now) }
{
    text.split('/').collect(alloc)
}

// The parts, each of which must be a name.
fn names_of(alloc: Global, parts: &[&str]) -> Result<Vec<Text>, PathError>
    ensures names { IfOk result (λ names. names.items ≡ map (λ part. part.now) parts.now) }
    ensures named { IfOk result (λ names. IsPath names.items) }
    ensures not_a_path { IsErrOf result NotAPath → ¬ IsPath (map (λ part. part.now) parts.now) }
{
    let mut names = Vec::new(alloc);
    for part in parts {
        if !is_name(part) {
            return Err(PathError::NotAPath);
        }
        names.push(Text::of(alloc, part)?)?;
    }
    Ok(names)
}

// A copy of the names, with room for some more.
fn copy_with_room(alloc: Global, names: &[Text], more: usize) -> Result<Vec<Text>, AllocError>
    ensures { IfOk result (λ copy. copy.items ≡ names.now) }
{
    let mut copy = Vec::with_capacity(alloc, names.len().saturating_add(more))?;
    for name in names {
        copy.push(name.clone()?)?;
    }
    Ok(copy)
}

// The name, where it is the only one.
fn sole(names: &[Text]) -> Option<&Text>
    ensures name { option_copied result ≡ sole names.now }
    ensures named { IsPath names.now → IfSome result (λ name. IsTrue (is_name name.now)) }
{
    match names {
        [name] => Some(name),
        _ => None,
    }
}

impl Path {
    /// The path of the root directory.
    pub fn root(alloc: Global) -> Path
        ensures { result ≡ [] }
    {
        Path {
            names: Vec::new(alloc),
        }
    }

    /// The path with this text: `/` is the root's, any other is a run of `/` and a name.
    pub fn parse(alloc: Global, text: &str) -> Result<Path, PathError>
        ensures path { IfOk result (λ path. IsPath path × (path_text path ≡ text.now)) }
        ensures not_a_path { IsErrOf result NotAPath → (path : List (List ℕ)) → IsPath path → path_text path ≢ text.now }
    {
        if text == "/" {
            return Ok(Path::root(alloc));
        }
        match after_slash(text) {
            Some(rest) => {
                let parts = parts_of(alloc, rest)?;
                Ok(Path {
                    names: names_of(alloc, &parts)?,
                })
            }
            None => Err(PathError::NotAPath),
        }
    }

    /// The text of the path: `/` for the root, else a `/` and the name for each name.
    pub fn text(&self, alloc: Global) -> Result<Text, AllocError>
        ensures { IfOk result (λ text. text ≡ path_text self.now) }
    {
        if self.names.is_empty() {
            return Text::of(alloc, "/");
        }
        let mut text = Text::with_room(alloc, USUAL_LENGTH)?;
        for name in &self.names {
            text.push_str("/")?;
            text.push_str(name.as_str())?;
        }
        Ok(text)
    }

    /// The path of the entry with this name in this directory.
    pub fn child(&self, alloc: Global, name: &str) -> Result<Path, AllocError>
        requires { IsTrue (is_name name.now) }
        ensures { IfOk result (λ made. made ≡ child self.now name.now) }
    {
        let mut names = copy_with_room(alloc, &self.names, 1)?;
        names.push(Text::of(alloc, name)?)?;
        Ok(Path { names })
    }

    /// The path two names below this directory.
    pub fn descend(&self, alloc: Global, name: &Text, next: &Text) -> Result<Path, AllocError>
        requires first { IsTrue (is_name name.now) }
        requires second { IsTrue (is_name next.now) }
        ensures { IfOk result (λ made. made ≡ self.now ++ name.now ∷ next.now ∷ []) }
    {
        self.child(alloc, name.as_str())?
            .child(alloc, next.as_str())
    }

    /// The path with these names below this directory.
    pub fn join(&self, alloc: Global, names: &[Text]) -> Result<Path, AllocError>
        requires { IsPath names.now }
        ensures { IfOk result (λ made. made ≡ self.now ++ names.now) }
    {
        let mut all = copy_with_room(alloc, &self.names, names.len())?;
        for name in names {
            all.push(name.clone()?)?;
        }
        Ok(Path { names: all })
    }

    /// The path of the directory that the path stands in; the root's is the root.
    pub fn parent(&self) -> Result<Path, AllocError>
        ensures { IfOk result (λ made. made ≡ parent self.now) }
    {
        let mut made = self.clone()?;
        made.names.pop();
        Ok(made)
    }

    /// The name of the directory's entry that the path is the path of, if it is one's.
    pub fn name_in(&self, directory: &Path) -> Option<&Text>
        ensures name { option_copied result ≡ name_in directory.now self.now }
        ensures named { IfSome result (λ name. IsTrue (is_name name.now)) }
    {
        match self.below(directory) {
            Some(names) => sole(names),
            None => None,
        }
    }

    /// The names from the root.
    pub fn names(&self) -> &[Text]
        ensures all { result.now ≡ self.now }
        ensures named { IsPath self.now }
    {
        &self.names
    }

    /// Whether the path is the other or lies below it.
    pub fn is_under(&self, other: &Path) -> bool
        ensures { result ≡ is_under self.now other.now }
    {
        self.names.starts_with(&other.names)
    }

    /// The names behind the directory's, where the path is the directory or lies below it.
    pub fn below(&self, directory: &Path) -> Option<&[Text]>
        ensures names { MatchOption result (is_under self.now directory.now ≡ false)
            (λ names. (is_under self.now directory.now ≡ true) × (names.now ≡ drop (length directory.now) self.now)) }
        ensures named { IfSome result (λ names. IsPath names.now) }
    {
        if self.is_under(directory) {
            Some(&self.names[directory.names.len()..])
        } else {
            None
        }
    }
}

impl Clone for Path {
    ghost is_clone = { λ path made. made ≡ path };

    fn clone(&self) -> Result<Self, AllocError> {
        Ok(Path {
            names: self.names.clone()?,
        })
    }
}

impl fmt::Display for Path {
    ghost output = { λ path. Some (path_text path) };

    fn fmt<W: fmt::Write>(&self, f: &mut fmt::Formatter<W>) -> fmt::Result {
        if self.names.is_empty() {
            return f.write_str("/");
        }
        for name in &self.names {
            write!(f, "/{name}")?;
        }
        Ok(())
    }
}

impl PartialEq for Path {
    ghost eq = { pointwise (pointwise nat_eq) };

    ghost laws = { laws_of.partial_equiv_from_equiv (lists_equiv nat_list_eq_equiv) };

    fn eq(&self, other: &Self) -> bool {
        self.names == other.names
    }
}

impl Eq for Path {
    ghost laws = { lists_equiv nat_list_eq_equiv };
}

impl PartialOrd for Path {
    ghost partial_cmp = { λ a b. Some (path_cmp a b) };

    ghost laws = { laws_of.po (lists_total nat_list_cmp_total) (lists_ties _ texts_ties) };

    fn partial_cmp(&self, other: &Self) -> Option<Ordering> {
        Some(self.cmp(other))
    }
}

impl Ord for Path {
    ghost cmp = { path_cmp };

    ghost total = { lists_total nat_list_cmp_total };

    ghost matches_partial_cmp = { λ a b. refl };

    ghost matches_eq = { λ a b. lists_ties _ texts_ties a b };

    fn cmp(&self, other: &Self) -> Ordering {
        self.names.cmp(&other.names)
    }
}

/// A law: paths with one text are one path. So what is written as a text and parsed again is the same.
pub fn text_tells_path()
    ensures { (a b : List (List ℕ)) → IsPath a → IsPath b → path_text a ≡ path_text b → a ≡ b }
{}
