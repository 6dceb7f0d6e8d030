//! The assignments of a text, in order, and the last one of each name and number.
ghost use Rattle.std.specs.Prelude.{◌≡◌, IfOk, ◌++◌, ◌∷◌, [], map, option_map};
ghost use Rattle.std.specs.Option.{option_to_list};
ghost use Rattle.kb_conf.specs.Assignment.{last_value};
ghost use Rattle.kb_conf.specs.Table.{view_assignment};
ghost use Rattle.kb_conf.specs.Views.{rest_view};

use indexmap::IndexMap;
use std::alloc::{AllocError, Global};
use std::marker::Model;

/// One assignment: its name as the text has it, its number, and what its value gives.
#[derive(Debug, Drop)]
pub struct Assignment<'a> {
    pub name: &'a [u8],
    pub number: u8,
    pub value: Vec<u8>,
}

/// The assignments of a text, in order.
#[derive(Drop)]
pub struct Table<'a> {
    list: Vec<Assignment<'a>>,
    // the place in the list of the last assignment of each name and number
    last: IndexMap<(&'a [u8], u8), usize>,
}

impl<'a> Model for Table<'a> {
    ghost use Rattle.std.specs.Prelude.{◌≡◌, ℕ, List, map};
    ghost use Rattle.kb_conf.specs.Assignment.{Assignment, last_value};
    ghost use Rattle.kb_conf.specs.Table.{view_assignment, PointsAtLast};

    ghost Value = { List Assignment };

    ghost view = { λ t. map view_assignment t.list.items };

    ghost invariant = { λ t. PointsAtLast t.list.items t.last };
}

impl<'a> Table<'a> {
    pub fn new(alloc: Global) -> Self
        ensures { result ≡ [] }
    {
        Table {
            list: Vec::new(alloc),
            last: IndexMap::new(alloc),
        }
    }

    /// The assignments, in order.
    pub fn assignments(&self) -> &[Assignment<'a>]
        ensures { map view_assignment result.now ≡ self.now }
    {
        self.list.as_slice()
    }

    /// The value of the last assignment of this name and number.
    pub fn value(&self, name: &[u8], number: u8) -> Option<&[u8]>
        ensures { rest_view result ≡ last_value self.now name.now number }
    {
        let index = *self.last.get(&(name, number))?;
        Some(self.list[index].value.as_slice())
    }

    /// Adds an assignment behind the others.
    pub fn with(mut self, assignment: Assignment<'a>) -> Result<Self, AllocError>
        ensures { IfOk result (λ t. t ≡ self.entry ++ view_assignment assignment.entry ∷ []) }
    {
        let key = (assignment.name, assignment.number);
        let index = self.list.len();
        self.list.push(assignment)?;
        self.last.insert(key, index)?;
        Ok(self)
    }

    /// Adds the assignment, if there is one.
    pub fn with_any(self, assignment: Option<Assignment<'a>>) -> Result<Self, AllocError>
        ensures { IfOk result (λ t.
            t ≡ self.entry ++ option_to_list (option_map view_assignment assignment.entry)) }
    {
        match assignment {
            Some(assignment) => self.with(assignment),
            None => Ok(self),
        }
    }
}
