//! The values of a good text, by name and number.
ghost use Rattle.std.specs.Prelude.{◌≡◌, IfOk, map};
ghost use Rattle.std.specs.Str.{IsUtf8};
ghost use Rattle.kb_conf.specs.Assignment.{Assignment};
ghost use Rattle.kb_conf.specs.Values.{is_given, value_of, numbers_of};

use super::table::Table;
use std::alloc::{AllocError, Global};
use std::marker::Model;
use std::str;

/// The assignments of a good text, whose names and values are UTF-8.
#[derive(Drop)]
pub struct Values<'a> {
    pub(crate) table: Table<'a>,
}

impl<'a> Model for Values<'a> {
    ghost use Rattle.std.specs.Prelude.{List};
    ghost use Rattle.std.specs.List.{AllByRecursion};
    ghost use Rattle.kb_conf.specs.Assignment.{Assignment};
    ghost use Rattle.kb_conf.specs.TextOf.{IsTextAssignment};

    ghost Value = { List Assignment };

    ghost view = { λ v. v.table };

    ghost invariant = { λ v. AllByRecursion IsTextAssignment v.table };
}

/// What is known to be UTF-8, as text.
fn text_of(bytes: &[u8]) -> &str
    requires { IsUtf8 bytes.now }
    ensures { result.now ≡ bytes.now }
{
    match str::from_utf8(bytes) {
        Ok(text) => text,
        // never: the bytes are UTF-8
        Err(_) => "",
    }
}

pub fn is_given(value: &str) -> bool
    ensures { result ≡ is_given value.now }
{
    !value.is_empty()
}

impl<'a> Values<'a> {
    /// The value of this name and number; an absent one is empty.
    pub fn value(&self, name: &str, number: u8) -> &str
        ensures { result.now ≡ value_of self.now name.now number }
    {
        match self.table.value(name.as_bytes(), number) {
            Some(bytes) => text_of(bytes),
            None => "",
        }
    }

    /// The numbers of a name that have a value, rising.
    pub fn numbers(&self, alloc: Global, name: &str) -> Result<Vec<u8>, AllocError>
        ensures { IfOk result (λ numbers. numbers.items ≡ numbers_of self.now name.now) }
    {
        let mut numbers = Vec::new(alloc);
        for number in 0..256u16 {
            if is_given(self.value(name, number as u8)) {
                numbers.push(number as u8)?;
            }
        }
        Ok(numbers)
    }

    /// The names of the assignments, in order.
    pub fn names(&self, alloc: Global) -> Result<Vec<&str>, AllocError>
        ensures { IfOk result (λ names. map (λ n. n.now) names.items ≡ map (λ (a : Assignment). a.name) self.now) }
    {
        let mut names = Vec::new(alloc);
        for assignment in self.table.assignments() {
            names.push(text_of(assignment.name))?;
        }
        Ok(names)
    }
}
