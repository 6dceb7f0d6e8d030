//! Puts lists of modules in order, those on standard input.
//!
//! Each line has a module's name and the names of its dependencies, with a space between each two. An empty line ends a
//! list. Each list is printed in its order, a name a line with ` (cyclic)` behind those so marked, and an empty line
//! stands between two lists. A line that isn't such names, and one whose name stands before it in its list, is an error
//! that tells the number of the line.
#![tactic(auto)]

ghost use Rattle.kb_auto.specs.Order.{NamesDiffer};

use anyhow::{Result, bail};
use kb_auto::{Listed, first_doubled, order};
use kb_world::{Sequence, Text, Texts, is_word};
use std::alloc::{AllocError, Global};
use std::io::{self, BufRead, BufReader, BufWriter, Write};

// The names of a text with a space between each two; none where a part isn't a name.
fn read_names(alloc: Global, text: &str) -> Result<Option<Texts>, AllocError> {
    let mut names = Sequence::new(alloc);
    for part in text.split(' ') {
        if !is_word(part) {
            return Ok(None);
        }
        names.push(Text::of(alloc, part)?)?;
    }
    Ok(Some(names))
}

// The module of a line, if it is one's.
fn read_module(alloc: Global, line: &str) -> Result<Option<Listed>, AllocError> {
    let (name, depends) = match line.split_once(' ') {
        Some((name, rest)) => (name, read_names(alloc, rest)?),
        None => (line, Some(Sequence::new(alloc))),
    };
    match depends {
        Some(depends) if is_word(name) => Ok(Some(Listed {
            name: Text::of(alloc, name)?,
            depends,
        })),
        _ => Ok(None),
    }
}

// The lists of standard input, each with the number of its first line.
fn read_lists(rt: &HostRuntime) -> Result<Vec<(u64, Vec<Listed>)>> {
    let alloc = rt.alloc();
    let mut lists = Vec::new(alloc);
    let mut list = Vec::new(alloc);
    let mut first = 1_u64;
    let mut number = 0_u64;
    for line in BufReader::new(alloc, rt.reader())?.lines(alloc) {
        let line = line?;
        number = number.saturating_add(1);
        if line.is_empty() {
            lists.push((first, list))?;
            list = Vec::new(alloc);
            first = number.saturating_add(1);
            continue;
        }
        match read_module(alloc, &line)? {
            Some(module) => list.push(module)?,
            None => bail!("line {number} isn't names with a space between each two"),
        }
    }
    lists.push((first, list))?;
    Ok(lists)
}

fn print_list<W: Write>(alloc: Global, out: &mut W, list: &[Listed]) -> Result<()>
    requires { NamesDiffer list.now }
{
    for module in &order(alloc, list)? {
        let mark = if module.cyclic { " (cyclic)" } else { "" };
        writeln!(out, "{}{mark}", module.name)?;
    }
    Ok(())
}

fn main(rt: HostRuntime) -> Result<()> {
    let lists = read_lists(&rt)?;
    let mut out = BufWriter::new(rt.alloc(), io::writer(&rt))?;
    let mut separator = "";
    for (first, list) in &lists {
        out.write_all(separator.as_bytes())?;
        separator = "\n";
        match first_doubled(rt.alloc(), list)? {
            None => print_list(rt.alloc(), &mut out, list)?,
            Some(place) => bail!(
                "line {}: its name stands before it",
                first.saturating_add(place as u64)
            ),
        }
    }
    out.flush()?;
    Ok(())
}
