// The text of the status.
ghost use Rattle.std.specs.Prelude.{◌≡◌, ◌++◌, IfOk, OnOk, flat_map};
ghost use Rattle.kb_status.specs.Line.{full_line};
ghost use Rattle.kb_status.specs.Status.{IsStatus};

use crate::line::Line;
use crate::lines::status_lines;
use crate::order::sort_lines;
use kb_store::Store;
use kb_world::{Filter, Text};
use std::alloc::{AllocError, Global};

fn push_line(alloc: Global, text: &mut Text, line: &Line) -> Result<(), AllocError>
    ensures { OnOk result (text.new ≡ text.old ++ full_line line.now) }
{
    text.push_str(format!(in alloc; "{line}\n")?.as_str())
}

fn text_of(alloc: Global, lines: &[Line]) -> Result<Text, AllocError>
    ensures { IfOk result (λ text. text ≡ flat_map full_line lines.now) }
{
    let mut text = Text::of(alloc, "")?;
    for line in lines {
        push_line(alloc, &mut text, line)?;
    }
    Ok(text)
}

/// The text of `dkms status`: the lines that the filter wants of the store, in their order.
pub fn status_text(alloc: Global, store: &Store, filter: &Filter) -> Result<Text, AllocError>
    ensures { IfOk result (λ text. IsStatus store.now filter.now text) }
{
    let lines = sort_lines(alloc, status_lines(alloc, store, filter)?)?;
    text_of(alloc, &lines)
}
