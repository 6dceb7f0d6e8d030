// The layout.
ghost use Rattle.std.specs.Prelude.{◌≡◌, ◌≢◌, IfOk};
ghost use Rattle.std.specs.Option.{option_copied};
ghost use Rattle.kb_token.specs.Layout as rule;

use crate::lines::{first_line, lines_of};
use crate::variable::given_value;
use kb_world::Text;
use std::alloc::{AllocError, Global};

/// How the files of a kernel are laid out on the boot partition: as Type #1 entries, as a unified
/// image, or in a way that isn't this tool's. `Auto` says that it is still to be chosen.
#[derive(Clone, Copy, Debug, PartialEq, Eq)]
pub enum Layout {
    Bls,
    Uki,
    Other,
    Auto,
}

/// The layout of this name; an empty one is auto, and any other name than the four is other.
pub fn layout_named(name: &str) -> Layout
    ensures { result ≡ rule.layout_named name.now }
{
    match name {
        "bls" => Layout::Bls,
        "uki" => Layout::Uki,
        "auto" | "" => Layout::Auto,
        _ => Layout::Other,
    }
}

/// The name that the last line `layout=` of an install.conf gives, if there is one.
pub fn conf_layout(alloc: Global, text: &str) -> Result<Option<Text>, AllocError>
    ensures { IfOk result (λ name. name ≡ rule.conf_layout text.now) }
{
    given_value(alloc, "layout", &lines_of(alloc, text)?)
}

/// The layout to use, which is never `Auto`: what is asked for, or where that is `Auto`, `Bls`
/// where the first line of the text of `loader/entries.srel` is `type1`; without that file `Bls`
/// where the token's directory is there. `Other` in all other cases.
pub fn choose_layout(asked: &Layout, srel: Option<&str>, token_dir: bool) -> Layout
    ensures chosen { result ≡ rule.chosen_layout asked.now (option_copied srel.entry) token_dir }
    ensures settled { result ≢ Layout.Auto }
{
    match asked {
        Layout::Auto => match srel {
            Some(text) => {
                if first_line(text) == "type1" {
                    Layout::Bls
                } else {
                    Layout::Other
                }
            }
            None => {
                if token_dir {
                    Layout::Bls
                } else {
                    Layout::Other
                }
            }
        },
        settled => *settled,
    }
}
