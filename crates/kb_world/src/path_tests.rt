// Tests of a path alone: whether it is private, and whether it is an index file. They take no memory.
ghost use Rattle.std.specs.Prelude.{◌≡◌, ◌&&◌, ◌||◌, ◌∷◌, [], bytes_eq, codes};
ghost use Rattle.std.specs.List.{list_any};
ghost use Rattle.kb_world.specs.Names as rule;
ghost use Rattle.kb_world.specs.Path.{child, is_under};
ghost use Rattle.kb_world.specs.Public as public;
ghost use Rattle.kb_world.specs.StorePath.{told_by, store_path, is_in_scratch};
ghost use Rattle.kb_world.specs.View as view;

use crate::names::{is_kernel, is_version, is_word};
use crate::path::Path;
use crate::roots::Roots;
use crate::text::Text;

// Whether the path is that of the directory's entry of this name, or lies below it.
fn is_under_entry(path: &Path, directory: &Path, name: &str) -> bool
    ensures { result ≡ is_under path.now (child directory.now name.now) }
{
    match path.below(directory) {
        Some(names) => match names.first() {
            Some(entry) => name == entry.as_str(),
            None => false,
        },
        None => false,
    }
}

// Whether they are the names of a version's scratch tree.
fn are_scratch(module: &Text, version: &Text, name: &Text) -> bool
    ensures { result ≡ (rule.is_word «module».now && rule.is_version version.now && bytes_eq name.now (codes "build")) }
{
    is_word(module.as_str()) && is_version(version.as_str()) && name.as_str() == "build"
}

fn is_scratch(names: &[Text]) -> bool
    ensures { result ≡ is_in_scratch (told_by names.now) }
{
    match names {
        [module, version, name, ..] => are_scratch(module, version, name),
        _ => false,
    }
}

// A name that is private directly in the dkms root: that of the journal, of the next one, or of what is staged.
fn is_private_dkms_name(name: &str) -> bool
    ensures { result ≡ list_any (λ own. bytes_eq own name.now) public.private_dkms_names }
{
    matches!(name, ".intent" | ".intent.new" | ".kb-staged")
}

fn is_private_boot_name(name: &str) -> bool
    ensures { result ≡ list_any (λ own. bytes_eq own name.now) public.private_boot_names }
{
    matches!(name, ".kb-staged" | ".kb-plugins")
}

fn are_in_dkms_place(names: &[Text]) -> bool
    ensures { result ≡ list_any (λ own. is_under names.now (own ∷ [])) public.private_dkms_names }
{
    match names {
        [name, ..] => is_private_dkms_name(name.as_str()),
        _ => false,
    }
}

fn are_in_boot_place(names: &[Text]) -> bool
    ensures { result ≡ list_any (λ own. is_under names.now (own ∷ [])) public.private_boot_names }
{
    match names {
        [name, ..] => is_private_boot_name(name.as_str()),
        _ => false,
    }
}

// Whether the path is the tool's own in the dkms root. The path is compared with that root once.
fn is_private_in_dkms(roots: &Roots, path: &Path) -> bool
    ensures { result ≡ (list_any (λ own. is_under path.now (child roots.now.dkms own)) public.private_dkms_names || is_in_scratch (store_path roots.now path.now)) }
{
    match path.below(&roots.dkms) {
        Some(names) => {
            let place = are_in_dkms_place(names);
            let scratch = is_scratch(names);
            place | scratch
        }
        None => false,
    }
}

fn is_private_in_boot(roots: &Roots, path: &Path) -> bool
    ensures { result ≡ list_any (λ own. is_under path.now (child roots.now.boot own)) public.private_boot_names }
{
    match path.below(&roots.boot) {
        Some(names) => are_in_boot_place(names),
        None => false,
    }
}

/// Whether the path is the tool's own: the journal, what is staged, a scratch tree, and what is in them.
pub fn is_private(roots: &Roots, path: &Path) -> bool
    ensures { result ≡ public.is_private roots.now path.now }
{
    let dkms = is_private_in_dkms(roots, path);
    let src = is_under_entry(path, &roots.src, ".kb-staged");
    let modules = is_under_entry(path, &roots.modules, ".kb-staged");
    let boot = is_private_in_boot(roots, path);
    dkms | src | modules | boot
}

fn is_index_name(name: &str) -> bool
    ensures { result ≡ list_any (bytes_eq name.now) view.index_names }
{
    matches!(
        name,
        "modules.dep"
            | "modules.dep.bin"
            | "modules.alias"
            | "modules.alias.bin"
            | "modules.symbols"
            | "modules.symbols.bin"
            | "modules.builtin.bin"
            | "modules.builtin.alias.bin"
            | "modules.devname"
            | "modules.softdep"
            | "modules.weakdep"
    )
}

fn is_index_of_kernel(names: &[Text]) -> bool
    ensures { result ≡ view.is_index_of_kernel names.now }
{
    match names {
        [kernel, name] => is_kernel(kernel.as_str()) && is_index_name(name.as_str()),
        _ => false,
    }
}

/// Whether the path is that of an index file, which depmod makes: one of eleven names in a kernel's directory of
/// modules.
pub fn is_index(roots: &Roots, path: &Path) -> bool
    ensures { result ≡ view.is_index roots.now path.now }
{
    match path.below(&roots.modules) {
        Some(names) => is_index_of_kernel(names),
        None => false,
    }
}
