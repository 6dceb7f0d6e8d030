// The order of entries in a boot menu.
ghost use Rattle.std.specs.Prelude.{◌≡◌, IfOk, option_map};
ghost use Rattle.std.specs.Cmp.{IsTotalOrder};
ghost use Rattle.std.specs.List.Sorted.{IsPermutation, IsSorted, IsStable};
ghost use Rattle.kb_bls.specs.Names.{is_out_of_tries};
ghost use Rattle.kb_bls.specs.Order as spec;

use crate::entry::Entry;
use crate::name::{Counter, read_entry_name};
use kb_version::version_cmp;
use kb_world::Text;
use std::alloc::{AllocError, Global};
use std::cmp::Ordering;

/// An entry with the name of its file.
#[derive(Debug, Drop)]
pub struct Named {
    pub name: Text,
    pub entry: Entry,
}

// The base of a file's name, and whether no try is left to it. A name that isn't an entry's is its
// own base.
fn base_of(name: &str) -> (&str, bool)
    ensures base { result.0.now ≡ (spec.read_as name.now).0 }
    ensures bad { result.1 ≡ is_out_of_tries (spec.read_as name.now).1 }
{
    match read_entry_name(name) {
        Some((base, Counter::Left { left, .. })) => (base, left == 0),
        Some((base, Counter::Good)) => (base, false),
        None => (name, false),
    }
}

// The newer version first, and none last.
fn newest_first(a: &Option<Text>, b: &Option<Text>) -> Ordering
    ensures { result ≡ spec.none_last spec.newest_first a.now b.now }
{
    match (a, b) {
        (Some(x), Some(y)) => version_cmp(y.as_str(), x.as_str()),
        (Some(_), None) => Ordering::Less,
        (None, Some(_)) => Ordering::Greater,
        (None, None) => Ordering::Equal,
    }
}

fn sort_key_cmp(a: &Entry, b: &Entry) -> Ordering
    ensures { result ≡ spec.none_last spec.sort_fields_order (spec.sort_fields a.now) (spec.sort_fields b.now) }
{
    match (&a.sort_key, &b.sort_key) {
        (Some(x), Some(y)) => x
            .cmp(y)
            .then_with(|| a.machine_id.cmp(&b.machine_id))
            .then_with(|| newest_first(&a.version, &b.version)),
        (Some(_), None) => Ordering::Less,
        (None, Some(_)) => Ordering::Greater,
        (None, None) => Ordering::Equal,
    }
}

fn entry_cmp(a: &Named, b: &Named) -> Ordering
    ensures { result ≡ spec.entry_order a.now b.now }
{
    let (a_base, a_bad) = base_of(a.name.as_str());
    let (b_base, b_bad) = base_of(b.name.as_str());
    a_bad
        .cmp(&b_bad)
        .then_with(|| sort_key_cmp(&a.entry, &b.entry))
        .then_with(|| version_cmp(b_base, a_base))
        .then_with(|| a.name.cmp(&b.name))
}

/// The entries in the order of a boot menu: those without a try left last, those with a sort key
/// before those without, the newest first. Entries that no rule tells apart keep their order.
pub fn sort_entries(alloc: Global, mut list: Vec<Named>) -> Result<Vec<Named>, AllocError>
    ensures each_once { IfOk result (λ sorted. IsPermutation list.items sorted.items) }
    ensures sorted { IfOk result (λ sorted. IsSorted spec.entry_order sorted.items) }
    ensures stable { IfOk result (λ sorted. IsStable spec.entry_order list.items sorted.items) }
    ensures total { IsTotalOrder spec.entry_order }
{
    list.as_mut_slice().sort_by(alloc, entry_cmp)?;
    Ok(list)
}
