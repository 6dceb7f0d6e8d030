// Which modules wait for which.
ghost use Rattle.std.specs.Prelude.{◌≡◌, ◌<◌, ◌≤◌, ◌+◌, ℕ, [], IfOk, OnOk, length, vec_len, slice_index, slice_index_or};
ghost use Rattle.kb_auto.specs.Order.{NamesDiffer, waits_for};
ghost use Rattle.kb_auto.specs.Queue.{AreLinked, ArePlaces, LinksMore, row_at, module_at};

use crate::Listed;
use kb_world::Text;
use std::alloc::{AllocError, Global};
use std::collections::BTreeMap;

/// For each module how many dependencies it waits for, and the places of those that wait for it,
/// once for each time that they list it.
#[derive(Drop)]
pub(crate) struct Web {
    pub waits: Vec<usize>,
    pub rows: Vec<Vec<usize>>,
}

/// The place of each name in the list.
pub(crate) fn places_of(alloc: Global, list: &[Listed]) -> Result<BTreeMap<Text, usize>, AllocError>
    requires { NamesDiffer list.now }
    ensures { IfOk result (ArePlaces list.now (length list.now)) }
{
    let mut places = BTreeMap::new(alloc);
    for (place, module) in list.iter().enumerate() {
        places.insert(module.name.clone()?, place)?;
    }
    Ok(places)
}

fn no_rows(alloc: Global, count: usize) -> Result<Vec<Vec<usize>>, AllocError>
    ensures len { IfOk result (λ rows. vec_len rows ≡ count) }
    ensures empty { IfOk result (λ rows. (k : ℕ) → k < count → row_at rows k ≡ []) }
{
    let mut rows = Vec::new(alloc);
    for _ in 0..count {
        rows.push(Vec::new(alloc))?;
    }
    Ok(rows)
}

// Notes the module in the rows of those that it waits for, and counts them.
fn link(
    rows: &mut Vec<Vec<usize>>,
    places: &BTreeMap<Text, usize>,
    list: &[Listed],
    place: usize,
) -> Result<usize, AllocError>
    requires within { place < length list.now }
    requires places { ArePlaces list.now (length list.now) places.now }
    requires rows { vec_len rows.old ≡ length list.now }
    ensures len { OnOk result (vec_len rows.new ≡ length list.now) }
    ensures count { IfOk result (λ count. count ≡ waits_for list.now [] (module_at list.now place)) }
    ensures linked { OnOk result (LinksMore list.now place rows.old rows.new) }
{
    let module = &list[place];
    let mut count = 0;
    for name in module.depends.as_slice() {
        if *name == module.name {
            continue;
        }
        if let Some(other) = places.get(name) {
            rows[*other].push(place)?;
            count += 1;
        }
    }
    Ok(count)
}

/// Which modules of the list wait for which.
pub(crate) fn web_of(
    alloc: Global,
    list: &[Listed],
    places: &BTreeMap<Text, usize>,
) -> Result<Web, AllocError>
    requires { ArePlaces list.now (length list.now) places.now }
    ensures open_len { IfOk result (λ web. vec_len web.waits ≡ length list.now) }
    ensures rows_len { IfOk result (λ web. vec_len web.rows ≡ length list.now) }
    ensures waits { IfOk result (λ web. (k : ℕ) → k < length list.now → slice_index web.waits.items k ≡ waits_for list.now [] (module_at list.now k)) }
    ensures linked { IfOk result (λ web. AreLinked list.now (length list.now) web.rows) }
{
    let mut rows = no_rows(alloc, list.len())?;
    let mut waits = Vec::new(alloc);
    for place in 0..list.len() {
        waits.push(link(&mut rows, places, list, place)?)?;
    }
    Ok(Web { waits, rows })
}
