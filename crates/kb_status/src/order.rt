// The order of the lines.
ghost use Rattle.std.specs.Prelude.{◌≡◌, IfOk};
ghost use Rattle.std.specs.Option.{option_cmp};
ghost use Rattle.std.specs.List.Sorted.{IsPermutation, IsSorted, IsStable};
ghost use Rattle.kb_status.specs.Order as rule;

use crate::line::Line;
use kb_version::version_cmp;
use kb_world::{Key, Spot};
use std::alloc::{AllocError, Global};
use std::cmp::Ordering;

fn key_cmp(a: &Key, b: &Key) -> Ordering
    ensures { result ≡ rule.key_order a.now b.now }
{
    a.module
        .cmp(&b.module)
        .then_with(|| version_cmp(a.version.as_str(), b.version.as_str()))
}

fn spot_cmp(a: &Spot, b: &Spot) -> Ordering
    ensures { result ≡ rule.spot_order a.now b.now }
{
    version_cmp(a.kernel.as_str(), b.kernel.as_str()).then_with(|| a.arch.cmp(&b.arch))
}

// No spot stands first.
fn optional_spot_cmp(a: &Option<Spot>, b: &Option<Spot>) -> Ordering
    ensures { result ≡ option_cmp rule.spot_order a.now b.now }
{
    match (a, b) {
        (Some(a), Some(b)) => spot_cmp(a, b),
        (None, Some(_)) => Ordering::Less,
        (Some(_), None) => Ordering::Greater,
        (None, None) => Ordering::Equal,
    }
}

fn line_cmp(a: &Line, b: &Line) -> Ordering
    ensures { result ≡ rule.line_order a.now b.now }
{
    key_cmp(&a.key, &b.key).then_with(|| optional_spot_cmp(&a.spot, &b.spot))
}

/// The lines in their order.
pub fn sort_lines(alloc: Global, mut lines: Vec<Line>) -> Result<Vec<Line>, AllocError>
    ensures each_once { IfOk result (λ sorted. IsPermutation lines.items sorted.items) }
    ensures sorted { IfOk result (λ sorted. IsSorted rule.line_order sorted.items) }
    ensures stable { IfOk result (λ sorted. IsStable rule.line_order lines.items sorted.items) }
{
    lines.as_mut_slice().sort_by(alloc, line_cmp)?;
    Ok(lines)
}
