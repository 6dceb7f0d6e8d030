// The names of spots' links.
ghost use Rattle.std.specs.Prelude.{◌≡◌, ◌++◌, List, ℕ, Some, None, IfOk, MatchOption, codes};
ghost use Rattle.kb_world.specs.StorePath as rule;

use crate::job::Spot;
use crate::names::{is_arch, is_kernel};
use crate::text::Text;
use std::alloc::{AllocError, Global};

// What stands before and after the last dash.
fn cut_at_dash(text: &str) -> Option<(&str, &str)>
    ensures { MatchOption result (rule.cut_at_dash text.now ≡ None) (λ cut. rule.cut_at_dash text.now ≡ Some (cut.0.now, cut.1.now)) }
{
    text.rsplit_once('-')
}

// What stands behind the word that begins a link's name.
fn behind_kernel(name: &str) -> Option<&str>
    ensures { MatchOption result ((rest : List ℕ) → name.now ≡ codes "kernel-" ++ rest → ⊥) (λ rest. name.now ≡ codes "kernel-" ++ rest.now) }
{
    name.strip_prefix("kernel-")
}

// The spot of a kernel and an architecture that keep their rules.
pub(crate) fn spot_if(alloc: Global, kernel: &str, arch: &str) -> Result<Option<Spot>, AllocError>
    ensures { IfOk result (λ spot. spot ≡ rule.spot_if (kernel.now, arch.now)) }
{
    if is_kernel(kernel) && is_arch(arch) {
        Ok(Some(Spot {
            kernel: Text::of(alloc, kernel)?,
            arch: Text::of(alloc, arch)?,
        }))
    } else {
        Ok(None)
    }
}

/// The spot whose link has this name, `kernel-KERNEL-ARCH`, cut at the last dash; none for every other name.
pub(crate) fn spot_of_link(alloc: Global, name: &str) -> Result<Option<Spot>, AllocError>
    ensures { IfOk result (λ spot. spot ≡ rule.spot_of_link name.now) }
{
    match behind_kernel(name) {
        Some(rest) => match cut_at_dash(rest) {
            Some((kernel, arch)) => spot_if(alloc, kernel, arch),
            None => Ok(None),
        },
        None => Ok(None),
    }
}
