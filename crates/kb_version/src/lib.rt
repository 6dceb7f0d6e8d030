//! The order of versions: of modules, of kernels and of boot entries.
//!
//! It follows the UAPI version format, the one that systemd's `compare-versions` and the boot
//! loader specification use, with a last comparison by bytes, so that only equal texts are equal.
#![tactic(auto)]

ghost use Rattle.std.specs.Prelude.{◌≡◌, ℕ, ◌≤◌, ◌↔◌, List, length};
ghost use Rattle.std.specs.Cmp.{IsTotalOrder};
ghost use Rattle.std.specs.Ordering.{ordering_reverse};
ghost use Rattle.std.proofs.lemmas.Map.Lookups.{CmpEqualImpliesEq};
ghost use Rattle.kb_version.specs.Order.{version_order, items_order};

mod piece;

use piece::{Piece, next_piece, piece_cmp};
use std::cmp::Ordering;

/// Compares two versions.
///
/// A version is cut into items: a run of ASCII letters, a run of digits, and each `~`, `-`, `^`
/// and `.`; every other character is skipped and ends an item. The lists of items are compared
/// from the left at the first place where they differ, by
/// `~` < end of the text < `-` < `^` < `.` < letters < digits. Runs of letters go by bytes, runs
/// of digits as numbers of any length. Where all items are equal, the texts go by bytes.
///
/// It takes no memory and has no refusal.
pub fn version_cmp(a: &str, b: &str) -> Ordering
    ensures order { result ≡ version_order a.now b.now }
    ensures equal { (result ≡ Ordering.Equal) ↔ (a.now ≡ b.now) }
{
    items_cmp(a.as_bytes(), b.as_bytes()).then_with(|| a.cmp(b))
}

/// Compares two texts item by item.
fn items_cmp(a: &[u8], b: &[u8]) -> Ordering
    ensures { result ≡ items_order a.now b.now }
{
    let (mut left, mut right) = behind_shared(a, b);
    'items: loop {
        let (x, left_rest) = next_piece(left);
        let (y, right_rest) = next_piece(right);
        let order = piece_cmp(x, y);
        if order != Ordering::Equal || x.is_end() {
            return order;
        }
        // Only behind a sign: no stretch without one is gone over anew for each of its runs.
        (left, right) = match x {
            Piece::Letters(_) | Piece::Digits(_) => (left_rest, right_rest),
            _ => behind_shared(left_rest, right_rest),
        };
    }
}

/// What is left of two texts that begin alike, behind the last shared byte that is neither a letter
/// nor a digit. There an item ends in both, so the rest decides.
fn behind_shared<'a, 'b>(a: &'a [u8], b: &'b [u8]) -> (&'a [u8], &'b [u8])
    ensures same { items_order result.0.now result.1.now ≡ items_order a.now b.now }
    ensures shorter { length result.0.now ≤ length a.now }
{
    let (mut left, mut right) = (a, b);
    let (mut left_rest, mut right_rest) = (a, b);
    while let [x, left_tail @ ..] = left_rest {
        match right_rest {
            [y, right_tail @ ..] if x == y => {
                left_rest = left_tail;
                right_rest = right_tail;
            }
            _ => break,
        }
        if !x.is_ascii_alphanumeric() {
            left = left_rest;
            right = right_rest;
        }
    }
    (left, right)
}

/// The laws of the order, for those who sort by it or keep a map under it. It does nothing: a
/// caller's proof takes the laws from the call.
pub fn version_order_laws()
    ensures swapped { (a b : List ℕ) → version_order b a ≡ ordering_reverse (version_order a b) }
    ensures transitive { (a b c : List ℕ) →
        version_order a b ≡ Ordering.Less → version_order b c ≡ Ordering.Less → version_order a c ≡ Ordering.Less }

    // What a sort and a finite map ask of an order.
    ensures total { IsTotalOrder version_order }
    ensures exact { CmpEqualImpliesEq version_order }
{}
