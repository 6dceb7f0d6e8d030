//! What the definition says of every list.
ghost use Rattle.std.specs.Prelude.{◌≡◌, ◌≢◌, ◌<◌, ℕ, List, [], length, take, true, false, slice_index_or};
ghost use Rattle.kb_auto.specs.declared.Listed.{Listed};
ghost use Rattle.kb_auto.specs.Order.{NamesDiffer, modules_in_order, is_open, is_placed};
ghost use Rattle.kb_auto.specs.Queue.{module_at};
ghost use Rattle.kb_auto.specs.Laws.{HasNoRing, placed_at};

/// The order has each name of the list, no other one, and none twice.
pub fn each_module_is_placed_once()
    ensures all { (list : List Listed) (k : ℕ) → k < length list → is_placed (modules_in_order list) (module_at list k).name ≡ true }
    ensures listed { (list : List Listed) (i : ℕ) → i < length (modules_in_order list) → (k : ℕ) × ((k < length list) × ((placed_at (modules_in_order list) i).name ≡ (module_at list k).name)) }
    ensures once { (list : List Listed) (i j : ℕ) → i < j → j < length (modules_in_order list) → (placed_at (modules_in_order list) i).name ≢ (placed_at (modules_in_order list) j).name }
{}

/// A module that isn't cyclic stands behind all its dependencies but itself: where it is placed, it
/// waits for none of them.
pub fn modules_stand_behind_their_dependencies()
    ensures { (list : List Listed) (i k j : ℕ) → NamesDiffer list → i < length (modules_in_order list) → k < length list → (placed_at (modules_in_order list) i).name ≡ (module_at list k).name → (placed_at (modules_in_order list) i).cyclic ≡ false → j < length (module_at list k).depends → is_open list (take i (modules_in_order list)) (module_at list k) (slice_index_or (module_at list k).depends j []) ≡ false }
{}

/// Where no dependency leads back to its start, no module is cyclic.
pub fn none_is_cyclic_without_a_ring()
    ensures { (list : List Listed) → HasNoRing list → (i : ℕ) → i < length (modules_in_order list) → (placed_at (modules_in_order list) i).cyclic ≡ false }
{}
