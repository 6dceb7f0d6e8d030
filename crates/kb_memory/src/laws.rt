// Laws of what halted calls and crashes leave: each is the contract of a function that does nothing, so that its proof is
// asked for.
ghost use Rattle.std.specs.Prelude.{◌≡◌, ◌+◌, ◌*◌, ◌<◌, ◌≤◌, ◌^◌, ◌-◌, ℕ, Bool, true, List, length, take, Some};
ghost use Rattle.std.specs.List.{slice_get};
ghost use Rattle.kb_world.specs.Path.{Path};
ghost use Rattle.kb_world.specs.Script.{Script};
ghost use Rattle.kb_world.specs.Tree.{Tree, with_node, without};
ghost use Rattle.kb_world.specs.declared.child.Area.{Area};
ghost use Rattle.kb_world.specs.declared.child.Effect.{Effect};
ghost use Rattle.kb_world.specs.declared.child.Effect.TheVariants.{Write};
ghost use Rattle.kb_world.specs.declared.tree.Node.TheVariants.{File};
ghost use Rattle.kb_memory.specs.Calls.{CallPlan, fate_of, after_it, after_calls, halted, halted_put};
ghost use Rattle.kb_memory.specs.Lost.{effects_of, changed_path, copied_path, named_path, can_lose, lost};
ghost use Rattle.kb_memory.specs.declared.calls.Fate.TheVariants.{Fails, Halts};

/// Some choice leaves the tree before a halted call, and some the tree after it.
pub fn a_halted_call_leaves_either_tree()
    ensures before { (change : Tree → Tree) (tree : Tree) → halted change 0 tree ≡ tree }
    ensures after { (change : Tree → Tree) (tree : Tree) → halted change 1 tree ≡ change tree }
{}

/// Some choice leaves nothing at the path of a halted put, and some a file with each prefix of its bytes.
pub fn a_halted_put_leaves_each_prefix()
    ensures before { (path : Path) (bytes : List ℕ) (exec : Bool) (tree : Tree) → halted_put path bytes exec 0 tree ≡ tree }
    ensures prefix { (path : Path) (bytes : List ℕ) (exec : Bool) (tree : Tree) (count : ℕ) → count < 2 ^ 64 - 1 →
        (choice : ℕ) × (choice < 2 ^ 64) × (halted_put path bytes exec choice tree ≡ with_node path (File (take count bytes) exec) tree) }
{}

/// Behind a halted call each call fails.
pub fn no_call_passes_after_a_halt()
    ensures { (plan : CallPlan) (choice count : ℕ) → fate_of plan ≡ Halts choice → fate_of (after_calls count (after_it plan)) ≡ Fails }
{}

/// The paths that can be lost are those that an effect of the script names: the one that it changes, and the one that it
/// copies.
pub fn each_effect_names_its_paths()
    ensures changed { (script : Script) (i : ℕ) (effect : Effect) → slice_get (effects_of script) i ≡ Some effect → named_path script (2 * i) ≡ Some (changed_path effect) }
    ensures source { (script : Script) (i : ℕ) (effect : Effect) → slice_get (effects_of script) i ≡ Some effect → named_path script (2 * i + 1) ≡ Some (copied_path effect) }
{}

/// At each path that can be lost some choice leaves nothing, and for each write of the script some choice leaves a file of
/// its bytes.
pub fn each_named_path_can_be_lost()
    ensures nothing { (script : Script) (soft : List Area) (tree : Tree) (number : ℕ) (path : Path) → length (effects_of script) ≤ 2 ^ 31 →
        named_path script number ≡ Some path → can_lose soft tree path ≡ true → (choice : ℕ) × (choice < 2 ^ 64) × (lost script soft choice tree ≡ without path tree) }
    ensures file { (script : Script) (soft : List Area) (tree : Tree) (number : ℕ) (path : Path) → length (effects_of script) ≤ 2 ^ 31 →
        named_path script number ≡ Some path → can_lose soft tree path ≡ true →
        (i : ℕ) (to : Path) (bytes : List ℕ) (exec : Bool) → slice_get (effects_of script) i ≡ Some (Write to bytes exec) →
        (choice : ℕ) × (choice < 2 ^ 64) × (lost script soft choice tree ≡ with_node path (File bytes exec) tree) }
{}
