// The laws, each the contract of a function that does nothing.
ghost use Rattle.std.specs.Prelude.{◌≡◌, ◌⊎◌, ◌<◌, ◌+◌, [], ◌∷◌, ◌++◌, List, ℕ, length, drop, flat_map, get_or, false, true, Bool, Ok, Err, Result, Some, Option};
ghost use Rattle.std.specs.List.{list_all};
ghost use Rattle.std.specs.Option.{ForSome};
ghost use Rattle.kb_world.specs.Layout.{whole_tree};
ghost use Rattle.kb_machine.specs.Outcome.{Action, asks, print, reads, transaction, unless, warn, ◌then◌};
ghost use Rattle.kb_world.specs.Patch.{Patch};
ghost use Rattle.kb_world.specs.Path.{Path};
ghost use Rattle.kb_world.specs.Public.{IsNeverForeign, intent_path, public_tree, foreign_tree};
ghost use Rattle.kb_world.specs.Roots.{AreApart};
ghost use Rattle.kb_world.specs.Script.{Script};
ghost use Rattle.kb_world.specs.State.{State, HasCause, Lasts, Runs};
ghost use Rattle.kb_world.specs.Stop.{stop_for};
ghost use Rattle.kb_world.specs.Tree.{Tree, node_at, is_dir, IsFormed};
ghost use Rattle.kb_world.specs.View.{is_own};
ghost use Rattle.kb_world.specs.Read.{Decides, Gives};
ghost use Rattle.kb_machine.specs.Does.{Asks};
ghost use Rattle.kb_world.specs.declared.child.Area.TheVariants as areas;
ghost use Rattle.kb_world.specs.declared.child.Reply.{Reply};
ghost use Rattle.kb_world.specs.declared.child.Request.{Request};
ghost use Rattle.kb_world.specs.declared.job.Report.{Report};
ghost use Rattle.kb_world.specs.declared.job.Spot.{Spot};
ghost use Rattle.kb_world.specs.declared.refusal.Refusal.{Refusal};
ghost use Rattle.kb_world.specs.declared.roots.Roots.{Roots};
ghost use Rattle.kb_world.specs.declared.stop.Stop.{Stop};
ghost use Rattle.kb_world.specs.declared.stop.Stop.TheVariants.{Refused, Fault, NoMemory};
ghost use Rattle.kb_world.specs.declared.world.WorldError.{WorldError};
ghost use Rattle.kb_changes.specs.Change.{done};
ghost use Rattle.kb_changes.specs.Changes.{changes_of};
ghost use Rattle.kb_changes.specs.Fit.{IsFit};
ghost use Rattle.kb_changes.specs.Groups.{runs_in};
ghost use Rattle.kb_changes.specs.Valid.{is_initrd_name};
ghost use Rattle.kb_changes.specs.declared.change.Change.{Change};
ghost use Rattle.kb_changes.specs.declared.change.Change.TheVariants.{Run};
ghost use Rattle.kb_again.specs.Sparing.{AreSparing};
ghost use Rattle.kb_machine.specs.Across.{DoesAcrossCrashes, SaysSo};
ghost use Rattle.kb_machine.specs.Aside.{IsAsideArea, WorksAside};
ghost use Rattle.kb_machine.specs.Behind.{touched_by};
ghost use Rattle.kb_machine.specs.Child.{IsForeignArea, runs_child};
ghost use Rattle.kb_machine.specs.Commits.{Transacted, Commits, transacted};
ghost use Rattle.kb_machine.specs.Each.{each, gathers, when, Leads};
ghost use Rattle.kb_machine.specs.Stands.{Rests};
ghost use Rattle.kb_machine.specs.Works.{Work, works, Works};

/// A tree without a journal rests, with the store of its public tree, where no soft area reaches what is public.
pub fn a_tree_without_a_journal_rests()
    ensures { (roots : Roots) (state : State) (tree : Tree) → state.tree ≡ Some tree → node_at tree (intent_path roots) ≡ None
        → AreSparing roots [] state.history.soft → Rests roots (public_tree roots tree) state }
{}

/// One action after another.
pub fn actions_go_on()
    ensures { (roots : Roots) (first second : Action) (old mid new : State) (before between after : Report) (result : Result (Unit {0}) Stop)
        → DoesAcrossCrashes roots first {T = Unit {0}} old mid before between (Ok tt) → DoesAcrossCrashes roots second mid new between after result
        → DoesAcrossCrashes roots (first then second) old new before after result }
{}

/// A child that may change nothing is asked, and then an action goes on; where it stopped the action stops.
pub fn a_child_is_asked()
    ensures answered { (roots : Roots) (request : Request) (next : Reply → Action) (reply : Reply) (old mid new : State) (before after : Report) (result : Result (Unit {0}) Stop)
        → ((q : Path) → is_own request.area q ≡ false) → Asks request old mid (Ok reply) → DoesAcrossCrashes roots (next reply) mid new before after result
        → DoesAcrossCrashes roots (asks roots old.script request next) old new before after result }
    ensures stopped { (roots : Roots) (request : Request) (next : Reply → Action) (stop : Stop) (asked : Result Reply Stop) (old new : State) (before after : Report) (result : Result (Unit {0}) Stop)
        → asked ≡ Err stop → result ≡ Err stop → Asks request old new asked → DoesAcrossCrashes roots (asks roots old.script request next) old new before after result }
{}

/// A child is run that changes what is foreign alone, and then an action goes on; a fault of it, and want of memory, leave
/// the store standing. Initrds, by their names in the boot root, are an area for it.
pub fn a_child_changes_what_is_foreign()
    ensures goes_on { (roots : Roots) (request : Request) (next : Reply → Action) (reply : Reply) (old mid new : State) (before after : Report) (result : Result (Unit {0}) Stop)
        → IsForeignArea roots request.area → ((tree : Tree) → old.tree ≡ Some tree → IsFormed tree) → Runs request old mid (Ok reply)
        → DoesAcrossCrashes roots (next reply) mid new before after result → DoesAcrossCrashes roots (runs_child roots old.script request next) old new before after result }
    ensures stopped { (roots : Roots) (request : Request) (next : Reply → Action) (error : WorldError) (old new : State) (before after : Report) (result : Result (Unit {0}) Stop)
        → result ≡ Err (stop_for error) → IsForeignArea roots request.area → ((tree : Tree) → old.tree ≡ Some tree → IsFormed tree) → Runs request old new (Err error)
        → DoesAcrossCrashes roots (runs_child roots old.script request next) old new before after result }
    ensures initrds { (roots : Roots) → AreApart roots → (names : List (List ℕ)) → list_all (λ name. is_initrd_name (Some name)) names ≡ true
        → IsForeignArea roots (areas.Names roots.boot names) }
{}

/// What is done aside, and then more, is done aside; nothing is; and so is what a child does whose area lies aside, however
/// it ends.
pub fn work_aside_goes_on()
    ensures nothing { (roots : Roots) (state : State) → WorksAside roots state state }
    ensures more { (roots : Roots) (old mid new : State) → WorksAside roots old mid → WorksAside roots mid new → WorksAside roots old new }
    ensures child { (roots : Roots) (request : Request) (old new : State) (result : Result Reply WorldError) → old.roots ≡ roots
        → IsAsideArea roots request.area → Runs request old new result → WorksAside roots old new }
{}

/// Behind a part that was refused it goes on.
pub fn a_refusal_is_gathered()
    ensures { (roots : Roots) (part : Action) (next : Option Refusal → Action) (why : Refusal) (old mid new : State) (before between after : Report) (result : Result (Unit {0}) Stop)
        → DoesAcrossCrashes roots part {T = Unit {0}} old mid before between (Err (Refused why)) → DoesAcrossCrashes roots (next (Some why)) mid new between after result
        → DoesAcrossCrashes roots (gathers part next) old new before after result }
{}

/// An action behind work that was done aside, without a child, is that action; where that stopped the action stops.
pub fn what_is_aside_is_no_action()
    ensures goes_on { (roots : Roots) (action : Action) (old mid new : State) (before after : Report) (result aside : Result (Unit {0}) Stop) → aside ≡ Ok tt
        → ((tree : Tree) → old.tree ≡ Some tree → IsFormed tree) → WorksAside roots old mid → mid.ran ≡ old.ran → Lasts old mid → HasCause Fault old mid aside
        → DoesAcrossCrashes roots action mid new before after result → DoesAcrossCrashes roots action old new before after result }
    ensures stopped { (roots : Roots) (action : Action) (old new : State) (before after : Report) (result aside : Result (Unit {0}) Stop)
        → (result ≡ Err Fault) ⊎ (result ≡ Err NoMemory) → aside ≡ result
        → ((tree : Tree) → old.tree ≡ Some tree → IsFormed tree) → WorksAside roots old new → new.ran ≡ old.ran → Lasts old new → HasCause Fault old new aside
        → DoesAcrossCrashes roots action old new before after result }
{}

/// A transaction does the action that says so; one that stopped is among its stores, and so is one behind which memory
/// ran out for what is said of it.
pub fn an_action_is_one_transaction()
    ensures done { (roots : Roots) (action : Action) (made : Tree → Transacted) (line : List ℕ) (texts : List Reply → List ℕ) (old new : State) (before after : Report) (replies : List Reply) (result : Result (Unit {0}) Stop)
        → result ≡ Ok tt → ((tree : Tree) → old.tree ≡ Some tree → old.roots ≡ roots → SaysSo roots action made line texts tree)
        → Commits roots made old new (Ok replies) → after.out ≡ before.out ++ line → after.err ≡ before.err ++ texts replies
        → DoesAcrossCrashes roots action old new before after result }
    ensures stopped { (roots : Roots) (action : Action) (made : Tree → Transacted) (line : List ℕ) (texts : List Reply → List ℕ) (old new : State) (before after : Report) (stop : Stop) (result : Result (Unit {0}) Stop)
        → result ≡ Err stop → ((tree : Tree) → old.tree ≡ Some tree → old.roots ≡ roots → SaysSo roots action made line texts tree)
        → Commits roots made old new (Err stop) → DoesAcrossCrashes roots action old new before after result }
    ensures untold { (roots : Roots) (action : Action) (made : Tree → Transacted) (line : List ℕ) (texts : List Reply → List ℕ) (old new : State) (before after : Report) (replies : List Reply) (result : Result (Unit {0}) Stop)
        → result ≡ Err NoMemory → ((tree : Tree) → old.tree ≡ Some tree → old.roots ≡ roots → SaysSo roots action made line texts tree)
        → Commits roots made old new (Ok replies) → DoesAcrossCrashes roots action old new before after result }
{}

/// A step, its line, and a child behind it that may change nothing, if there is one, are one transaction of changes that
/// make that step and touch nothing that may be foreign.
pub fn a_step_and_a_child_are_one_transaction()
    ensures alone { (roots : Roots) (script : Script) (changes : List Change) (step : Tree → Tree) (line : List ℕ) (text : Reply → List ℕ) (tree : Tree) → runs_in changes ≡ []
        → public_tree roots (done roots script changes tree) ≡ step (public_tree roots tree) → foreign_tree roots (done roots script changes tree) ≡ foreign_tree roots tree
        → ((path : Path) → touched_by changes path ≡ true → IsNeverForeign roots path)
        → SaysSo roots (transaction step line then warn []) (transacted roots script changes) line (flat_map text) tree }
    ensures asked { (roots : Roots) (script : Script) (changes : List Change) (step : Tree → Tree) (line : List ℕ) (text : Reply → List ℕ) (tree : Tree) (request : Request) → runs_in changes ≡ []
        → public_tree roots (done roots script changes tree) ≡ step (public_tree roots tree) → foreign_tree roots (done roots script changes tree) ≡ foreign_tree roots tree
        → ((path : Path) → touched_by changes path ≡ true → IsNeverForeign roots path)
        → request.area ≡ areas.Nothing → is_dir (node_at (done roots script changes tree) request.dir) ≡ true
        → SaysSo roots (transaction step line then asks roots script request (λ reply. warn (text reply))) (transacted roots script (changes ++ Run request ∷ [])) line (flat_map text) tree }
{}

/// What the changes of a fitting patch touch is never foreign.
pub fn a_patch_touches_nothing_foreign()
    ensures { (roots : Roots) → AreApart roots → (patch : Patch) (tree : Tree) → IsFit roots patch tree → (path : Path)
        → touched_by (changes_of roots patch) path ≡ true → IsNeverForeign roots path }
{}

/// A call that only looks comes before an action: where it finds a cause the action is refused, else it goes on.
pub fn a_cause_is_looked_for()
    ensures refused { (roots : Roots) (read due : Tree → Option Refusal) (second : Action) (old mid : State) (report : Report) (stop : Stop) (result : Result (Unit {0}) Stop)
        → result ≡ Err stop → ((tree : Tree) → read tree ≡ due (whole_tree roots tree)) → Decides read old mid result
        → DoesAcrossCrashes roots (unless due then second) old mid report report result }
    ensures passed { (roots : Roots) (read due : Tree → Option Refusal) (second : Action) (old mid new : State) (before after : Report) (found result : Result (Unit {0}) Stop)
        → found ≡ Ok tt → ((tree : Tree) → read tree ≡ due (whole_tree roots tree)) → Decides read old mid found → DoesAcrossCrashes roots second mid new before after result
        → DoesAcrossCrashes roots (unless due then second) old new before after result }
{}

/// A part is done where a test holds, for which a call looks; where it doesn't hold nothing is done, and where that call
/// stopped the action stops.
pub fn a_part_is_done_where_its_test_holds()
    ensures holds { (roots : Roots) (read test : Tree → Bool) (action : Action) (old mid new : State) (before after : Report) (found : Result Bool Stop) (result : Result (Unit {0}) Stop)
        → found ≡ Ok true → ((tree : Tree) → read tree ≡ test (whole_tree roots tree)) → Gives {T = Bool} (λ tree. Ok (read tree)) old mid found
        → DoesAcrossCrashes roots action mid new before after result → DoesAcrossCrashes roots (when test action) old new before after result }
    ensures fails { (roots : Roots) (read test : Tree → Bool) (action : Action) (old mid : State) (report : Report) (found : Result Bool Stop) (done : Result (Unit {0}) Stop)
        → found ≡ Ok false → done ≡ Ok tt → ((tree : Tree) → read tree ≡ test (whole_tree roots tree)) → Gives {T = Bool} (λ tree. Ok (read tree)) old mid found
        → DoesAcrossCrashes roots (when test action) old mid report report done }
    ensures stopped { (roots : Roots) (read test : Tree → Bool) (action : Action) (old mid : State) (report : Report) (stop : Stop) (found : Result Bool Stop) (result : Result (Unit {0}) Stop)
        → found ≡ Err stop → result ≡ Err stop → ((tree : Tree) → read tree ≡ test (whole_tree roots tree)) → Gives {T = Bool} (λ tree. Ok (read tree)) old mid found
        → DoesAcrossCrashes roots (when test action) old mid report report result }
{}

/// An action goes on from the whole that stands when it begins, all that isn't private.
pub fn an_action_goes_on_from_the_whole()
    ensures { (roots : Roots) (next : Tree → Action) (old new : State) (before after : Report) (result : Result (Unit {0}) Stop)
        → Lasts old new → HasCause Fault old new result
        → ForSome old.tree (λ tree. DoesAcrossCrashes roots (next (whole_tree roots tree)) old new before after result)
        → DoesAcrossCrashes roots (reads Ok next) old new before after result }
{}

/// An action goes on from work that was done aside, and ends where that stopped.
pub fn an_action_goes_on_from_work()
    ensures goes_on { (roots : Roots) (work : Tree → Tree → Work Reply) (next : Reply → Action) (value : Reply) (old mid new : State) (before between after : Report) (right : Result Reply Stop) (result : Result (Unit {0}) Stop)
        → right ≡ Ok value → ((tree : Tree) → old.tree ≡ Some tree → IsFormed tree) → Works roots work old mid before between right
        → DoesAcrossCrashes roots (next value) mid new between after result → DoesAcrossCrashes roots (works work next) old new before after result }
    ensures stops { (roots : Roots) (work : Tree → Tree → Work Reply) (next : Reply → Action) (old new : State) (before after : Report) (stop : Stop) (right : Result Reply Stop) (result : Result (Unit {0}) Stop)
        → right ≡ Err stop → result ≡ Err stop → ((tree : Tree) → old.tree ≡ Some tree → IsFormed tree) → Works roots work old new before after right
        → DoesAcrossCrashes roots (works work next) old new before after result }
{}

/// A first part that stopped stops the whole.
pub fn a_part_that_stopped_stops_the_whole()
    ensures { (roots : Roots) (first second : Action) (old new : State) (before after : Report) (stop : Stop) (result : Result (Unit {0}) Stop) → result ≡ Err stop
        → DoesAcrossCrashes roots first old new before after result → DoesAcrossCrashes roots (first then second) old new before after result }
{}

/// A loop over items does the action of each: what is left leads to the whole, before it, behind an item, and behind all;
/// an item that stopped stops it.
pub fn each_item_is_done_in_turn()
    ensures begins { (roots : Roots) (whole : Action) (state : State) (report : Report) → Leads roots whole whole state state report report }
    ensures goes_on { (roots : Roots) (action : Spot → Action) (items : List Spot) (count : ℕ) (item : Spot) (old now next : State) (before between after : Report) (done : Result (Unit {0}) Stop)
        → done ≡ Ok tt → count < length items → item ≡ get_or items count item → Leads roots (each action items) (each action (drop count items)) old now before between
        → DoesAcrossCrashes roots (action item) now next between after done → Leads roots (each action items) (each action (drop (count + 1) items)) old next before after }
    ensures stops { (roots : Roots) (action : Spot → Action) (items : List Spot) (count : ℕ) (item : Spot) (old now next : State) (before between after : Report) (stop : Stop) (result : Result (Unit {0}) Stop)
        → result ≡ Err stop → count < length items → item ≡ get_or items count item → Leads roots (each action items) (each action (drop count items)) old now before between
        → DoesAcrossCrashes roots (action item) now next between after result → DoesAcrossCrashes roots (each action items) old next before after result }
    ensures ends { (roots : Roots) (action : Spot → Action) (items : List Spot) (count : ℕ) (old now : State) (before between : Report) (done : Result (Unit {0}) Stop)
        → done ≡ Ok tt → drop count items ≡ [] → Leads roots (each action items) (each action (drop count items)) old now before between
        → DoesAcrossCrashes roots (each action items) old now before between done }
{}

/// An action that prints, and one whose text found no memory, change nothing.
pub fn a_text_is_printed()
    ensures printed { (roots : Roots) (text : List ℕ) (state : State) (before after : Report) (done : Result (Unit {0}) Stop) → done ≡ Ok tt
        → after.out ≡ before.out ++ text → after.err ≡ before.err → DoesAcrossCrashes roots (print text) state state before after done }
    ensures wanting { (roots : Roots) (action : Action) (state : State) (before after : Report) (result : Result (Unit {0}) Stop) → result ≡ Err NoMemory
        → DoesAcrossCrashes roots action state state before after result }
{}
