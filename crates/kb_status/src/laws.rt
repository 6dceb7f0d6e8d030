// Laws of the definitions: each is the contract of a function that does nothing, so that its proof
// is asked for.
ghost use Rattle.std.specs.Prelude.{◌≡◌, ◌↔◌, List, ℕ};
ghost use Rattle.std.specs.Cmp.{IsTotalOrder};
ghost use Rattle.std.specs.declared.cmp.Ordering.TheVariants.{Equal};
ghost use Rattle.std.specs.List.{Contains};
ghost use Rattle.kb_world.specs.declared.job.Filter.{Filter};
ghost use Rattle.kb_store.specs.declared.store.Store.{Store};
ghost use Rattle.kb_status.specs.declared.line.Line.{Line};
ghost use Rattle.kb_status.specs.LineOf.{IsLineOf};
ghost use Rattle.kb_status.specs.Order.{line_order};
ghost use Rattle.kb_status.specs.Status.{IsStatus, text_of_status};

/// A line stands in a status exactly where it is that of an added version that no build is of,
/// wanted by a filter that names no kernel and no architecture, or that of a build that the filter
/// wants.
pub fn lines_are_those_of_the_store()
    ensures { (store : Store) (filter : Filter) (text : List ℕ) (line : Line) →
        (status : IsStatus store filter text) →
        Contains status.lines line ↔ IsLineOf store filter line }
{}

/// The order of lines is total, and what it calls equal is of one version and one spot.
pub fn the_order_of_lines_is_total()
    ensures total { IsTotalOrder line_order }
    ensures exact { (a b : Line) →
        line_order a b ≡ Equal → (a.key ≡ b.key) × (a.spot ≡ b.spot) }
{}

/// A store has one status by a filter, and it is the one that is computed.
pub fn a_store_has_one_status()
    ensures one { (store : Store) (filter : Filter) (a b : List ℕ) →
        IsStatus store filter a → IsStatus store filter b → a ≡ b }
    ensures computed { (store : Store) (filter : Filter) →
        IsStatus store filter (text_of_status store filter) }
{}
