//! What actions do where a crash may come: what a tree opens, what stands, and how parts of an action go on from one
//! another. Laws alone.
#![tactic(auto)]

mod laws;

pub use laws::{
    a_cause_is_looked_for, a_child_changes_what_is_foreign, a_child_is_asked,
    a_part_is_done_where_its_test_holds, a_part_that_stopped_stops_the_whole,
    a_patch_touches_nothing_foreign, a_refusal_is_gathered, a_step_and_a_child_are_one_transaction,
    a_text_is_printed, a_tree_without_a_journal_rests, actions_go_on,
    an_action_goes_on_from_the_whole, an_action_goes_on_from_work, an_action_is_one_transaction,
    each_item_is_done_in_turn, what_is_aside_is_no_action, work_aside_goes_on,
};
