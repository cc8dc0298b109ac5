//! The row of the laws.
use rds_counts::{a_merge_of_counts_has_one_result, limit_of_counts};
use rds_delta::{
    a_delta_has_one_result, checked_delta_laws, friends_exchange_deltas, least_delta_laws,
};
use rds_dots::limit_of_dots;
use rds_life::a_merge_of_lives_has_one_result;
use rds_names::Fault;
use rds_rows::told::said;
use rds_state::{
    a_change_has_one_result, documents_have_the_sums, friends_take_each_other, join_laws,
    marks_add_up,
};
use rds_tree::{same_documents_show_the_same, views_show_what_is_live};
use std::alloc::Global;

/// `laws` calls the functions whose contracts are laws. They do nothing.
pub fn laws(alloc: Global) -> Result<String, Fault> {
    join_laws();
    limit_of_dots();
    limit_of_counts();
    a_merge_of_lives_has_one_result();
    a_merge_of_counts_has_one_result();
    a_change_has_one_result();
    a_delta_has_one_result();
    friends_take_each_other();
    documents_have_the_sums();
    marks_add_up();
    least_delta_laws();
    checked_delta_laws();
    friends_exchange_deltas();
    same_documents_show_the_same();
    views_show_what_is_live();
    said(alloc, "called")
}
