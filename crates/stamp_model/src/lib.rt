//! What a request does to what the stamp holds, and its reply: definitions and their laws, and no
//! code that runs.
#![tactic(auto)]

mod accepted_laws;
mod acl_laws;
mod block_laws;
mod caller_laws;
mod condition_laws;
mod etag_laws;
mod history_laws;
mod kept_laws;
mod key_laws;
mod laws;
mod list_laws;
mod metadata_laws;
mod override_laws;
mod policy_laws;
mod run_laws;
mod success_laws;
mod word_laws;

pub use accepted_laws::a_run_is_the_replay_of_its_accepted_requests;
pub use acl_laws::an_acl_reaches_no_content;
pub use block_laws::{
    a_block_list_shows_the_blocks, a_commit_is_seen_whole_or_not_at_all,
    no_block_outlives_its_commit,
};
pub use caller_laws::{
    a_caller_without_a_valid_credential_learns_nothing, a_read_changes_nothing,
    only_admitted_callers_are_told_of_the_object,
};
pub use condition_laws::{
    a_condition_never_lets_more_by, a_conditional_write_changes_what_its_caller_saw,
    a_failed_condition_is_told, a_part_is_a_part_of_the_whole,
};
pub use etag_laws::an_etag_names_one_state;
pub use history_laws::{
    a_front_part_of_a_legal_history_is_legal, an_accepted_request_continues_a_legal_history,
    each_entry_is_one_change,
};
pub use kept_laws::{a_blob_is_changed_by_its_own_requests, what_was_written_last_is_read};
pub use key_laws::{a_history_does_not_see_later_pairs, each_epoch_has_its_pair};
pub use laws::{
    a_container_is_changed_by_its_own_operations, a_refused_request_changes_nothing,
    a_reply_depends_on_what_its_request_sees, an_answer_is_of_what_exists,
    an_effect_reaches_its_own_container_alone, an_own_container_decides_effect_and_reply,
    content_is_read_before_or_after_a_request, counts_only_rise,
    nobody_writes_without_a_credential, public_access_is_what_the_container_gives,
    success_is_what_the_own_route_admits, the_refusal_is_the_first_rule_of_all,
};
pub use list_laws::{
    a_list_of_containers_is_of_its_account, a_list_shows_what_its_route_may_see,
    a_put_block_leaves_every_list, what_is_written_is_listed,
};
pub use metadata_laws::a_list_shows_the_metadata_that_a_blob_tells;
pub use override_laws::{a_token_overrides_five_headers, other_requests_override_nothing};
pub use policy_laws::{
    a_policy_is_as_it_was_set_last, a_set_acl_gives_a_policy_or_withdraws_it,
    a_token_writes_by_its_letters, a_withdrawn_policy_opens_nothing,
};
pub use run_laws::{
    a_refused_request_changes_no_other_reply, each_request_has_the_reply_of_its_position,
    only_what_the_own_route_admits_is_answered, what_is_written_is_read,
};
pub use success_laws::{
    a_blob_is_read_with_the_md5_of_its_bytes, a_block_list_shows_the_kinds_that_are_asked_for,
    a_container_is_made_as_it_is_asked_for, a_damaged_body_is_refused,
    a_part_has_the_other_headers_of_the_whole, a_put_block_is_answered_with_its_md5,
    a_range_is_refused_only_past_the_end, a_success_has_the_status_of_its_operation,
    only_a_blob_that_is_seen_is_deleted, properties_are_what_get_blob_tells,
};
pub use word_laws::{
    all_rules_have_the_order_of_their_labels, each_word_of_the_laws_names_its_operations,
};
