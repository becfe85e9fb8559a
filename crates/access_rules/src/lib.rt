//! Who may do what: what each operation needs, and the first rule of permission that refuses a request.
#![tactic(auto)]

mod judge;
mod judgement;
mod key_route;
mod keys;
mod laws;
mod needs;
mod order_laws;
mod parts;
mod rotation;
mod rotation_laws;
mod signatures;
mod string_laws;
mod token_laws;
mod token_parts;
mod token_route;

pub use judge::{early_judgement, verdict, verdict_judged, verdict_vouched};
pub use judgement::{Dated, EarlyJudgement, SignedBy, Verdict, Way};
pub use keys::Keys;
pub use laws::{
    a_container_that_does_not_exist_is_as_closed, each_level_opens_what_it_names,
    no_rule_holds_if_and_only_if_the_own_route_admits, nobody_writes_by_public_access,
};
pub use needs::{Letter, Need, need_of};
pub use order_laws::{
    the_refusal_names_the_first_rule_that_holds,
    the_rules_of_permission_have_the_order_of_their_labels,
};
pub use rotation::{KeysFault, Which};
pub use rotation_laws::each_pair_has_its_place_as_epoch;
pub use signatures::{
    a_true_signature_is_the_routes_own, has_false_signature, has_true_signature, is_true_signature,
    signature_by, signature_with,
};
pub use string_laws::a_token_signs_what_no_key_signs;
pub use token_laws::{
    a_token_has_one_time, each_letter_opens_what_it_names, no_token_reaches_a_container_itself,
};
pub use token_parts::token_asked;
