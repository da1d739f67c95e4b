//! Which mentions of a tracked variable are allowed, as far as their form and the facts of functions tell, and what
//! each does. The definitions are those of `meaning/specs/Uses.antt`, "Allowed mentions".
#![tactic(auto)]

pub mod allowed_use;
mod between;
mod cancels;
mod gives;
mod groups;
pub mod local_mention;
mod places;
mod reads;

pub use allowed_use::{Use, allowed_if};
pub use between::{are_all_members, run_all_once};
pub use cancels::has_its_arguments;
pub use gives::{body_gives, hands_on, is_given_as};
pub use groups::{
    group_awaited, group_lent, group_limited, group_started, group_tried, literal_at, only_argument,
};
pub use local_mention::{LocalMention, variable_at};
pub use places::{
    has_no_argument, is_call_place, is_deferred_place, is_item_place, is_statement_or_value,
    is_statement_place, is_under_go, is_value_place, item_variable, takes,
};
pub use reads::cancel_use_by;
