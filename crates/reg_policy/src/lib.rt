//! The rules as code: what is asked, the rows that a decision rests on, and the texts of refusals.
//!
//! `decide` looks only at the rows that it is given.
//!
//! ```
//! decide(&rows, &Action::Download("a", "0.1.0"))  // Decision::Denied(Rule::A8): no such crate
//! rule_status(Rule::A8)                           // 404
//! rule_text(Rule::A8)                             // A8 no such crate
//! admin_text(AdminRefusal::G2)                    // G2 login taken
//! ```
#![tactic(auto)]

mod action;
mod commas;
mod deciding;
mod event;
mod named;
mod orders;
mod report_lines;
mod reserved;
mod rows;
mod words;
mod words_given;

pub use action::{Action, Decision, Facts, OwnerRow, Rows, TokenFacts};
pub use commas::WithCommas;
pub use deciding::{first_broken, has_endpoint, same_text};
pub use event::{
    AdminCommand, AdminReply, Answer, Asked, Event, NewPublication, OwnerEntry, Reading, action_of,
};
pub use named::{crate_of, logins_of};
pub use orders::{needed, rules_in_order};
pub use reg_model::{AdminRefusal, Endpoint, Endpoints, Rule};
pub use report_lines::{
    ENDPOINTS, push_crate_line, push_grant_line, push_reader_line, push_token_line, push_user_line,
    word_of,
};
pub use reserved::is_reserved_always;
pub use rows::{decide, is_covered};
pub use words::{admin_text, rule_status, rule_text};
pub use words_given::{are_endpoints, endpoints_named, may_name, parse_patterns};
