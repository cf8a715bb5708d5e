//! Scripts over the tables, which the tests of the tables and of the registry share.
//!
//! A line is a call, an arrow and its answer; a block of lines is a transaction, which is dropped
//! where its last line is no commit. [`play`] answers the first line that is answered otherwise:
//!
//! ```text
//! add-account ada Ada -> 1
//! commit -> done
//!
//! account ada -> 1:ada:Ada:on;
//! ```
#![tactic(auto)]

mod answer;
mod bare;
mod call;
mod calling;
mod fault;
mod index_file;
mod old_store;
mod records;
mod script;
mod searching;
mod words;

pub use answer::Answer;
pub use bare::{by_line, check_each, over_a_connection};
pub use call::{AccountCall, Call, CrateCall, NameCall, NewToken, Release, TextCall, TokenCall};
pub use calling::perform;
pub use fault::Fault;
pub use index_file::entries_text;
pub use old_store::make_old;
pub use script::{
    BASE, FILLED, answer_of, check_text, first_broken, play, play_over, read_logins, reply_text,
    rows_text,
};
pub use searching::search_text;
pub use words::read_call;
