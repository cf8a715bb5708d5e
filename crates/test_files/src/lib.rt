//! A store in two files that stop after a number of calls, and what is scarce while it is used, for
//! the tests of the tables and of the service.
#![tactic(auto)]

mod files;
mod jobs;
mod limits;
mod trials;

pub use files::{
    FEW_PAGES, Image, MANY_PAGES, Stopping, files_of, have_stopped, image_of, nothing, revive,
};
pub use jobs::{Job, work_and_close, work_in};
pub use limits::{Limits, NO_LIMITS, Scarce, leave_only};
pub use trials::{Came, Seen};
