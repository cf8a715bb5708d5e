//! The service: each request and each command is one step of the abstract registry, in one
//! transaction of the tables.
//!
//! ```
//! let mut registry = Registry::create(conn, "http://127.0.0.1:8080", Limits::STANDARD)?;
//! registry.command(alloc, &AdminCommand::UserAdd("ada", None))?       // AdminReply::Done
//! let request = ApiRequest { token: None, call: ApiCall::Config };
//! registry.handle(alloc, &request)                                    // Reply::Denied(Rule::A1)
//! let calls = [Call::Request(request), Call::Command(AdminCommand::Users)];
//! answer_all(alloc, &mut registry, &calls)?                           // the answers
//! ```
#![tactic(auto)]

mod answered;
mod exporting;
pub mod laws;
mod marking;
mod opening;
mod registry;
mod searching;
mod sequences;
mod transactions;

pub use answered::Answered;
pub use opening::{OpenFault, Opened};
pub use reg_api_replies::{FixedText, Kind, Methods, Reply, reply_head};
pub use reg_api_requests::{ApiCall, ApiRequest};
pub use reg_audit::Check;
pub use reg_service_commands::TracedOrder;
pub use reg_service_index::{FoundFile, IndexFault};
pub use reg_service_requests::TracedReply;
pub use registry::Registry;
pub use sequences::{Call, Response, answer_all};
