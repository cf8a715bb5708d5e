//! HTTP/1.1 over a stream: requests are cut from the bytes, routed, and answered by a registry;
//! replies are written.
//!
//! ```
//! let mut reader = Counted::new(input);
//! let mut writer = Counted::new(Vec::new(alloc));
//! let replies = serve_stream(alloc, &mut registry, &mut reader, &mut writer)?;
//! ```
//!
//! With a trail, each change has a line, which is written before its reply. A `Server` is made once
//! and lent to each connection.
//!
//! ```
//! let mut server = Server::new(alloc)?;
//! let mut trail = Trail::new(log, 1_000_000);
//! let replies = server.serve_traced(alloc, &mut registry, &mut reader, &mut writer, &mut trail)?;
//! ```
#![tactic(auto)]

mod answering;
mod server;
mod stream;
mod trail;

pub use reg_api_replies::{SendFault, write_reply};
pub use reg_http_read::{Head, HeadRead, StreamFault, read_head};
pub use reg_http_routes::{RouteFault, Routes};
pub use server::{Server, serve_stream, serve_traced};
pub use trail::Trail;
