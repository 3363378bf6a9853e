//! Messages between an editor and a server of the Language Server Protocol: frames, JSON-RPC, and what a server sends for each message.
#![tactic(auto)]

mod cancelled;
mod frames;
mod input;
mod message;
mod method;
mod protocol;
mod query;
mod sent;
mod server;
mod session;

pub use frames::{Frame, MOST_CONTENT, read_frame};
pub use method::Method;
pub use protocol::{ErrorCode, Phase};
pub use query::{Notice, Position, Query};
pub use server::Answers;
pub use session::{Ending, serve};
