//! The threads of a renderer: its event loop, its ticker, and the handle, which share the requests
//! to the event loop.
mod event_loop;
mod handle;
mod mailbox;
mod start;
mod ticker;

pub(crate) use event_loop::Serve;
pub use handle::RendererHandle;
pub use mailbox::Requests;
pub(crate) use start::{DEFAULT_STACK, start_threads};
pub(crate) use ticker::Shared;
