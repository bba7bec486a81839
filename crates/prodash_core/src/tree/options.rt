ghost use Rattle.std.specs.Prelude.{◌≡◌};

use prodash_line::render::line::draw;

/// Options for the tree of a session.
#[derive(Clone, Copy, Debug)]
pub struct RootOptions {
    /// The expected number of tasks. No memory is reserved for them.
    pub initial_capacity: usize,
    /// The maximum number of messages that are kept.
    pub message_buffer_capacity: usize,
}

impl Default for RootOptions {
    /// Returns options for 100 tasks and 20 messages.
    fn default() -> RootOptions
        ensures { result ≡ record { initial_capacity = 100; message_buffer_capacity = 20 } }
    {
        RootOptions {
            initial_capacity: 100,
            message_buffer_capacity: 20,
        }
    }
}

/// Options for a session.
#[derive(Clone, Copy, Debug)]
pub struct SessionOptions {
    /// Options for the tree and its messages.
    pub root: RootOptions,
    /// Options for the renderer.
    pub draw: draw::Options,
    /// Whether the renderer measures the throughput of tasks, for units that show it.
    pub throughput: bool,
}
