//! The default options, and those of frames.
ghost use Rattle.std.specs.Prelude.{◌≡◌};
ghost use Rattle.prodash.specs.Engines.{default_options};
ghost use Rattle.prodash.specs.plumbing.EngineFrames.{draw_options};

use crate::render::line::draw;
use crate::render::line::engine::options::{Options, StreamKind};

impl Options {
    /// Returns the options unchanged. The Rust crate asks the stream and the terminal here; to do
    /// that, begin with [`Options::detect`], which takes the runtime.
    pub fn auto_configure(self, _output: StreamKind) -> Options
        ensures { result ≡ self }
    {
        self
    }

    /// Returns the options that decide what a frame is.
    pub(crate) fn draw(&self) -> draw::Options
        ensures { result ≡ draw_options self.now }
    {
        draw::Options {
            level_filter: self.level_filter,
            terminal_dimensions: self.terminal_dimensions,
            keep_running_if_progress_is_empty: self.keep_running_if_progress_is_empty,
            output_is_terminal: self.output_is_terminal,
            colored: self.colored,
            timestamp: self.timestamp,
            hide_cursor: self.hide_cursor,
            defensive: self.defensive,
            synchronized: self.synchronized,
            whole_messages: self.whole_messages,
            bare_without_origin: self.bare_without_origin,
            bar_columns: self.bar_columns,
            ascii: self.ascii,
            times: self.times,
            prefer_running: self.prefer_running,
        }
    }
}

impl Default for Options {
    /// Returns the default options of frames ([`draw::Options::default`]), with six frames a
    /// second, no initial delay and no throughput: a coloured terminal of 80 columns and 20 rows,
    /// all levels, no timestamps, a visible cursor, frames that are neither defensive nor
    /// synchronized, messages that are cut, and aligned without an origin too, bars on all columns
    /// that are left, rows without times, the first rows if not all fit, and a renderer that keeps
    /// running without rows.
    fn default() -> Options
        ensures { result ≡ default_options }
    {
        let draw::Options {
            level_filter,
            terminal_dimensions,
            keep_running_if_progress_is_empty,
            output_is_terminal,
            colored,
            timestamp,
            hide_cursor,
            defensive,
            synchronized,
            whole_messages,
            bare_without_origin,
            bar_columns,
            ascii,
            times,
            prefer_running,
        } = draw::Options::default();
        Options {
            output_is_terminal,
            colored,
            timestamp,
            terminal_dimensions,
            hide_cursor,
            defensive,
            synchronized,
            whole_messages,
            bare_without_origin,
            bar_columns,
            ascii,
            times,
            prefer_running,
            throughput: false,
            level_filter,
            initial_delay: None,
            nanoseconds_per_frame: 166_666_666,
            keep_running_if_progress_is_empty,
        }
    }
}
