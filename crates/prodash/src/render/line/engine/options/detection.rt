//! The options for a stream, as the system and the environment describe it.
ghost use Rattle.std.specs.Prelude.{◌≡◌};
ghost use Rattle.prodash.specs.Engines.{AreDetected, terminal_options};

use crate::render::line::engine::options::{Environment, Options, StreamKind, VariableSource};
use std::io::IsTerminal;

/// A runtime whose standard streams can be asked whether they are terminals.
pub trait StandardStreams {
    ghost use Rattle.std.specs.Prelude.{Bool};
    ghost use Rattle.prodash.specs.declared.render.line.engine.options.StreamKind.{StreamKind};

    /// The stream was asked, and this was the answer.
    ghost answered: { Self → StreamKind → Bool → Type 0 };

    /// Returns whether a stream is a terminal.
    fn is_terminal(&self, stream: StreamKind) -> bool
        ensures { answered self.now stream result };
}

impl StandardStreams for HostRuntime {
    ghost answered = { λ _ stream is_terminal. Unit {0} };

    fn is_terminal(&self, stream: StreamKind) -> bool {
        match stream {
            StreamKind::Stdout => self.stdout().is_terminal(),
            StreamKind::Stderr => self.stderr().is_terminal(),
        }
    }
}

impl Options {
    /// Returns the options for a stream, as [`Options::for_terminal`] makes them: the system says
    /// whether the stream is a terminal, and the environment, as [`Environment::read`] takes it,
    /// says the rest.
    ///
    /// ```rust
    /// let options = Options {
    ///     throughput: true,
    ///     ..Options::detect(&rt, StreamKind::Stderr)
    /// };
    /// let renderer = render(rt, alloc, rt.stderr(), root.downgrade()?, clock, options)?;
    /// ```
    pub fn detect<R: VariableSource + StandardStreams>(rt: &R, output: StreamKind) -> Options
        ensures { AreDetected (R.answered rt.now output) (R.gave rt.now) result }
    {
        Options::for_terminal(rt.is_terminal(output), Environment::read(rt))
    }

    /// Returns the options for an output: the default ones, but with what the environment says of
    /// colours, with the columns and rows that it names, and in ASCII if its locale isn't one of
    /// UTF-8. An output on which its terminal can't show frames counts as no terminal.
    pub fn for_terminal(is_terminal: bool, environment: Environment) -> Options
        ensures { result ≡ terminal_options is_terminal environment }
    {
        let default = Options::default();
        let (columns, rows) = default.terminal_dimensions;
        let output_is_terminal = is_terminal && environment.shows_frames;
        Options {
            output_is_terminal,
            colored: environment.colors.is_colored(output_is_terminal),
            terminal_dimensions: (
                environment.columns.unwrap_or(columns),
                environment.rows.unwrap_or(rows),
            ),
            ascii: !environment.is_utf8,
            ..default
        }
    }
}
