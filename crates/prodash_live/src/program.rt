//! The whole program over a reader, a writer and a clock.
use crate::dashboard::Dashboard;
use crate::display::{Display, MESSAGES};
use crate::failure::Failure;
use crate::feed::{Feed, Outcome};
use crate::items::Items;
use crate::options::Options;
use crate::output::{OutputState, PromptClock, Watched};
use crate::plain_display::{Lines, PlainDisplay};
use crate::recording::Recording;
use crate::shown::Shown;
use crate::signs::Signs;
use prodash::render::line::{self, render};
use prodash::render::tui;
use prodash::time::Clock;
use prodash::tree::{Root, root};
use std::alloc::Global;
use std::io::{Read, Write};
use std::sync::{Arc, Wait};
use std::thread::Threads;

/// Shows the events of `input` on an output until the input ends, and writes a recording of the run
/// if there is something to write it to. Returns how far the input was read. `outputs` are two
/// writers of the output, of which the second writes what a dashboard leaves behind.
///
/// # Errors
///
/// The failure that ended it. The renderer is closed then, too.
pub fn live<
    R: Wait + Threads + Alloc<A = Global> + Clone + Drop + Send + Sync + 'static,
    I: Read + Drop,
    O: Write + Drop + Send + 'static,
    W: Write + Drop,
    K: Clock + Drop + Send + Sync + 'static,
>(
    rt: R,
    input: I,
    outputs: (O, O),
    recording: Option<W>,
    clock: Arc<K>,
    options: Options<'_>,
    is_terminal: bool,
) -> Result<Outcome, Failure> {
    let alloc = rt.alloc();
    let output = Arc::new(alloc, OutputState::new())?;
    let root = root::Options {
        message_buffer_capacity: MESSAGES,
        ..root::Options::default()
    }
    .create(rt.clone()?, alloc)?;
    let rendering = options.render(is_terminal);
    let interval = rendering.nanoseconds_per_frame;
    let recording = Recording::new(alloc, recording, clock.now(), interval)?;
    let (out, later) = outputs;
    let mut out = Watched::new(out, Arc::try_clone(&output)?, options.has_marks);
    // what fails here is told below
    let _ = out.mark();
    let display = match options.plain {
        Some(seconds) if !rendering.output_is_terminal => {
            let out = (out, Arc::try_clone(&output)?);
            let display = PlainDisplay::start(&rt, alloc, out, &root, &clock, &rendering, seconds)?;
            Shown::Plain(display)
        }
        _ if options.has_dashboard && rendering.output_is_terminal => {
            let later = Watched::new(later, Arc::try_clone(&output)?, options.has_marks);
            let lines = Lines::new(alloc, root.downgrade()?, later, &rendering, clock.now());
            let handle = start_dashboard(&rt, alloc, out, &root, &clock, &options)?;
            let output = Arc::try_clone(&output)?;
            let leaves = options.leaves_on_interrupt;
            Shown::Dashboard(Dashboard::new(alloc, handle, lines, output, leaves))
        }
        _ => Shown::Frames(show(&rt, alloc, out, &root, &clock, rendering, &output)?),
    };
    let signs = Signs::for_rendering(&rendering);
    let items = Items::new(alloc, root, signs, options.replaces_words, recording);
    let mut feed = Feed::new(&rt, alloc, &*clock, items, display, &options);
    let served = feed.serve_lines(input, options.is_strict);
    let (is_unfinished, failed) = feed.close()?;
    if let Some(error) = output.error() {
        return Err(Failure::Output(error));
    }
    let outcome = served?;
    match (failed, outcome) {
        (Some(error), _) => Err(Failure::Recording(error)),
        (None, Outcome::Ended(0)) if is_unfinished => Ok(Outcome::Unfinished),
        (None, outcome) => Ok(outcome),
    }
}

/// Begins to show a tree on `out`.
///
/// # Errors
///
/// If there is no memory or no thread for it.
fn show<
    R: Wait + Threads + Clone + Drop + Send + Sync + 'static,
    O: Write + Drop + Send + 'static,
    K: Clock + Drop + Send + Sync + 'static,
>(
    rt: &R,
    alloc: Global,
    out: Watched<O>,
    root: &Root<R>,
    clock: &Arc<K>,
    rendering: line::Options,
    output: &Arc<OutputState>,
) -> Result<Display<R>, Failure> {
    let prompt = PromptClock::new(
        Arc::try_clone(clock)?,
        Arc::try_clone(output)?,
        rendering.nanoseconds_per_frame,
    );
    let handle = render(
        rt.clone()?,
        alloc,
        out,
        root.downgrade()?,
        Arc::new(alloc, prompt)?,
        rendering,
    )?;
    Ok(Display::new(handle, Arc::try_clone(output)?))
}

/// Begins to draw a dashboard of a tree on `out`.
///
/// # Errors
///
/// If there is no memory or no thread for it.
fn start_dashboard<
    R: Wait + Threads + Clone + Drop + Send + Sync + 'static,
    O: Write + Drop + Send + 'static,
    K: Clock + Drop + Send + Sync + 'static,
>(
    rt: &R,
    alloc: Global,
    out: Watched<O>,
    root: &Root<R>,
    clock: &Arc<K>,
    options: &Options<'_>,
) -> Result<tui::JoinHandle<R>, Failure> {
    Ok(tui::render(
        rt.clone()?,
        alloc,
        out,
        root.downgrade()?,
        Arc::try_clone(clock)?,
        options.dashboard(alloc)?,
        options.dimensions,
    )?)
}
