//! Frames: messages and rows, drawn over the lines on screen.
ghost use Rattle.std.specs.Prelude.{◌≡◌, ℕ, Bool, None, IsOkUnless, OnOk, OnErr};
ghost use Rattle.prodash_line.specs.Screens.{WritesFrame, BreaksDuring};
ghost use Rattle.prodash_line.specs.Renderer.{RendersOn, latest_rows};
ghost use Rattle.prodash_line.specs.plumbing.EarlierRows.{steps_tick, tick_over};
ghost use Rattle.prodash_line.specs.plumbing.FrameWriting.{begun, broken, resize_to, tick_seeing};
ghost use Rattle.prodash_line.specs.ErasedPages.{ErasesPagesOn};
ghost use Rattle.prodash_line.specs.SafeFrames.{DrawsSafelyOn};

mod action;
mod bar;
mod drawn_text;
mod earlier_rows;
mod erasing;
mod fitting;
mod frame;
mod input;
mod latest_rows;
mod layout;
mod line_copier;
mod line_writer;
mod measured_names;
mod memory_screen;
mod message;
mod more;
mod over_write;
pub(crate) mod plain_progress;
mod rank;
mod room;
mod row;
mod row_time;
mod screen;
mod state;
mod styles;
mod text;
mod tracker;

pub use drawn_text::safe_char;
use earlier_rows::{Earlier, SeenRows};
use frame::{compose_closing, compose_resized, compose_tick};
pub use input::{Answer, Input, Options};
pub use memory_screen::MemoryScreen;
pub use over_write::{OverWrite, TracedWrite};
use prodash_base::Refusal;
use prodash_base::messages::{MessageCopyState, Messages};
use prodash_base::progress::Step;
use prodash_base::time::Moment;
pub use screen::{Screen, write_frame};
use state::Past;
pub use state::State;
use std::alloc::Global;
use tracker::keep_observed;

/// Draws the frame of an input: composes it, writes all its bytes to the screen and flushes them.
/// A frame without bytes does nothing to the screen.
///
/// The first frame hides the cursor if `hide_cursor` is set and the output is a terminal.
///
/// - `Input::Tick` with a root prints the new messages, each in the row of the first line on
///   screen, and draws the rows in place of the lines that are left if they are shown on a terminal
///   and have changed since the latest tick. It returns `Answer::Drawn`. If there are no rows and
///   the renderer isn't to keep running, it closes the renderer after its messages.
/// - `Input::Tick` without a root and `Input::Quit` close the renderer.
/// - `Input::Resize` sets the size, and draws the rows of the latest tick if they are shown on a
///   terminal. It returns `Answer::Drawn`.
///
/// Closing the renderer blanks the lines on screen, shows a hidden cursor and returns
/// `Answer::Ended`. Every later input is refused.
///
/// # Errors
///
/// - `Memory`: out of memory. Nothing was written, and the state is unchanged.
/// - `Broken`: the screen broke during this frame, of which it has taken a prefix, or during an
///   earlier one. Every further frame is refused with it.
/// - `Closed`: a closing frame was drawn. Every further frame is refused with it.
///
/// ```rust
/// let mut screen = MemoryScreen::new(alloc, 4096)?;
/// let options = Options {
///     colored: false,
///     ..Options::default()
/// };
/// let mut state = State::new(alloc, options, false);
/// let tick = Input::Tick {
///     at: 0,
///     show: true,
///     seen: Some((rows, messages, copy_state)),
/// };
/// all(alloc, &mut screen, &mut state, tick)?;
/// all(alloc, &mut screen, &mut state, Input::Quit { at: 1 })?;
/// ```
pub fn all<S: Screen>(
    alloc: Global,
    screen: &mut S,
    state: &mut State,
    input: Input,
) -> Result<Answer, Refusal>
    ensures frame { RendersOn S.state state.old input screen.old result state.new screen.new }

    // Every page shows a frame that erases the rows that it writes on.
    ensures page { ErasesPagesOn S.state state.old input screen.old result screen.new }

    // No line of a defensive frame has an unsafe character.
    ensures safe { DrawsSafelyOn S.state state.old input screen.old result screen.new }
{
    if let Some(refusal) = state.ended() {
        return Err(refusal);
    }
    match input {
        Input::Tick {
            at,
            show,
            seen: Some(seen),
        } => {
            let seen = (SeenRows::All(seen.0), seen.1, seen.2);
            draw_tick(alloc, screen, state, at, show, seen)
        }
        Input::Tick { seen: None, .. } => draw_closing(screen, state),
        Input::Resize {
            at,
            show,
            columns,
            rows,
        } => draw_resized(alloc, screen, state, at, (columns, rows), show),
        Input::Quit { .. } => draw_closing(screen, state),
    }
}

/// Draws the frame of a tick with a root as `all` does, if the rows are those of the latest tick with
/// other steps, the first of which is that of the first row. So a look at a tree in which tasks
/// neither came nor went needs no copies of their rows. `seen` has the steps, the new messages and the
/// state for the next look.
///
/// # Errors
///
/// As `all`.
pub fn tick_with_steps<S: Screen>(
    alloc: Global,
    screen: &mut S,
    state: &mut State,
    at: Moment,
    show: bool,
    seen: (Vec<Step>, Messages, MessageCopyState),
) -> Result<Answer, Refusal>
    ensures frame { RendersOn S.state state.old (steps_tick at show state.old seen)
        screen.old result state.new screen.new }
    ensures page { ErasesPagesOn S.state state.old (steps_tick at show state.old seen)
        screen.old result screen.new }
    ensures safe { DrawsSafelyOn S.state state.old (steps_tick at show state.old seen)
        screen.old result screen.new }
{
    if let Some(refusal) = state.ended() {
        return Err(refusal);
    }
    let seen = (SeenRows::Steps(seen.0), seen.1, seen.2);
    draw_tick(alloc, screen, state, at, show, seen)
}

/// Draws the frame of a tick with a root, and remembers what the tick saw. It closes the renderer
/// if the tick saw no rows, unless the renderer is to keep running.
fn draw_tick<S: Screen>(
    alloc: Global,
    screen: &mut S,
    state: &mut State,
    at: Moment,
    show: bool,
    seen: (SeenRows, Messages, MessageCopyState),
) -> Result<Answer, Refusal>
    requires { state.old.ended ≡ None }
    ensures { RendersOn S.state state.old (tick_over at show state.old seen) screen.old result
        state.new screen.new }
{
    let (rows, messages, copy_state) = seen;
    let Earlier { rows, mut kept } = state.past.begin_tick(alloc, rows);
    let seen = (rows, messages, copy_state);
    let (past, tracker) = (&state.past, &mut state.tracker);
    let composed = compose_tick(&mut state.frame, past, tracker, at, show, &seen, &mut kept);
    let (rows, messages, copy_state) = seen;
    let earlier = Earlier { rows, kept };
    let frame = match composed {
        Ok(frame) => frame,
        Err(refusal) => {
            state.past.take_back(earlier);
            return Err(refusal);
        }
    };
    if let Err(refusal) = send_frame(screen, &mut state.past, state.frame.bytes()) {
        state.past.take_back(earlier);
        return Err(refusal);
    }
    let (action, rows) = (frame.drawn.action, state.past.latest_rows());
    keep_observed(&mut state.tracker, action, rows);
    let (past, bytes) = (&mut state.past, &mut state.frame);
    Ok(past.remember_tick(frame, bytes, earlier, messages, copy_state))
}

/// Draws the frame of a resize, and sets the size.
fn draw_resized<S: Screen>(
    alloc: Global,
    screen: &mut S,
    state: &mut State,
    at: Moment,
    size: (u16, u16),
    show: bool,
) -> Result<Answer, Refusal>
    requires { state.old.ended ≡ None }
    ensures { RendersOn S.state state.old (resize_to at show size) screen.old result state.new
        screen.new }
{
    let (past, tracker) = (&state.past, &mut state.tracker);
    let drawn = compose_resized(alloc, &mut state.frame, past, tracker, at, size, show)?;
    send_frame(screen, &mut state.past, state.frame.bytes())?;
    keep_observed(&mut state.tracker, drawn.action, state.past.latest_rows());
    state.past.set_size(size, drawn);
    Ok(Answer::Drawn)
}

/// Draws the closing frame without messages.
fn draw_closing<S: Screen>(screen: &mut S, state: &mut State) -> Result<Answer, Refusal>
    requires { state.old.ended ≡ None }
    ensures quit { (at : ℕ)
        → RendersOn S.state state.old (Input.Quit at) screen.old result state.new screen.new }
    ensures without_root { (at : ℕ) (show : Bool)
        → RendersOn S.state state.old (Input.Tick at show None) screen.old result state.new
        screen.new }
{
    compose_closing(&mut state.frame, &state.past)?;
    send_frame(screen, &mut state.past, state.frame.bytes())?;
    state.past.mark_closed();
    Ok(Answer::Ended)
}

/// Writes the bytes of a frame to the screen, and records whether the cursor is hidden then. If the
/// screen breaks, the renderer ends.
fn send_frame<S: Screen>(screen: &mut S, past: &mut Past, frame: &[u8]) -> Result<(), Refusal>
    ensures begun { OnOk result (past.new ≡ begun past.old) }
    ensures written { OnOk result
        (WritesFrame frame.now (S.state screen.old) (S.state screen.new)) }
    ensures broken { OnErr result (past.new ≡ broken past.old) }
    ensures err { OnErr result (BreaksDuring frame.now (S.state screen.old) (S.state screen.new)) }
    ensures reason { IsOkUnless result Refusal.Broken }
{
    let written = write_frame(screen, frame);
    match written {
        Ok(()) => past.keep_cursor(),
        Err(_) => past.mark_broken(),
    }
    written
}
