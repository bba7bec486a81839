//! What the renderer keeps from frame to frame.
ghost use Rattle.std.specs.Prelude.{◌≡◌, Bool, List, Option, [], true, false, Some, IfSome, IfOk, IsOkUnless};
ghost use Rattle.prodash_base.specs.Rows.{PathRow, rows_of};
ghost use Rattle.prodash_base.specs.Timers.{timer_after};
ghost use Rattle.std.specs.Option.{option_map};
ghost use Rattle.prodash_line.specs.Renderer.{IsEndRefusal, new_renderer, rows_changed, draws_again, any_goes_on, times_go_on, is_drawn, erases_at_end, closes_at, hides_cursor, is_cursor_hidden, latest_rows, resized, tick_action, resize_action, answer_of};
ghost use Rattle.prodash_line.specs.plumbing.FrameWriting.{RowsStay, keeping, remembering};
ghost use Rattle.prodash_line.specs.plumbing.EarlierRows.{KeepsEarlier, KeepsLatest, LatestStay, SawThem, action_after, before_rows, drawn_after, rows_before, rows_seen};
ghost use Rattle.prodash_line.specs.plumbing.KeptLines.{AreAmong, drawn_in};
ghost use Rattle.prodash_line.specs.Tracking.{kept_of};
ghost use Rattle.prodash_base.specs.Rings.{keep_last};

use crate::render::line::draw::action::{Action, Composed, Drawn};
use crate::render::line::draw::earlier_rows::{Earlier, EarlierRows, SeenRows};
use crate::render::line::draw::input::{Answer, Options};
use crate::render::line::draw::latest_rows::{LatestRows, RowLine, RowsBefore};
use crate::render::line::draw::line_writer::LineWriter;
use crate::render::line::draw::row::is_row_drawn;
use prodash_base::Refusal;
use prodash_base::messages::{MessageCopyState, Messages};
use prodash_base::progress::{Level, Row, Rows, Step};
use prodash_base::throughput::FrameThroughput;
use prodash_base::time::Moment;
use prodash_base::timing::{Timer, goes_on};
use std::alloc::Global;
use std::marker::Model;

/// What the renderer keeps from frame to frame. Contracts see a `Renderer`.
///
/// ```rust
/// let state = State::new(alloc, options, false);
/// // Nothing was seen of the messages yet, so a first tick is given all that are kept.
/// let previous = state.seen();
/// // No frame is refused yet.
/// let refusal = state.ended();
/// ```
#[derive(Drop)]
pub struct State {
    pub(crate) past: Past,
    /// The bytes of a frame while it is composed. Each frame reuses its memory.
    pub(crate) frame: LineWriter,
    /// Measures throughput, if it is shown.
    pub(crate) tracker: Option<FrameThroughput>,
}

/// What the next frame is composed from. Contracts see a `Renderer` without a tracker.
#[derive(Drop)]
pub(crate) struct Past {
    pub(crate) options: Options,
    /// The width of each line on screen.
    pub(crate) widths: Vec<u16>,
    /// The greatest midpoint of the frame drawn last, 0 before the first.
    last_progress_midpoint: u16,
    /// The rows at the latest accepted tick with a root.
    last_rows: LatestRows,
    /// The rows that were remembered before those, kept only for their memory. Contracts don't see
    /// them.
    spare_rows: Option<Rows>,
    /// The steps that those rows had before, kept only for their memory. Contracts don't see them.
    spare_steps: Option<Vec<Step>>,
    /// The messages that were printed last, kept only for their memory. Contracts don't see them.
    spare_messages: Option<Messages>,
    /// The widths of the latest origins, at most as many as the terminal has rows.
    pub(crate) origin_widths: Vec<u16>,
    /// What the latest accepted tick with a root saw of the messages.
    seen: Option<MessageCopyState>,
    /// The timer of tasks after the latest accepted tick with a root, if times are shown.
    pub(crate) timer: Option<Timer>,
    /// Whether a frame has erased the rows of tasks since they were last drawn.
    rows_erased: bool,
    /// Whether a frame has hidden the cursor.
    cursor_hidden: bool,
    /// Why every further frame is refused, if so.
    ending: Option<Ending>,
}

/// Why every further frame is refused.
#[derive(Clone, Copy, Debug)]
pub(crate) enum Ending {
    /// The closing frame was written.
    Closed,
    /// The screen broke during a frame.
    Broken,
}

impl Ending {
    ghost use Rattle.prodash_line.specs.plumbing.Endings.{refusal_of};

    /// Returns the refusal of every further frame.
    fn refusal(self) -> Refusal
        ensures { result ≡ refusal_of self }
    {
        match self {
            Ending::Closed => Refusal::Closed,
            Ending::Broken => Refusal::Broken,
        }
    }
}

impl Model for Past {
    ghost use Rattle.std.specs.Prelude.{None};
    ghost use Rattle.std.specs.Option.{option_map};
    ghost use Rattle.prodash_line.specs.Renderer.{Renderer};
    ghost use Rattle.prodash_line.specs.plumbing.Endings.{refusal_of};
    ghost use Rattle.std.specs.Coded.{codes};
    ghost use Rattle.std.specs.FinMap as finite;

    ghost Value = { Renderer };

    ghost coded = { Prim.hlevel (codes, finite.code) };

    ghost view = { λ p. record {
      options = p.options;
      widths = p.widths.items;
      midpoint = p.last_progress_midpoint;
      last_rows = p.last_rows;
      origin_widths = p.origin_widths.items;
      seen = p.seen;
      tracker = None;
      timer = p.timer;
      rows_erased = p.rows_erased;
      cursor_hidden = p.cursor_hidden;
      ended = option_map refusal_of p.ending;
    } };
}

impl Model for State {
    ghost use Rattle.prodash_line.specs.Renderer.{Renderer};
    ghost use Rattle.prodash_line.specs.Tracking.{tracked};
    ghost use Rattle.std.specs.Coded.{codes};
    ghost use Rattle.std.specs.FinMap as finite;

    ghost Value = { Renderer };

    ghost coded = { Prim.hlevel (codes, finite.code) };

    ghost view = { λ s. tracked s.past s.tracker };
}

impl State {
    /// Returns the state of a renderer that has drawn nothing yet. If `throughput` is set, it
    /// measures throughput for the units that show it.
    pub fn new(alloc: Global, options: Options, throughput: bool) -> State
        ensures { result ≡ new_renderer options throughput }
    {
        State {
            past: Past::new(alloc, options),
            frame: LineWriter::new(alloc),
            tracker: if throughput {
                Some(FrameThroughput::new(alloc))
            } else {
                None
            },
        }
    }

    /// Returns an equal state.
    ///
    /// # Errors
    ///
    /// `Memory`: out of memory.
    pub fn deep_clone(&self, alloc: Global) -> Result<State, Refusal>
        ensures ok { IfOk result (λ copy. copy ≡ self.now) }
        ensures reason { IsOkUnless result Refusal.Memory }
    {
        Ok(State {
            past: self.past.deep_clone(alloc)?,
            frame: LineWriter::new(alloc),
            tracker: self.copied_tracker()?,
        })
    }

    /// Returns what the latest accepted tick with a root saw of the messages, `None` before the
    /// first. The next tick takes the messages that came since.
    pub fn seen(&self) -> Option<MessageCopyState>
        ensures { result ≡ self.now.seen }
    {
        self.past.seen
    }

    /// Returns the refusal of every further frame: `Closed` after a closing frame, `Broken` after
    /// the screen broke during a frame, `None` while frames are drawn.
    pub fn ended(&self) -> Option<Refusal>
        ensures value { result ≡ self.now.ended }
        ensures reason { IfSome result IsEndRefusal }
    {
        self.past.ended()
    }

    /// Returns the rows at the latest accepted tick with a root, `None` before the first.
    pub fn rows(&self) -> &Option<Rows>
        ensures { result.now ≡ self.now.last_rows }
    {
        self.past.last_rows.rows()
    }

    /// Takes rows that are no longer remembered and messages that have been printed, or empty lists
    /// if there are none. The rows and messages of the next tick may reuse their memory.
    pub fn take_spare(&mut self, alloc: Global) -> (Rows, Messages)
        ensures { self.new ≡ self.old }
    {
        let (rows, messages) = (self.past.spare_rows.take(), self.past.spare_messages.take());
        (
            rows.unwrap_or_else(|| Rows::new(Vec::new(alloc))),
            messages.unwrap_or_else(|| Messages::new(Vec::new(alloc))),
        )
    }

    /// Takes steps that are no longer remembered and messages that have been printed, or empty lists
    /// if there are none. The steps and messages of the next tick may reuse their memory.
    pub fn take_spare_steps(&mut self, alloc: Global) -> (Vec<Step>, Messages)
        ensures { self.new ≡ self.old }
    {
        let (steps, messages) = (
            self.past.spare_steps.take(),
            self.past.spare_messages.take(),
        );
        (
            steps.unwrap_or_else(|| Vec::new(alloc)),
            messages.unwrap_or_else(|| Messages::new(Vec::new(alloc))),
        )
    }

    /// Returns an equal tracker, if there is one.
    fn copied_tracker(&self) -> Result<Option<FrameThroughput>, Refusal>
        ensures ok { IfOk result (λ tracker. kept_of tracker ≡ self.now.tracker) }
        ensures reason { IsOkUnless result Refusal.Memory }
    {
        match &self.tracker {
            None => Ok(None),
            Some(tracker) => Ok(Some(tracker.copy()?)),
        }
    }
}

impl Past {
    /// Returns the renderer before its first frame.
    fn new(alloc: Global, options: Options) -> Past
        ensures { result ≡ new_renderer options false }
    {
        Past {
            options,
            widths: Vec::new(alloc),
            last_progress_midpoint: 0,
            last_rows: LatestRows::new(alloc, options, None),
            spare_rows: None,
            spare_steps: None,
            spare_messages: None,
            origin_widths: Vec::new(alloc),
            seen: None,
            timer: if options.times {
                Some(Timer::new(alloc))
            } else {
                None
            },
            rows_erased: false,
            cursor_hidden: false,
            ending: None,
        }
    }

    /// Returns an equal copy.
    fn deep_clone(&self, alloc: Global) -> Result<Past, Refusal>
        ensures ok { IfOk result (λ copy. copy ≡ self.now) }
        ensures reason { IsOkUnless result Refusal.Memory }
    {
        Ok(Past {
            options: self.options,
            widths: self.widths.clone()?,
            last_progress_midpoint: self.last_progress_midpoint,
            last_rows: LatestRows::new(alloc, self.options, self.last_rows.rows().clone()?),
            spare_rows: None,
            spare_steps: None,
            spare_messages: None,
            origin_widths: self.origin_widths.clone()?,
            seen: self.seen,
            timer: copied_timer(&self.timer)?,
            rows_erased: self.rows_erased,
            cursor_hidden: self.cursor_hidden,
            ending: self.ending,
        })
    }

    /// Returns the refusal of every further frame, if there is one.
    fn ended(&self) -> Option<Refusal>
        ensures value { result ≡ self.now.ended }
        ensures reason { IfSome result IsEndRefusal }
    {
        self.ending.map(Ending::refusal)
    }

    /// Remembers the rows that a tick sees. Returns what was remembered before.
    pub(crate) fn begin_tick(&mut self, alloc: Global, seen: SeenRows) -> Earlier
        ensures latest { self.new ≡ record self.old {
          last_rows = Some (rows_seen seen (latest_rows self.old.last_rows));
        } }
        ensures before { before_rows result.rows self.new ≡ self.old }
        ensures lines { KeepsEarlier result.rows result.kept (latest_rows self.new.last_rows) }
    {
        self.last_rows.begin(alloc, seen)
    }

    /// Remembers again what was remembered before the rows of a tick.
    pub(crate) fn take_back(&mut self, earlier: Earlier)
        requires some { self.old.last_rows ≡ Some (latest_rows self.old.last_rows) }
        requires lines { KeepsEarlier earlier.rows earlier.kept (latest_rows self.old.last_rows) }
        ensures { self.new ≡ before_rows earlier.rows self.old }
    {
        self.last_rows.take_back(earlier);
    }

    /// Whether a tick has to draw rows that haven't changed: its frame erases rows, and it prints
    /// messages or an earlier frame has erased the rows of tasks.
    fn draws_again(&self, printed: bool) -> bool
        ensures { result ≡ draws_again self.now printed }
    {
        self.options.erases_rows() && (printed || self.rows_erased)
    }

    /// Whether times go on: they are shown, and that of a row goes on that is drawn.
    fn times_go_on(&self) -> bool
        ensures { result ≡ times_go_on self.now.options (latest_rows self.now.last_rows) }
    {
        self.options.times && any_goes_on(self.options.level_filter, self.latest_rows())
    }

    /// Whether a tick draws the rows, before which these were remembered: they are shown on a
    /// terminal, and they have changed, their times go on, or they must be drawn again. `printed`
    /// says whether the tick prints messages.
    fn draws_rows(&self, earlier: &EarlierRows, show: bool, printed: bool) -> bool
        ensures { result ≡ drawn_after earlier.now self.now show printed }
    {
        show && self.options.output_is_terminal
            && (self.draws_again(printed) || self.times_go_on() || self.last_rows.differ(earlier))
    }

    /// Whether a tick that saw the rows closes the renderer: there are none, and the renderer isn't
    /// to keep running.
    fn closes_at(&self) -> bool
        ensures { result ≡ closes_at self.now (latest_rows self.now.last_rows) }
    {
        !self.options.keep_running_if_progress_is_empty && self.latest_rows().is_empty()
    }

    /// Returns what the frame of a tick does after its messages, if it saw the rows, before which
    /// these were remembered. `printed` says whether there are messages.
    pub(crate) fn tick_action(&self, earlier: &EarlierRows, show: bool, printed: bool) -> Action
        ensures { result ≡ action_after earlier.now self.now show printed }
    {
        if self.closes_at() {
            Action::Close
        } else if self.draws_rows(earlier, show, printed) {
            Action::Redraw
        } else if self.options.erases_rows() && printed {
            Action::Erase
        } else {
            Action::Leave
        }
    }

    /// Whether a tick with this action saw the rows of the tick before: it would draw others.
    pub(crate) fn rows_stay(&self, action: Action, show: bool) -> bool
        ensures { result ≡ true → SawThem action self.now show }
    {
        match action {
            Action::Leave => show && self.options.output_is_terminal,
            Action::Redraw | Action::Erase | Action::Close => false,
        }
    }

    /// Returns what the frame of a resize does: it draws the rows of the latest tick if rows are
    /// shown on a terminal.
    pub(crate) fn resize_action(&self, show: bool) -> Action
        ensures { result ≡ resize_action self.now show }
    {
        if show && self.options.output_is_terminal {
            Action::Redraw
        } else {
            Action::Leave
        }
    }

    /// Returns the greatest midpoint of the frame drawn last.
    pub(crate) fn midpoint(&self) -> u16
        ensures { result ≡ self.now.midpoint }
    {
        self.last_progress_midpoint
    }

    /// Whether the next frame hides the cursor: no frame has, and it is to be hidden on a terminal.
    pub(crate) fn hides_cursor(&self) -> bool
        ensures { result ≡ hides_cursor self.now }
    {
        self.options.hide_cursor && self.options.output_is_terminal && !self.cursor_hidden
    }

    /// Whether the cursor is hidden once the next frame has begun.
    pub(crate) fn is_cursor_hidden(&self) -> bool
        ensures { result ≡ is_cursor_hidden self.now }
    {
        self.cursor_hidden || self.hides_cursor()
    }

    /// Whether the rows of tasks have been erased since they were last drawn.
    pub(crate) fn rows_erased(&self) -> bool
        ensures { result ≡ self.now.rows_erased }
    {
        self.rows_erased
    }

    /// Whether a closing frame erases the row in which the first line on screen was.
    pub(crate) fn erases_at_end(&self) -> bool
        ensures { result ≡ erases_at_end self.now.options }
    {
        self.options.output_is_terminal && !self.options.defensive
    }

    /// Returns the timer after a tick that has seen these rows, if times are shown.
    pub(crate) fn timer_after(
        &self,
        alloc: Global,
        at: Moment,
        rows: &[Row],
    ) -> Result<Option<Timer>, Refusal>
        ensures ok { IfOk result (λ timer. timer
            ≡ option_map (λ t. timer_after t at (rows_of rows.now)) self.now.timer) }
        ensures reason { IsOkUnless result Refusal.Memory }
    {
        match &self.timer {
            None => Ok(None),
            Some(timer) => Ok(Some(timer.after(alloc, at, rows)?)),
        }
    }

    /// Returns the rows at the latest accepted tick with a root.
    pub(crate) fn latest_rows(&self) -> &[Row]
        ensures { rows_of result.now ≡ latest_rows self.now.last_rows }
    {
        self.last_rows.as_slice()
    }

    /// Returns the rows that were remembered before those of a tick, none if there weren't any.
    pub(crate) fn rows_before<'a>(&'a self, earlier: &'a EarlierRows) -> RowsBefore<'a>
        ensures { drawn_in result
            ≡ latest_rows (rows_before earlier.now (latest_rows self.now.last_rows)) }
    {
        self.last_rows.rows_before(earlier)
    }

    /// Records whether the cursor is hidden once a frame is written.
    pub(crate) fn keep_cursor(&mut self)
        ensures { self.new ≡ record self.old { cursor_hidden = is_cursor_hidden self.old } }
    {
        self.cursor_hidden = self.is_cursor_hidden();
    }

    /// Records what the written frame of a tick left, and what the tick saw of the tree besides the
    /// rows: messages, which are printed now. A closing frame ends the renderer. Returns the answer
    /// to the tick.
    pub(crate) fn remember_tick(
        &mut self,
        frame: Composed,
        bytes: &mut LineWriter,
        earlier: Earlier,
        messages: Messages,
        seen: MessageCopyState,
    ) -> Answer
        requires some { self.old.last_rows ≡ Some (latest_rows self.old.last_rows) }
        requires lines { KeepsLatest self.old bytes.old frame.drawn }
        requires rows { LatestStay self.old earlier.rows frame }
        requires earlier { KeepsEarlier earlier.rows earlier.kept
            (latest_rows self.old.last_rows) }
        ensures state { self.new
            ≡ remembering frame (latest_rows self.old.last_rows) seen self.old }
        ensures answer { result ≡ answer_of frame.drawn.action }
    {
        let (action, rows_stay) = (frame.drawn.action, frame.rows_stay);
        let midpoint = self.midpoint();
        let lines = self.keep_drawn(frame.drawn);
        self.keep_rows(rows_stay, earlier, midpoint, lines, bytes);
        self.spare_messages = Some(messages);
        self.origin_widths = frame.origin_widths;
        self.seen = Some(seen);
        self.timer = frame.timer;
        match action {
            Action::Close => {
                self.ending = Some(Ending::Closed);
                Answer::Ended
            }
            Action::Leave | Action::Redraw | Action::Erase => Answer::Drawn,
        }
    }

    /// Keeps the lines of the frame of a tick, in which values are brought to this midpoint. If
    /// `rows_stay`, the rows are those that were remembered before, and their lines are kept.
    fn keep_rows(
        &mut self,
        rows_stay: bool,
        earlier: Earlier,
        midpoint: u16,
        lines: Vec<RowLine>,
        frame: &mut LineWriter,
    )
        requires rows { rows_stay ≡ true
            → (before_rows earlier.rows self.old).last_rows ≡ self.old.last_rows }
        requires earlier { KeepsEarlier earlier.rows earlier.kept
            (latest_rows self.old.last_rows) }
        requires lines { AreAmong self.old.options midpoint (latest_rows self.old.last_rows)
            frame.old.bytes lines.items }
        ensures { self.new ≡ self.old }
    {
        let before = if rows_stay {
            self.last_rows.keep_earlier(earlier)
        } else {
            self.last_rows
                .keep_lines(self.options, midpoint, lines, frame);
            earlier.into_rows()
        };
        match before {
            EarlierRows::Others(rows) => self.spare_rows = rows,
            EarlierRows::Same(steps) => {
                self.spare_rows = None;
                self.spare_steps = Some(steps);
            }
        }
    }

    /// Records what the body of a written frame left. Returns its lines that the next frame may copy.
    fn keep_drawn(&mut self, drawn: Drawn) -> Vec<RowLine>
        ensures state { self.new ≡ keeping drawn self.old }
        ensures lines { result ≡ drawn.lines }
    {
        self.widths = drawn.widths;
        self.last_progress_midpoint = drawn.midpoint;
        self.rows_erased = drawn.rows_erased;
        drawn.lines
    }

    /// Sets the size of the terminal, and records what the written frame left.
    pub(crate) fn set_size(&mut self, size: (u16, u16), drawn: Drawn)
        ensures { self.new ≡ keeping drawn (resized self.old size.0 size.1) }
    {
        self.options.terminal_dimensions = size;
        self.keep_drawn(drawn);
        self.last_rows.forget_lines();
        keep_latest(&mut self.origin_widths, usize::from(size.1));
    }

    /// Ends the renderer after its closing frame, which leaves no line on screen.
    pub(crate) fn mark_closed(&mut self)
        ensures { self.new ≡ record self.old { widths = []; ended = Some Refusal.Closed } }
    {
        self.widths.clear();
        self.ending = Some(Ending::Closed);
    }

    /// Ends the renderer after the screen broke.
    pub(crate) fn mark_broken(&mut self)
        ensures { self.new ≡ record self.old { ended = Some Refusal.Broken } }
    {
        self.ending = Some(Ending::Broken);
    }
}

/// Returns an equal timer, if there is one.
fn copied_timer(timer: &Option<Timer>) -> Result<Option<Timer>, Refusal>
    ensures ok { IfOk result (λ copy. copy ≡ timer.now) }
    ensures reason { IsOkUnless result Refusal.Memory }
{
    match timer {
        None => Ok(None),
        Some(timer) => Ok(Some(timer.copy()?)),
    }
}

/// Returns whether the time of a row goes on that the filter of levels lets through.
fn any_goes_on(levels: Option<(Level, Level)>, rows: &[Row]) -> bool
    ensures { result ≡ any_goes_on levels (rows_of rows.now) }
{
    for row in rows {
        if is_row_drawn(levels, row) && goes_on(row) {
            return true;
        }
    }
    false
}

/// Removes all widths but the last `count`.
pub(crate) fn keep_latest(widths: &mut Vec<u16>, count: usize)
    ensures { widths.new.items ≡ keep_last count widths.old.items }
{
    let gone = widths.len().saturating_sub(count);
    let left = widths.len() - gone;
    // a drain would clear a buffer of its own first
    widths.copy_within(gone.., 0);
    widths.truncate(left);
}
