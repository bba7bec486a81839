//! A dashboard on a terminal: its state, and the frames that show it.
ghost use Rattle.std.specs.Prelude.{◌≡◌, true, false, [], ◌++◌, Err, IfOk, IsOkUnless, OnErr, OnOk};
ghost use Rattle.prodash_base.specs.Adjacency.{IsAscending, paths_of};
ghost use Rattle.prodash_tui.specs.Grids.{blank_sheet};
ghost use Rattle.prodash_tui.specs.Screens.{drawn, enter, frame};
ghost use Rattle.prodash_tui.specs.Boards.{after_frame, area_of, closed, closing, counted, first_state, frame_signs, framed, handled, input_of, is_closed, is_measured, is_running, new_board, resized, tree_in_frame};
ghost use Rattle.prodash_tui.specs.plumbing.Appended.{Spells};
ghost use Rattle.prodash_tui.specs.plumbing.BoardParts.{OnlyScrolls, first_buffers, shown_on, signs_on};

mod contents;
mod phase;
mod tracker;

use crate::draw::Input;
use crate::draw::all::all;
use crate::grid::Grid;
use crate::screen::Screen;
pub use contents::Contents;
pub(crate) use phase::Phase;
use prodash_base::Refusal;
use prodash_base::throughput::FrameThroughput;
use prodash_base::unit::display::Throughput;
use prodash_core::render::tui::{Answer, Event, Options, Rect, State};
use std::alloc::Global;
use std::marker::Model;
use tracker::{keep, observe};

/// A dashboard on a terminal. It takes events, and appends the bytes of its frames to a buffer. The
/// first frame enters the alternate screen, and `close` leaves it.
///
/// ```rust
/// let mut dashboard = Dashboard::new(alloc, options, 80, 24);
/// dashboard.draw(alloc, &contents, &mut bytes)?;
/// let answer = dashboard.handle(Event::Input(key));
/// dashboard.close(&mut bytes)?;
/// ```
#[derive(Drop)]
pub struct Dashboard {
    state: State,
    width: u16,
    height: u16,
    /// The alternate screen, once it was entered.
    screen: Option<Screen>,
    /// The grid of the next frame, once there was one. What it holds is written over.
    spare: Option<Grid>,
    /// Memory for texts, which is written over.
    text: String,
    /// How many columns the tree is taken to have; 0 if that isn't known.
    tree_columns: u16,
    /// How many frames were drawn.
    frames: usize,
    nanoseconds_per_frame: u64,
    recompute_column_width_every_nth_frame: Option<usize>,
    /// Measures throughput, if it is shown.
    tracker: Option<FrameThroughput>,
    /// Memory for the throughputs of rows, which is written over.
    rates: Vec<Option<Throughput>>,
    phase: Phase,
}

impl Model for Dashboard {
    ghost use Rattle.std.specs.Coded.{codes};
    ghost use Rattle.std.specs.FinMap as finite;
    ghost use Rattle.prodash_line.specs.Tracking.{kept_of};
    ghost use Rattle.prodash_tui.specs.Boards.{Board};

    ghost Value = { Board };

    ghost coded = { Prim.hlevel (codes, finite.code) };

    ghost view = { λ s. record {
      state = s.state;
      width = s.width;
      height = s.height;
      screen = s.screen;
      tree_columns = s.tree_columns;
      frames = s.frames;
      nanoseconds_per_frame = s.nanoseconds_per_frame;
      every_nth_frame = s.recompute_column_width_every_nth_frame;
      tracker = kept_of s.tracker;
      phase = s.phase;
    } };
}

/// Enters the alternate screen and draws a grid on it. Returns that screen.
///
/// `Memory`: out of memory. The buffer is then as it was.
fn open(alloc: Global, grid: &mut Grid, out: &mut Vec<u8>) -> Result<Screen, Refusal>
    ensures ok { Spells result out.old.items (enter ++ frame (first_buffers grid.old))
        out.new.items }
    ensures screen { IfOk result (λ screen. screen ≡ drawn (first_buffers grid.old)) }
    ensures err { OnErr result (out.new.items ≡ out.old.items) }
    ensures reason { IsOkUnless result Refusal.Memory }
{
    let mut screen = Screen::new(alloc, grid.width(), grid.height())?;
    let length = out.len();
    screen.enter(out)?;
    let drawn = screen.draw_grid(grid, out);
    if drawn.is_err() {
        out.truncate(length);
    }
    drawn?;
    Ok(screen)
}

/// Appends what shows a grid. Before the first one the alternate screen is entered. The grid may
/// then be another one.
///
/// `Memory`: out of memory. The buffer and the screen are then as they were.
fn show(
    alloc: Global,
    screen: &mut Option<Screen>,
    grid: &mut Grid,
    out: &mut Vec<u8>,
) -> Result<(), Refusal>
    ensures ok { Spells result out.old.items (signs_on screen.old grid.old) out.new.items }
    ensures shown { OnOk result (screen.new ≡ shown_on screen.old grid.old) }
    ensures err { OnErr result (out.new.items ≡ out.old.items) }
    ensures stays { OnErr result (screen.new ≡ screen.old) }
    ensures reason { IsOkUnless result Refusal.Memory }
{
    match screen {
        Some(screen) => screen.draw_grid(grid, out),
        None => {
            *screen = Some(open(alloc, grid, out)?);
            Ok(())
        }
    }
}

/// Returns whether the tree is measured in the frame of this number, if it has so many columns.
fn is_measured(every: Option<usize>, number: usize, columns: u16) -> bool
    ensures { result ≡ is_measured every number columns }
{
    let interval = every.unwrap_or(1).max(1);
    number == 1 || number % interval == 0 || columns == 0
}

impl Dashboard {
    /// Returns a dashboard with the title, the window size and the intervals of these options, on a
    /// terminal of so many columns and rows. Nothing is scrolled or hidden. It takes no memory. If
    /// `throughput` is set, it measures the throughput of tasks, and shows it of those whose unit
    /// shows one.
    ///
    /// What `stop_if_progress_missing` says is up to the caller.
    pub fn new(alloc: Global, options: Options, width: u16, height: u16) -> Dashboard
        ensures dashboard { result ≡ new_board options result.state width height }
        ensures state { result.state ≡ first_state options result.state.information }
        ensures information { result.state.information.items ≡ [] }
    {
        let mut state = State::new(alloc, options.title);
        state.window_size = options.window_size;
        Dashboard {
            state,
            width,
            height,
            screen: None,
            spare: None,
            text: String::new(alloc),
            tree_columns: 0,
            frames: 0,
            nanoseconds_per_frame: options.nanoseconds_per_frame,
            recompute_column_width_every_nth_frame: options.recompute_column_width_every_nth_frame,
            tracker: if options.throughput {
                Some(FrameThroughput::new(alloc))
            } else {
                None
            },
            rates: Vec::new(alloc),
            phase: Phase::Running,
        }
    }

    /// Returns whether it is running: it has not stopped, and was not closed.
    pub fn is_running(&self) -> bool
        ensures { result ≡ is_running self.now }
    {
        match self.phase {
            Phase::Running => true,
            Phase::Stopped | Phase::Closed => false,
        }
    }

    /// Returns whether it was closed.
    fn is_closed(&self) -> bool
        ensures { result ≡ is_closed self.now }
    {
        match self.phase {
            Phase::Running | Phase::Stopped => false,
            Phase::Closed => true,
        }
    }

    /// Handles an event as `State::handle` does, and returns what to do next. It stops if that is
    /// `Stop`. If it isn't running, the answer is `Stop`, and nothing changes.
    pub fn handle(&mut self, event: Event) -> Answer
        ensures { (self.new, result) ≡ handled self.old event }
    {
        if !self.is_running() {
            return Answer::Stop;
        }
        let answer = self.state.handle(event);
        match answer {
            Answer::Redraw | Answer::Skip => {}
            Answer::Stop => self.phase = Phase::Stopped,
        }
        answer
    }

    /// Takes the size of the terminal as changed. The next frame is written whole.
    ///
    /// `Closed`: it isn't running. `Memory`: out of memory. The dashboard is then as it was.
    pub fn resize(&mut self, alloc: Global, width: u16, height: u16) -> Result<(), Refusal>
        ensures ok { OnOk result (self.new ≡ resized width height self.old) }
        ensures err { OnErr result (self.new ≡ self.old) }
        ensures running { is_running self.old ≡ true → IsOkUnless result Refusal.Memory }
        ensures ended { is_running self.old ≡ false → result ≡ Err Refusal.Closed }
    {
        if !self.is_running() {
            return Err(Refusal::Closed);
        }
        if let Some(screen) = &mut self.screen {
            screen.resize(alloc, width, height)?;
        }
        self.width = width;
        self.height = height;
        Ok(())
    }

    /// Returns what a frame draws.
    fn input<'a>(&self, contents: &Contents<'a>) -> Input<'a>
        ensures { result ≡ input_of self.now contents.now }
    {
        Input {
            rows: contents.rows,
            messages: contents.messages,
            nanoseconds_per_frame: self.nanoseconds_per_frame,
            at: contents.at,
            time: contents.time,
            tree_columns: self.tree_columns,
        }
    }

    /// Returns the part of the terminal that it fills.
    fn area(&self) -> Rect
        ensures { result ≡ area_of self.now }
    {
        let terminal = Rect {
            x: 0,
            y: 0,
            width: self.width,
            height: self.height,
        };
        self.state.window_size.unwrap_or(terminal)
    }

    /// Returns a blank grid of the size of the terminal: the one that is kept, if it has that size.
    ///
    /// `Memory`: out of memory.
    fn take_grid(&mut self, alloc: Global) -> Result<Grid, Refusal>
        ensures ok { IfOk result (λ grid. grid ≡ blank_sheet self.old.width self.old.height) }
        ensures same { self.new ≡ self.old }
        ensures reason { IsOkUnless result Refusal.Memory }
    {
        if let Some(mut grid) = self.spare.take() {
            if grid.width() == self.width && grid.height() == self.height {
                grid.clear();
                return Ok(grid);
            }
        }
        Grid::new(alloc, self.width, self.height)
    }

    /// Draws the next frame on a blank grid, which is then kept for the frame after it. What the
    /// frame has observed is kept once it is shown.
    ///
    /// `Memory`: out of memory. The buffer is then as it was, and so is the dashboard but for its
    /// offsets.
    fn draw_on(
        &mut self,
        alloc: Global,
        contents: &Contents<'_>,
        grid: &mut Grid,
        out: &mut Vec<u8>,
    ) -> Result<u16, Refusal>
        requires sorted { IsAscending (paths_of contents.now.rows.now) }
        requires blank { grid.old ≡ blank_sheet self.old.width self.old.height }
        ensures ok { Spells result out.old.items (frame_signs self.old contents.now)
            out.new.items }
        ensures drawn { OnOk result (self.new ≡ framed self.old contents.now) }
        ensures tree { IfOk result (λ n. n ≡ tree_in_frame self.old contents.now) }
        ensures err { OnErr result (out.new.items ≡ out.old.items) }
        ensures stays { OnErr result (OnlyScrolls self.old self.new) }
        ensures reason { IsOkUnless result Refusal.Memory }
    {
        let (rows, at) = (contents.rows, contents.at);
        observe(alloc, &mut self.tracker, at, rows, &mut self.rates)?;
        let input = self.input(contents);
        let area = self.area();
        let columns = all(
            alloc,
            &mut self.text,
            &mut self.state,
            &input,
            &self.rates,
            area,
            grid,
        )?;
        show(alloc, &mut self.screen, grid, out)?;
        keep(&mut self.tracker, rows);
        Ok(columns)
    }

    /// Draws the next frame on a grid of its own, so that a refused one leaves the screen as it
    /// was. Returns how many columns the tree has in it. After the first frame no grid is made.
    ///
    /// `Memory`: out of memory. The buffer is then as it was, and so is the dashboard but for its
    /// offsets.
    fn draw_frame(
        &mut self,
        alloc: Global,
        contents: &Contents<'_>,
        out: &mut Vec<u8>,
    ) -> Result<u16, Refusal>
        requires sorted { IsAscending (paths_of contents.now.rows.now) }
        ensures ok { Spells result out.old.items (frame_signs self.old contents.now)
            out.new.items }
        ensures drawn { OnOk result (self.new ≡ framed self.old contents.now) }
        ensures tree { IfOk result (λ n. n ≡ tree_in_frame self.old contents.now) }
        ensures err { OnErr result (out.new.items ≡ out.old.items) }
        ensures stays { OnErr result (OnlyScrolls self.old self.new) }
        ensures reason { IsOkUnless result Refusal.Memory }
    {
        let mut grid = self.take_grid(alloc)?;
        let drawn = self.draw_on(alloc, contents, &mut grid, out);
        self.spare = Some(grid);
        drawn
    }

    /// Counts a frame in which the tree has so many columns.
    fn count(&mut self, columns: u16)
        ensures { self.new ≡ counted columns self.old }
    {
        self.frames = self.frames.saturating_add(1);
        if is_measured(
            self.recompute_column_width_every_nth_frame,
            self.frames,
            columns,
        ) {
            self.tree_columns = columns;
        }
    }

    /// Appends the bytes of the next frame: what shows the state and the contents in the window
    /// size that was set, or on the whole terminal. Before the first frame the alternate screen is
    /// entered. The rows must be in strictly ascending order of their keys, as those of a snapshot
    /// are.
    ///
    /// If throughput is shown, each frame observes the steps of all rows, and those that are gone
    /// are forgotten.
    ///
    /// `Closed`: it isn't running. `Memory`: out of memory. The buffer and the dashboard are then
    /// as they were: the frame counts as not drawn, its rows as not observed, and what the terminal
    /// shows as before.
    pub fn draw(
        &mut self,
        alloc: Global,
        contents: &Contents<'_>,
        out: &mut Vec<u8>,
    ) -> Result<(), Refusal>
        requires sorted { IsAscending (paths_of contents.now.rows.now) }
        ensures ok { Spells result out.old.items (frame_signs self.old contents.now)
            out.new.items }
        ensures drawn { OnOk result (self.new ≡ after_frame self.old contents.now) }
        ensures err { OnErr result (out.new.items ≡ out.old.items) }
        ensures stays { OnErr result (self.new ≡ self.old) }
        ensures running { is_running self.old ≡ true → IsOkUnless result Refusal.Memory }
        ensures ended { is_running self.old ≡ false → result ≡ Err Refusal.Closed }
    {
        if !self.is_running() {
            return Err(Refusal::Closed);
        }
        let (tasks, messages) = (self.state.task_offset, self.state.message_offset);
        match self.draw_frame(alloc, contents, out) {
            Ok(columns) => {
                self.count(columns);
                Ok(())
            }
            Err(why) => {
                self.state.task_offset = tasks;
                self.state.message_offset = messages;
                Err(why)
            }
        }
    }

    /// Appends what shows the main screen again as it was, if the alternate one was entered. From
    /// now on every call is refused, and the answer to an event is `Stop`.
    ///
    /// `Closed`: it was closed already. `Memory`: out of memory. The buffer and the dashboard are
    /// then as they were.
    pub fn close(&mut self, out: &mut Vec<u8>) -> Result<(), Refusal>
        ensures ok { Spells result out.old.items (closing self.old.screen) out.new.items }
        ensures closed { OnOk result (self.new ≡ closed self.old) }
        ensures err { OnErr result (out.new.items ≡ out.old.items) }
        ensures stays { OnErr result (self.new ≡ self.old) }
        ensures once { is_closed self.old ≡ false → IsOkUnless result Refusal.Memory }
        ensures again { is_closed self.old ≡ true → result ≡ Err Refusal.Closed }
    {
        if self.is_closed() {
            return Err(Refusal::Closed);
        }
        if let Some(screen) = &mut self.screen {
            screen.leave(out)?;
        }
        self.screen = None;
        self.spare = None;
        self.phase = Phase::Closed;
        Ok(())
    }
}
