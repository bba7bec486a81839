//! The engine of a dashboard: each event is handed to it, and draws a frame of what its root shows
//! then if that changes what is to be seen.
ghost use Rattle.std.specs.Prelude.{◌≡◌, true, false, not, ◌&&◌, nat_eq, length, None, IfOk, IfErr, OnOk, OnErr, IsOkUnless};
ghost use Rattle.std.specs.Map.{keys_of};
ghost use Rattle.prodash_base.specs.Adjacency.{IsAscending};
ghost use Rattle.prodash_base.specs.Refusals.{RefusesHandle};
ghost use Rattle.prodash_tui.specs.Boards.{is_closed, is_running};
ghost use Rattle.prodash.specs.DashboardEngines.{EngineSees, EngineSteps, IsNewEngine, moment_of, told};
ghost use Rattle.prodash.specs.plumbing.DashboardSteps.{EngineDoes, EngineHasLeft, EngineLeaves, EngineShows, KeepsRest, sized};

use crate::messages::{MessageCopyState, Messages};
use crate::progress::Rows;
use crate::render::line::draw::Screen;
use crate::render::tui::engine::event::{EngineAnswer, EngineEvent};
use crate::render::tui::{Answer, Contents, Dashboard, Options};
use crate::time::{Moment, format_now_datetime_seconds};
use prodash_base::Refusal;
use prodash_core::traits::{Root, WeakRoot};
use prodash_line::render::line::draw::write_frame;
use std::alloc::Global;
use std::marker::Model;

/// Draws the dashboard of the tree that a weak root finds. Contracts see the dashboard, its screen
/// and the weak root. A function that steps an engine is generic over the type of the weak root.
///
/// ```rust
/// fn last_frame<W: WeakRoot + Drop>(
///     alloc: Global,
///     weak: W,
///     options: Options,
/// ) -> Result<(), Refusal>
/// where
///     W::Root: Root + Drop,
/// {
///     let screen = MemoryScreen::new(alloc, 4096)?;
///     let mut engine = Engine::new(alloc, screen, weak, options, (80, 24));
///     engine.step(EngineEvent::Handle { at: 0, event: Event::Tick })?;
///     engine.step(EngineEvent::Quit { at: 1 })?;
///     let bytes = engine.screen().bytes();
///     // ..
/// }
/// ```
#[derive(Drop)]
pub struct Engine<S: Screen, W: WeakRoot> {
    alloc: Global,
    dashboard: Dashboard,
    /// The columns and rows of the terminal that the dashboard is to take before its next frame.
    size: Option<(u16, u16)>,
    /// Whether the dashboard is left once there are no rows.
    stops_without_rows: bool,
    screen: S,
    weak: W,
    /// The bytes of a frame while it is written. Each frame reuses its memory.
    bytes: Vec<u8>,
    /// The rows and messages of the latest look, kept only for their memory.
    spare: Option<(Rows, Messages)>,
}

impl<S: Screen, W: WeakRoot> Model for Engine<S, W> {
    ghost use Rattle.std.specs.Coded.{codes};
    ghost use Rattle.std.specs.FinMap as finite;
    ghost use Rattle.prodash.specs.DashboardEngines.{DashboardEngine};
    ghost use Rattle.prodash.specs.plumbing.DashboardSteps.{sized};

    ghost Value = { DashboardEngine S W };

    ghost coded = { Prim.hlevel (codes, finite.code) };

    ghost view = { λ e. record {
      board = sized e.size e.dashboard;
      stops_without_rows = e.stops_without_rows;
      screen = e.screen;
      weak = e.weak;
    } };
}

impl<S: Screen, W: WeakRoot> Engine<S, W>
where
    W::Root: Root + Drop,
{
    /// Returns an engine that has drawn nothing yet, on a terminal of so many columns and rows. It
    /// takes no memory.
    pub fn new(
        alloc: Global,
        screen: S,
        weak: W,
        options: Options,
        size: (u16, u16),
    ) -> Engine<S, W>
        ensures { IsNewEngine options size screen weak result }
    {
        let stops_without_rows = options.stop_if_progress_missing;
        let (columns, rows) = size;
        Engine {
            alloc,
            dashboard: Dashboard::new(alloc, options, columns, rows),
            size: None,
            stops_without_rows,
            screen,
            weak,
            bytes: Vec::new(alloc),
            spare: None,
        }
    }

    /// Returns the screen.
    pub fn screen(&self) -> &S
        ensures { result.now ≡ self.now.screen }
    {
        &self.screen
    }

    /// Takes an event, and then draws a frame, does nothing, or leaves the terminal.
    ///
    /// An event is handed to the dashboard, and a size set, also if the frame is refused: the next
    /// frame shows it. A frame has the rows and all messages of the root that are kept, of one look
    /// at it. Without a root the dashboard leaves the terminal instead, and so it does without rows
    /// if it is to stop then. If the dashboard has stopped, each event makes it leave the terminal.
    ///
    /// # Errors
    ///
    /// - `Closed`: the terminal was left. `Broken`: the screen broke during an earlier frame. Every
    ///   further event is refused with the same, before anything else is tried.
    /// - `Memory`: out of memory. `TooManyHandles`: a frame can't own the root, which has 2^64 - 1
    ///   owners. Nothing is written, and the dashboard is as the event has left it.
    /// - `Broken`: the screen broke during this frame, after it took a prefix of it.
    #[tactic(auto, using(crate::proofs::DashboardSteps::stepping))]
    pub fn step(&mut self, event: EngineEvent) -> Result<EngineAnswer, Refusal>
        ensures step { EngineSteps S.state W.finds W.Root.looks self.old event result self.new }
        ensures weak { self.new.weak ≡ self.old.weak }
        ensures stops { self.new.stops_without_rows ≡ self.old.stops_without_rows }
    {
        if self.screen.is_broken() {
            return Err(Refusal::Broken);
        }
        let at = moment_of(&event);
        match self.take(event) {
            Answer::Redraw => self.draw(at),
            Answer::Skip => Ok(EngineAnswer::Skipped),
            Answer::Stop => self.close(),
        }
    }

    /// Has the dashboard take an event or a size, and returns what to do then.
    #[tactic(auto, using(crate::proofs::DashboardSteps::telling))]
    fn take(&mut self, event: EngineEvent) -> Answer
        ensures told { (self.new.board, result) ≡ told self.old.board event }
        ensures screen { self.new.screen ≡ self.old.screen }
        ensures rest { KeepsRest self.old self.new }
    {
        match event {
            EngineEvent::Handle { event, .. } => self.dashboard.handle(event),
            EngineEvent::Resize { columns, rows, .. } => {
                if !self.dashboard.is_running() {
                    return Answer::Stop;
                }
                self.size = Some((columns, rows));
                Answer::Redraw
            }
            EngineEvent::Quit { .. } => Answer::Stop,
        }
    }

    /// Looks at the root, and draws a frame of what it shows, or leaves the terminal if that calls
    /// for it.
    #[tactic(auto, using(crate::proofs::DashboardSteps::drawing))]
    fn draw(&mut self, at: Moment) -> Result<EngineAnswer, Refusal>
        requires running { is_running self.old.board ≡ true }
        ensures frame { EngineDoes S.state W.finds W.Root.looks Answer.Redraw at
            self.old result self.new }
        ensures rest { KeepsRest self.old self.new }
    {
        let Some((rows, messages, _)) = self.look()? else {
            return self.close();
        };
        if !self.is_shown(&rows) {
            return self.close();
        }
        let answer = self.draw_frame(at, &rows, &messages);
        self.spare = Some((rows, messages));
        answer
    }

    /// Returns whether a frame shows these rows: it isn't to stop without rows, or there are any.
    fn is_shown(&self, rows: &Rows) -> bool
        ensures { not result
            ≡ (self.now.stops_without_rows && nat_eq (length rows.now) 0) }
    {
        !(self.stops_without_rows && rows.as_slice().is_empty())
    }

    /// Looks at the root: returns its rows, all messages that are kept, and the number of messages
    /// that were sent; or `None` if there is no root.
    fn look(&mut self) -> Result<Option<(Rows, Messages, MessageCopyState)>, Refusal>
        ensures ok { IfOk result (EngineSees W.finds W.Root.looks self.old) }
        ensures kept { self.new ≡ self.old }
        ensures reason { IfErr result RefusesHandle }
    {
        let Some(root) = self.weak.upgrade()? else {
            return Ok(None);
        };
        let spare = self.take_spare();
        let seen = root.look(self.alloc, spare, None)?;
        Ok(Some(seen))
    }

    /// Takes the lists of an earlier look, or empty ones if there are none.
    fn take_spare(&mut self) -> (Rows, Messages)
        ensures { self.new ≡ self.old }
    {
        let alloc = self.alloc;
        self.spare.take().unwrap_or_else(|| {
            (Rows::new(Vec::new(alloc)), Messages::new(Vec::new(alloc)))
        })
    }

    /// Draws a frame of these rows and messages, in the latest size of the terminal.
    #[tactic(auto, using(crate::proofs::DashboardSteps::writing))]
    fn draw_frame(
        &mut self,
        at: Moment,
        rows: &Rows,
        messages: &Messages,
    ) -> Result<EngineAnswer, Refusal>
        requires running { is_running self.old.board ≡ true }
        requires sorted { IsAscending (keys_of rows.now) }
        ensures frame { EngineShows S.state self.old at rows.now messages.now result self.new }
        ensures rest { KeepsRest self.old self.new }
    {
        take_size(self.alloc, &mut self.dashboard, &mut self.size)?;
        let time = format_now_datetime_seconds(self.alloc, at)?;
        let contents = Contents {
            rows: rows.as_slice(),
            messages: messages.as_slice(),
            at,
            time: &time,
        };
        self.bytes.clear();
        self.dashboard.draw(self.alloc, &contents, &mut self.bytes)?;
        write_frame(&mut self.screen, &self.bytes)?;
        Ok(EngineAnswer::Drawn)
    }

    /// Leaves the terminal, unless it was left already.
    #[tactic(auto, using(crate::proofs::DashboardSteps::writing))]
    fn close(&mut self) -> Result<EngineAnswer, Refusal>
        ensures leaves { is_closed self.old.board ≡ false
            → EngineLeaves S.state self.old result self.new }
        ensures again { is_closed self.old.board ≡ true
            → EngineHasLeft S.state self.old result self.new }
        ensures rest { KeepsRest self.old self.new }
    {
        self.bytes.clear();
        self.dashboard.close(&mut self.bytes)?;
        write_frame(&mut self.screen, &self.bytes)?;
        Ok(EngineAnswer::Ended)
    }
}

/// Returns the moment of an event.
fn moment_of(event: &EngineEvent) -> Moment
    ensures { result ≡ moment_of event.now }
{
    match event {
        EngineEvent::Handle { at, .. }
        | EngineEvent::Resize { at, .. }
        | EngineEvent::Quit { at } => *at,
    }
}

/// Has a dashboard take a size, if there is one that it is to take.
///
/// `Memory`: out of memory. It is still to take the size then.
fn take_size(
    alloc: Global,
    dashboard: &mut Dashboard,
    size: &mut Option<(u16, u16)>,
) -> Result<(), Refusal>
    requires running { is_running dashboard.old ≡ true }
    ensures ok { OnOk result (dashboard.new ≡ sized size.old dashboard.old) }
    ensures taken { OnOk result (size.new ≡ None) }
    ensures err { OnErr result (dashboard.new ≡ dashboard.old) }
    ensures stays { OnErr result (size.new ≡ size.old) }
    ensures reason { IsOkUnless result Refusal.Memory }
{
    if let Some((columns, rows)) = *size {
        dashboard.resize(alloc, columns, rows)?;
        *size = None;
    }
    Ok(())
}
