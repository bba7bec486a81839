//! The engine: each event draws one frame of what its root shows then.
ghost use Rattle.std.specs.Prelude.{◌≡◌, None, IfOk, IsOkUnless};
ghost use Rattle.prodash.specs.Engines.{EngineSteps, new_engine};
ghost use Rattle.prodash.specs.plumbing.EngineFrames.{EngineRenders, SeesRoot, SeesSteps};
ghost use Rattle.prodash_line.specs.plumbing.EarlierRows.{steps_tick};

mod audited;

use crate::messages::{MessageCopyState, Messages};
use crate::progress::{Rows, Step};
use crate::render::line::draw::{self, Answer, Input, Screen};
use crate::render::line::engine::event::EngineEvent;
use crate::time::Moment;
use prodash_base::Refusal;
use prodash_core::traits::{Root, WeakRoot};
use std::alloc::Global;
use std::marker::Model;

/// Draws frames of the tree that a weak root finds. Contracts see its renderer, its screen and
/// the weak root. A function that steps an engine is generic over the type of the weak root.
///
/// ```rust
/// fn last_frame<W: WeakRoot + Drop>(
///     alloc: Global,
///     weak: W,
///     options: Options,
/// ) -> Result<(), Refusal>
/// where
///     W::Root: Root + Drop,
/// {
///     let screen = MemoryScreen::new(alloc, 4096)?;
///     let mut engine = Engine::new(alloc, screen, weak, options, false)?;
///     engine.step(EngineEvent::Tick { at: 0, show: true })?;
///     engine.step(EngineEvent::Quit { at: 1 })?;
///     let bytes = engine.screen().bytes();
///     // ..
/// }
/// ```
#[derive(Drop)]
pub struct Engine<S: Screen, W: WeakRoot> {
    alloc: Global,
    renderer: draw::State,
    screen: S,
    weak: W,
}

impl<S: Screen, W: WeakRoot> Model for Engine<S, W> {
    ghost use Rattle.std.specs.Coded.{codes};
    ghost use Rattle.std.specs.FinMap as finite;
    ghost use Rattle.prodash.specs.Engines.{EngineState};

    ghost Value = { EngineState S W };

    ghost coded = { Prim.hlevel (codes, finite.code) };

    ghost view = { λ e. record { renderer = e.renderer; screen = e.screen; weak = e.weak } };
}

impl<S: Screen, W: WeakRoot> Engine<S, W>
where
    W::Root: Root + Drop,
{
    /// Returns an engine that has drawn nothing yet.
    ///
    /// # Errors
    ///
    /// `Memory`, if there is no memory for it.
    pub fn new(
        alloc: Global,
        screen: S,
        weak: W,
        options: draw::Options,
        throughput: bool,
    ) -> Result<Engine<S, W>, Refusal>
        ensures ok { IfOk result (λ e. e ≡ new_engine options throughput screen weak) }
        ensures reason { IsOkUnless result Refusal.Memory }
    {
        Ok(Engine {
            alloc,
            renderer: draw::State::new(alloc, options, throughput),
            screen,
            weak,
        })
    }

    /// Returns the screen.
    pub fn screen(&self) -> &S
        ensures { result.now ≡ self.now.screen }
    {
        &self.screen
    }

    /// Draws the frame of an event.
    ///
    /// A tick takes the rows and the new messages of the root in one look, which takes only the steps
    /// of the rows if nothing else of them has changed since the latest tick. Without a root it
    /// draws the closing frame. [`draw::all`] says what a frame prints and draws.
    ///
    /// # Errors
    ///
    /// - `Closed`: a closing frame was drawn. `Broken`: the screen broke during an earlier frame.
    ///   Every further event is refused with the same, before anything else is tried.
    /// - `Memory`: out of memory. `TooManyHandles`: a tick can't own the root, which has 2^64 - 1
    ///   owners. Nothing is written, and nothing has changed.
    /// - `Broken`: the screen broke during this frame, after it took a prefix of it.
    pub fn step(&mut self, event: EngineEvent) -> Result<Answer, Refusal>
        ensures step { EngineSteps S.state W.finds W.Root.looks self.old event result self.new }
        ensures weak { self.new.weak ≡ self.old.weak }
    {
        if let Some(refusal) = self.renderer.ended() {
            return Err(refusal);
        }
        match event {
            EngineEvent::Tick { at, show } => self.tick_root(at, show),
            EngineEvent::Resize {
                at,
                show,
                columns,
                rows,
            } => self.draw(Input::Resize {
                at,
                show,
                columns,
                rows,
            }),
            EngineEvent::Quit { at } => self.draw(Input::Quit { at }),
        }
    }

    /// Draws the frame of an input.
    fn draw(&mut self, input: Input) -> Result<Answer, Refusal>
        ensures frame { EngineRenders S.state self.old input result self.new }
        ensures weak { self.new.weak ≡ self.old.weak }
    {
        draw::all(self.alloc, &mut self.screen, &mut self.renderer, input)
    }

    /// Draws the frame of a tick: of the steps alone, if the rows of the root are those of the latest
    /// tick but for their steps.
    #[tactic(auto, using(crate::proofs::EngineSteps::ticking))]
    fn tick_root(&mut self, at: Moment, show: bool) -> Result<Answer, Refusal>
        requires { self.old.renderer.ended ≡ None }
        ensures step { EngineSteps S.state W.finds W.Root.looks self.old
            (EngineEvent.Tick at show) result self.new }
        ensures weak { self.new.weak ≡ self.old.weak }
    {
        let Some(root) = self.weak.upgrade()? else {
            return self.draw(Input::Tick {
                at,
                show,
                seen: None,
            });
        };
        match self.look_at_steps(&root)? {
            Some(seen) => {
                drop(root);
                self.draw_steps(at, show, seen)
            }
            None => {
                let seen = Some(self.look(&root)?);
                drop(root);
                self.draw(Input::Tick { at, show, seen })
            }
        }
    }

    /// Draws the frame of a tick that saw these steps of the remembered rows.
    fn draw_steps(
        &mut self,
        at: Moment,
        show: bool,
        seen: (Vec<Step>, Messages, MessageCopyState),
    ) -> Result<Answer, Refusal>
        ensures frame { EngineRenders S.state self.old
            (steps_tick at show self.old.renderer seen) result self.new }
        ensures weak { self.new.weak ≡ self.old.weak }
    {
        let (screen, renderer) = (&mut self.screen, &mut self.renderer);
        draw::tick_with_steps(self.alloc, screen, renderer, at, show, seen)
    }

    /// Looks at the steps of a root, if rows are remembered: returns the steps, the messages that
    /// are new since the latest tick, and the state after them; or `None` if the rows aren't the
    /// remembered ones but for their steps.
    fn look_at_steps(
        &mut self,
        root: &W::Root,
    ) -> Result<Option<(Vec<Step>, Messages, MessageCopyState)>, Refusal>
        ensures ok { IfOk result (SeesSteps W.Root.looks root.now self.old.renderer) }
        ensures kept { self.new ≡ self.old }
        ensures reason { IsOkUnless result Refusal.Memory }
    {
        if self.renderer.rows().is_none() {
            return Ok(None);
        }
        let spare = self.renderer.take_spare_steps(self.alloc);
        match self.renderer.rows() {
            None => Ok(None),
            Some(rows) => root.look_at_steps(rows, spare, self.renderer.seen()),
        }
    }

    /// Looks at a root: returns its rows, its messages that are new since the latest tick, and the
    /// state after them.
    fn look(&mut self, root: &W::Root) -> Result<(Rows, Messages, MessageCopyState), Refusal>
        ensures ok { IfOk result (SeesRoot W.Root.looks root.now self.old.renderer) }
        ensures kept { self.new ≡ self.old }
        ensures reason { IsOkUnless result Refusal.Memory }
    {
        let spare = self.renderer.take_spare(self.alloc);
        root.look(self.alloc, spare, self.renderer.seen())
    }
}
