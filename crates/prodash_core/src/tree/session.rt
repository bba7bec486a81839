ghost use Rattle.std.specs.Prelude.{◌≡◌, IfOk, IsOkUnless};
ghost use Rattle.std.specs.Result.{MatchResult};
ghost use Rattle.prodash_core.specs.Sessions.{new_session, RendersFrame, Steps};
ghost use Rattle.prodash_core.specs.declared.tree.event.Event.TheVariants.{Tick};
ghost use Rattle.prodash_core.specs.declared.tree.event.Reply.TheVariants.{Done, Refused};

use crate::tree::event::{Event, Reply};
use crate::tree::options::SessionOptions;
use crate::tree::state::TreeState;
use prodash_base::Refusal;
use prodash_base::time::Moment;
use prodash_line::render::line::draw::{self, Answer, Input, Screen};
use std::alloc::Global;
use std::marker::Model;

/// A tree of tasks and a renderer. Contracts see a `SessionState`.
///
/// ```rust
/// let mut session = Session::new(alloc, &options)?;
/// let name = Text::from_str(alloc, "task")?;
/// session.apply(alloc, &Event::AddChild { parent: 0, name, id: UNKNOWN }, screen);
/// session.apply(alloc, &Event::Init { item: 1, max: Some(10), unit: None }, screen);
/// session.apply(alloc, &Event::Tick { at: 0, show: true }, screen);
/// ```
#[derive(Drop)]
pub struct Session {
    tree: TreeState,
    renderer: draw::State,
}

impl Model for Session {
    ghost use Rattle.prodash_core.specs.Sessions.{SessionState};
    ghost use Rattle.std.specs.Coded.{codes};
    ghost use Rattle.std.specs.FinMap as finite;

    ghost Value = { SessionState };

    ghost coded = { Prim.hlevel (codes, finite.code) };

    ghost view = { λ s. record { tree = s.tree; renderer = s.renderer } };
}

impl Session {
    /// Returns a session with nothing but the root.
    ///
    /// # Errors
    ///
    /// `Memory`, if there is no memory for it.
    pub fn new(alloc: Global, options: &SessionOptions) -> Result<Session, Refusal>
        ensures ok { IfOk result (λ s. s ≡ new_session options.now) }
        ensures reason { IsOkUnless result Refusal.Memory }
    {
        Ok(Session {
            tree: TreeState::new(alloc, &options.root)?,
            renderer: draw::State::new(alloc, options.draw, options.throughput),
        })
    }

    /// Returns an equal session with counters of its own: an event applied to either of the two
    /// doesn't change the other.
    ///
    /// # Errors
    ///
    /// `Memory`, if there is no memory for it.
    pub fn deep_clone(&self, alloc: Global) -> Result<Session, Refusal>
        ensures ok { IfOk result (λ copy. copy ≡ self.now) }
        ensures reason { IsOkUnless result Refusal.Memory }
    {
        Ok(Session {
            tree: self.tree.deep_clone(alloc)?,
            renderer: self.renderer.deep_clone(alloc)?,
        })
    }

    /// Applies an event and returns the reply. A frame is written to the screen; no other event
    /// touches it. The reply to an event that is refused is `Refused`, with the reason.
    pub fn apply<S: Screen>(&mut self, alloc: Global, event: &Event, screen: &mut S) -> Reply
        ensures { Steps self.old (S.state screen.old) event.now result
            self.new (S.state screen.new) }
    {
        match event {
            Event::Set { item, step } => done(self.tree.set(*item, *step)),
            Event::IncBy { item, step } => done(self.tree.inc_by(*item, *step)),
            _ => self.apply_any(alloc, event, screen),
        }
    }

    /// Does what `apply` does. Its large locals are set up at each call, so `apply` calls it only
    /// for events that take longer than that.
    #[inline(never)]
    fn apply_any<S: Screen>(&mut self, alloc: Global, event: &Event, screen: &mut S) -> Reply
        ensures { Steps self.old (S.state screen.old) event.now result
            self.new (S.state screen.new) }
    {
        match event {
            Event::Tick { at, show } => self.tick(alloc, *at, *show, screen),
            Event::Resize {
                at,
                show,
                columns,
                rows,
            } => {
                let input = Input::Resize {
                    at: *at,
                    show: *show,
                    columns: *columns,
                    rows: *rows,
                };
                self.draw(alloc, input, screen)
            }
            Event::Quit { at } => self.draw(alloc, Input::Quit { at: *at }, screen),
            _ => self.tree.apply(alloc, event).unwrap_or_else(Reply::Refused),
        }
    }

    /// Draws the frame of a tick.
    fn tick<S: Screen>(&mut self, alloc: Global, at: Moment, show: bool, screen: &mut S) -> Reply
        ensures { Steps self.old (S.state screen.old) (Tick at show) result
            self.new (S.state screen.new) }
    {
        if let Some(refusal) = self.renderer.ended() {
            return Reply::Refused(refusal);
        }
        let spare = self.renderer.take_spare(alloc);
        match self.tree.look(spare, self.renderer.seen()) {
            Ok(seen) => self.draw(alloc, Input::Tick { at, show, seen }, screen),
            Err(refusal) => Reply::Refused(refusal),
        }
    }

    /// Draws the frame for an input.
    fn draw<S: Screen>(&mut self, alloc: Global, input: Input, screen: &mut S) -> Reply
        ensures { RendersFrame self.old input (S.state screen.old) result
            self.new (S.state screen.new) }
    {
        match draw::all(alloc, screen, &mut self.renderer, input) {
            Ok(Answer::Drawn) => Reply::Drawn,
            Ok(Answer::Ended) => Reply::Ended,
            Err(refusal) => Reply::Refused(refusal),
        }
    }
}

/// Returns the reply `Done`, or the refusal.
fn done(applied: Result<(), Refusal>) -> Reply
    ensures { MatchResult applied (λ _. result ≡ Done) (λ refusal. result ≡ Refused refusal) }
{
    match applied {
        Ok(()) => Reply::Done,
        Err(refusal) => Reply::Refused(refusal),
    }
}
