//! Ticks of an engine that draws an audited tree.
ghost use Rattle.std.specs.Prelude.{◌≡◌};
ghost use Rattle.prodash.specs.Views.{EngineTicks};

use crate::render::line::draw::{Answer, Input, Screen};
use crate::render::line::engine::step::Engine;
use crate::time::Moment;
use crate::tree::recorded::AuditedRoot;
use prodash_base::Refusal;
use prodash_core::traits::{Root, WeakRoot};

impl<S: Screen, W: WeakRoot + AuditedRoot<Receipt: Drop>> Engine<S, W>
where
    W::Root: Root + Drop,
{
    /// Draws the frame of a tick, and returns the receipt of its look with the answer. The frame is
    /// that of a session with the tree of the receipt. Over a recorded tree that is the tree to
    /// which the calls of the receipt lead, and
    /// [`Journal::begins_with`](crate::tree::recorded::Journal::begins_with) finds these at the
    /// beginning of the journal. If the weak root finds no root the closing frame is drawn, and
    /// there is no receipt.
    ///
    /// # Errors
    ///
    /// As `step`.
    #[tactic(auto, using(crate::proofs::ViewTicks::ticking))]
    pub fn tick(&mut self, at: Moment, show: bool) -> Result<(Answer, Option<W::Receipt>), Refusal>
        ensures step { EngineTicks S.state W.is_of at show self.old result self.new }
        ensures weak { self.new.weak ≡ self.old.weak }
    {
        if let Some(refusal) = self.renderer.ended() {
            return Err(refusal);
        }
        let spare = self.renderer.take_spare(self.alloc);
        let (seen, receipt) = self.weak.see(spare, self.renderer.seen())?;
        let answer = self.draw(Input::Tick { at, show, seen })?;
        Ok((answer, receipt))
    }
}
