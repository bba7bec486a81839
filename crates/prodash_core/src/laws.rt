//! What follows from the definitions that contracts cite, for all values.
//!
//! Each function states a law in its contract and does nothing. A proof has the law after a call.
ghost use Rattle.std.specs.Prelude.{Bool, List};
ghost use Rattle.prodash_core.specs.Dashboard.{NotesRequests, StopsIfRequested};
ghost use Rattle.prodash_core.specs.declared.render.tui.event.Event.{Event};
ghost use Rattle.prodash_core.specs.declared.render.tui.state.State.{State};

/// A deferred request to interrupt is never forgotten. Whatever happens while requests are
/// deferred, the dashboard stops when the mode is set to `Instantly` exactly if there was one.
#[tactic(auto, using(crate::proofs::DashboardLaws::mode_after, crate::proofs::DashboardLaws::answer_after))]
pub fn deferred_requests_wait()
    ensures mode { (s : State) (r : Bool) (events : List Event) → NotesRequests s r events }
    ensures answer { (s : State) (r : Bool) (events : List Event) → StopsIfRequested s r events }
{}
