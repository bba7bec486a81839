//! Laws of the definitions that contracts cite: functions that do nothing, whose contracts state
//! them for all values.
ghost use Rattle.std.specs.Prelude.{ℕ, List};
ghost use Rattle.prodash_base.specs.Rings.{Ring};
ghost use Rattle.prodash_base.specs.declared.messages.Message.{Message};
ghost use Rattle.prodash_core.specs.Trees.{Tree};
ghost use Rattle.prodash.specs.Callers.{KeepsPushed, ListsAdded};
ghost use Rattle.prodash.specs.FirstFrames.{ShowsFirst};

pub use prodash_base::laws::{
    copies_have_what_is_new, days_have_one_date, no_message_is_copied_twice,
    rates_are_over_the_latest_second, rings_keep_the_last,
};
pub use prodash_core::laws::deferred_requests_wait;
pub use prodash_line::laws::one_spelling;

/// A ring keeps a message that is pushed, unless it keeps none.
#[tactic(auto, using(crate::proofs::CallerLaws::push_keeps))]
pub fn rings_keep_a_push()
    ensures { (ring : Ring) (m : Message) → KeepsPushed ring m }
{}

/// The rows of a tree have the row of a task that was added.
#[tactic(auto, using(crate::proofs::CallerLaws::added_is_listed))]
pub fn rows_have_an_added_task()
    ensures { (t t' : Tree) (parent : ℕ) (name id : List ℕ) → ListsAdded t t' parent name id }
{}

/// In a new session with default options the first frame of a task writes the line of its row.
#[tactic(auto, using(crate::proofs::FirstFrames::shows_task))]
pub fn first_frames_show_a_task()
    ensures { (name : List ℕ) (step bound : ℕ) → ShowsFirst name step bound }
{}
