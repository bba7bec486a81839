//! Callers that docs/PROVING.md shows. Each is proved from the contracts of what it calls.
ghost use Rattle.std.specs.Prelude.{◌≡◌, ◌<◌, Contains, OnOk, IfOk, codes};
ghost use Rattle.prodash_base.specs.Messages.{message_of};
ghost use Rattle.prodash_base.specs.Rows.{unknown_id};
ghost use Rattle.prodash_core.specs.Trees.{tree_rows};
ghost use Rattle.prodash.specs.Callers.{HasMessage, added_row};
ghost use Rattle.prodash.specs.FirstFrames.{ShowsTask};
ghost use Rattle.prodash_base.specs.declared.messages.MessageLevel.TheVariants.{Info};

use prodash::messages::{MessageLevel, MessageRingBuffer};
use prodash::progress::{Rows, Step, UNKNOWN};
use prodash::render::line::draw::{self, Screen};
use prodash::time::Moment;
use prodash::tree::recorded::{Journal, Receipt, TreeLedger};
use prodash::tree::{Event, Reply, RootOptions, SessionOptions, TreeState, run};
use prodash::{Refusal, Text};
use std::alloc::Global;

/// Sends a message to a ring that keeps at least one. The ring has it then.
#[tactic(auto, using(prodash::proofs::CallerLaws::pushed_is_kept))]
pub fn tell(
    alloc: Global,
    ring: &mut MessageRingBuffer,
    at: Moment,
    text: &str,
) -> Result<(), Refusal>
    requires { 0 < ring.old.capacity }
    ensures kept { OnOk result
        (HasMessage ring.old ring.new (message_of at Info (codes "backup") text.now)) }
{
    ring.push_overwrite(alloc, at, MessageLevel::Info, "backup", text)
}

/// Adds a task below the root. The rows of the tree have its row then.
#[tactic(auto, using(prodash::proofs::CallerLaws::added_is_listed))]
pub fn begin(alloc: Global, tree: &mut TreeState, name: Text) -> Result<Reply, Refusal>
    ensures listed { OnOk result
        (Contains (tree_rows tree.new) (added_row tree.old 0 name unknown_id)) }
{
    let (parent, id) = (0, UNKNOWN);
    tree.apply(alloc, &Event::AddChild { parent, name, id })
}

/// Adds a task below the root, and returns the rows. They have its row.
pub fn begin_and_list(alloc: Global, tree: &mut TreeState, name: Text) -> Result<Rows, Refusal>
    ensures listed { IfOk result (λ rows.
        Contains rows (added_row tree.old 0 name unknown_id)) }
{
    begin(alloc, tree, name)?;
    tree.rows(alloc)
}

/// Draws a task at a step of ten, in a new session. The screen gets the line of its row, if nothing
/// is refused.
#[tactic(auto, using(prodash::proofs::FirstFrames::shows_task))]
pub fn show_step<S: Screen>(
    alloc: Global,
    name: Text,
    step: Step,
    screen: &mut S,
) -> Result<Vec<Reply>, Refusal>
    ensures line { ShowsTask name step 10 result (S.state screen.old) (S.state screen.new) }
{
    let root = RootOptions::default();
    let draw = draw::Options::default();
    let options = SessionOptions {
        root,
        draw,
        throughput: false,
    };
    let (parent, id) = (0, UNKNOWN);
    let (max, unit) = (Some(10), None);
    let events = vec![in alloc;
        Event::AddChild { parent, name, id },
        Event::Init { item: 1, max, unit },
        Event::Set { item: 1, step },
        Event::Tick { at: 0, show: true },
    ]?;
    run(alloc, &options, &events, screen)
}

/// Returns the reply that a journal has for the call of a receipt: the one that the caller got.
pub fn recorded_reply<'a, C: TreeLedger>(journal: &'a Journal<C>, receipt: &Receipt<C>) -> &'a Reply
    ensures { result.now ≡ receipt.now.reply }
{
    journal.agrees(receipt);
    match journal.entries().get(receipt.number() as usize) {
        Some((_, reply)) => reply,
        None => unreachable!(),
    }
}
