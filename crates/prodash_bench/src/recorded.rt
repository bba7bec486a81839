ghost use Rattle.std.specs.Prelude.{◌≡◌, false};
ghost use Rattle.prodash_core.specs.Trees.{is_frame};

use prodash::messages::MessageLevel;
use prodash::progress::UNKNOWN;
use prodash::tree::recorded::{Journal, Ledgers, Receipt, RecordedItem, RecordedRoot, TreeLedger};
use prodash::tree::root::Options;
use prodash::tree::{Event, Handle, RootOptions, TreeState};
use prodash::{Refusal, Text};
use prodash_programs::Fault;
use std::alloc::Global;
use std::marker::Brand;
use std::sync::Wait;
use std::sync::ledger::Ledger;

/// How many calls are made.
const CALLS: u64 = 70;

// The texts take memory of their own.

/// The name of each task.
const NAME: &str = "a task that compresses all of the files";

/// The name that a task gets later.
const OTHER_NAME: &str = "a task that compresses all of the other files";

/// The text of each message.
const TEXT: &str = "begins with the first of all the files";

/// How calls ended.
#[derive(Clone, Copy)]
struct Counts {
    accepted: u64,
    sum: u128,
    refused: u64,
    /// How many were not made, since there was no memory for their events.
    unmade: u64,
}

impl Counts {
    /// Returns whether all calls were accepted, as they are unless memory is short.
    fn are_whole(&self) -> bool {
        self.accepted == CALLS || self.refused > 0 || self.unmade > 0
    }
}

/// Makes calls of many kinds on a recorded tree, and prints how many were refused for lack of
/// memory. All are accepted if none is. The journal must have exactly the accepted calls: as many
/// as the item counts, with the same sum and replies. It must agree with the receipt of each.
pub(crate) fn run<R: Wait + Print>(rt: &R, alloc: Global) -> Result<(), Fault> {
    let counts = make_calls_on_tree::<Brand, Brand, R>(rt, alloc, Ledgers::new())?;
    match println!(rt; "{} refused", counts.refused) {
        Ok(()) => Ok(()),
        Err(_) => Err(Fault::Output),
    }
}

/// Makes the calls, and returns how they ended.
fn make_calls_on_tree<C: TreeLedger, S: Ledger, R: Wait>(
    rt: &R,
    alloc: Global,
    ledgers: Ledgers,
) -> Result<Counts, Fault>
    requires calls { (ledgers.calls.name ≡ C.name) × (ledgers.calls.parts ≡ C.parts) }
    requires sums { (ledgers.sums.name ≡ S.name) × (ledgers.sums.parts ≡ S.parts) }
    requires history { ledgers.history.seen.book ≡ C.history }
    requires capacity { C.message_buffer_capacity ≡ 20 }
{
    let root = RecordedRoot::<C, S>::new(alloc, ledgers, &Options::default())?;
    let mut item = root.share(rt)?;
    let mut shares = Vec::with_capacity(alloc, 1)?;
    let mut receipts = Vec::with_capacity(alloc, CALLS as usize)?;
    let counts = make_calls(rt, alloc, &mut item, &mut receipts);
    let share = item.give_back();
    let is_counted = counts.are_whole()
        && share.calls() == counts.accepted
        && share.sum() == counts.sum;
    shares.push(share)?;
    let Ok(journal) = root.close(rt, shares) else {
        return Err(Fault::Journal);
    };
    let is_whole = journal.entries().len() as u64 == counts.accepted;
    let is_received = receipts.len() as u64 == counts.accepted && all_agree(&journal, &receipts);
    if is_counted && is_whole && is_received && replays_journal(alloc, &journal)? {
        Ok(counts)
    } else {
        Err(Fault::Journal)
    }
}

/// Makes the calls, and appends the receipts of those that are accepted. A call that is refused, or
/// whose event can't be made, isn't made again.
fn make_calls<C: TreeLedger, S: Ledger>(
    rt: &impl Wait,
    alloc: Global,
    item: &mut RecordedItem<C, S>,
    receipts: &mut Vec<Receipt<C>>,
) -> Counts {
    let mut counts = Counts {
        accepted: 0,
        sum: 0,
        refused: 0,
        unmade: 0,
    };
    for call in 0..CALLS {
        let kind = call % 10;
        let Ok(event) = event_of_kind(alloc, kind, call / 10 + 1) else {
            counts.unmade = counts.unmade.wrapping_add(1);
            continue;
        };
        if event.is_frame() {
            continue;
        }
        match make_call(rt, alloc, item, event, receipts) {
            Ok(()) => {
                counts.accepted = counts.accepted.wrapping_add(1);
                counts.sum = counts.sum.wrapping_add(if kind == 3 { 3 } else { 0 });
            }
            Err(Refusal::Memory) => counts.refused = counts.refused.wrapping_add(1),
            Err(_) => {}
        }
    }
    counts
}

/// Makes a call, and appends its receipt.
fn make_call<C: TreeLedger, S: Ledger>(
    rt: &impl Wait,
    alloc: Global,
    item: &mut RecordedItem<C, S>,
    event: Event,
    receipts: &mut Vec<Receipt<C>>,
) -> Result<(), Refusal>
    requires { is_frame event ≡ false }
{
    let (_, receipt) = item.call(rt, alloc, event)?;
    receipts.push(receipt)?;
    Ok(())
}

/// Returns an event of one of ten kinds.
fn event_of_kind(alloc: Global, kind: u64, item: Handle) -> Result<Event, Refusal> {
    match kind {
        0 => add_child(alloc),
        1 => set_name(alloc, item),
        2 => message(alloc, item),
        _ => Ok(event_without_text(kind, item)),
    }
}

fn add_child(alloc: Global) -> Result<Event, Refusal> {
    let (parent, name, id) = (0, Text::from_str(alloc, NAME)?, UNKNOWN);
    Ok(Event::AddChild { parent, name, id })
}

fn set_name(alloc: Global, item: Handle) -> Result<Event, Refusal> {
    let name = Text::from_str(alloc, OTHER_NAME)?;
    Ok(Event::SetName { item, name })
}

fn message(alloc: Global, item: Handle) -> Result<Event, Refusal> {
    let (at, level, text) = (5, MessageLevel::Info, Text::from_str(alloc, TEXT)?);
    Ok(Event::Message {
        item,
        at,
        level,
        text,
    })
}

/// Returns an event that needs no memory.
fn event_without_text(kind: u64, item: Handle) -> Event {
    match kind {
        3 => Event::IncBy { item, step: 3 },
        4 => Event::Init {
            item,
            max: Some(10),
            unit: None,
        },
        5 => Event::Name { item },
        6 => Event::Snapshot,
        7 => Event::CopyMessages,
        8 => Event::CopyNew { previous: None },
        _ => Event::NumTasks,
    }
}

/// Returns whether a journal agrees with these receipts.
fn all_agree<C: TreeLedger>(journal: &Journal<C>, receipts: &[Receipt<C>]) -> bool {
    receipts.iter().all(|it| journal.agrees(it))
}

/// Returns whether a new tree gives the events of a journal its replies.
fn replays_journal<C: TreeLedger>(alloc: Global, journal: &Journal<C>) -> Result<bool, Refusal> {
    let mut tree = TreeState::new(alloc, &RootOptions::default())?;
    for (event, reply) in journal.entries() {
        if event.is_frame() || tree.apply(alloc, event)? != *reply {
            return Ok(false);
        }
    }
    Ok(true)
}
