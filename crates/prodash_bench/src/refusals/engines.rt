//! Frames that an engine draws.
use crate::refusals::scene::WeakScene;
use prodash::Refusal;
use prodash::render::line::draw::{self, Answer, MemoryScreen};
use prodash::render::line::engine::{Engine, EngineEvent};
use prodash_fixtures::Calls;
use prodash_programs::Fault;
use std::alloc::Global;
use std::sync::Arc;
use std::sync::atomic::{AtomicU64, Ordering};

/// The bytes that a screen has room for: those of all frames.
const ROOM: usize = 8192;

/// How many turns of the tree are drawn before the size changes.
const TURNS: u64 = 5;

/// How many frames are drawn: one at each turn, one of another size, and the last.
const FRAMES: u64 = 7;

/// The nanoseconds between two frames.
const TURN: u64 = 400_000_000;

/// An engine that draws on a screen in memory.
type Drawing = Engine<MemoryScreen, WeakScene>;

/// Draws the same frames with two engines. At most one of them is refused memory, and both must
/// write the same.
pub(crate) fn run(alloc: Global, calls: &mut Calls) -> Result<(), Fault> {
    let turn = Arc::new(alloc, AtomicU64::new(0))?;
    let mut first = new_engine(alloc, &turn, calls)?;
    let mut second = new_engine(alloc, &turn, calls)?;
    draw_all(&turn, &mut first, &mut second, calls)
}

/// Has both engines draw all frames.
fn draw_all(
    turn: &AtomicU64,
    first: &mut Drawing,
    second: &mut Drawing,
    calls: &mut Calls,
) -> Result<(), Fault> {
    for frame in 0..FRAMES {
        turn.store(frame.min(TURNS - 1), Ordering::SeqCst);
        draw_by_both(first, second, event_of_frame(frame), calls)?;
    }
    Ok(())
}

/// Returns the event of a frame.
fn event_of_frame(frame: u64) -> EngineEvent {
    let at = frame.wrapping_mul(TURN);
    match frame {
        5 => EngineEvent::Resize {
            at: 0,
            show: true,
            columns: 40,
            rows: 8,
        },
        6 => EngineEvent::Quit { at: 0 },
        _ => EngineEvent::Tick { at, show: true },
    }
}

/// Makes an engine that measures throughput.
fn new_engine(alloc: Global, turn: &Arc<AtomicU64>, calls: &mut Calls) -> Result<Drawing, Fault> {
    calls.begin("Engine::new");
    let screen = MemoryScreen::new(alloc, ROOM)?;
    let weak = WeakScene::new(Arc::try_clone(turn)?);
    Ok(Engine::new(alloc, screen, weak, draw::Options::default(), true)?)
}

/// Has both engines draw the frame of an event.
fn draw_by_both(
    first: &mut Drawing,
    second: &mut Drawing,
    event: EngineEvent,
    calls: &mut Calls,
) -> Result<(), Fault> {
    let answers = (
        step_engine(first, event, calls)?,
        step_engine(second, event, calls)?,
    );
    let bytes = first.screen().bytes();
    calls.expect(answers.0 == answers.1 && bytes == second.screen().bytes() && !bytes.is_empty());
    Ok(())
}

/// Has an engine draw the frame of an event.
fn step_engine(
    engine: &mut Drawing,
    event: EngineEvent,
    calls: &mut Calls,
) -> Result<Answer, Refusal> {
    calls.begin("Engine::step");
    let written = engine.screen().bytes().len();
    match engine.step(event) {
        Ok(answer) => Ok(answer),
        Err(refusal) => {
            let is_unwritten = engine.screen().bytes().len() == written;
            let again = engine.step(event);
            calls.refuse(refusal, is_unwritten && again.is_ok());
            again
        }
    }
}
