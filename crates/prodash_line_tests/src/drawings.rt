//! What the tests of frames share: inputs of a renderer in short, and assertions of its bytes.
use crate::fixtures::{
    FakeScreen, Progress, ShortMessage, TERMINAL, assert_same, key_at, messages, row,
};
use prodash_base::Refusal;
use prodash_base::messages::MessageCopyState;
use prodash_base::progress::{Row, Rows, State, Value};
use prodash_base::unit::{Kind, Scaled, Scales, dynamic};
use prodash_line::render::line::draw::{self, Answer, Input, MemoryScreen, Screen};
use std::alloc::Global;
use std::process::Abort;

/// A task below the root: its name, and its progress.
pub(crate) type Task = (&'static str, Progress);

/// An input of a renderer.
#[derive(Clone, Copy)]
pub(crate) enum Ask {
    /// A tick that shows these tasks.
    Show(&'static [Task]),
    /// A tick that hides these tasks.
    Hide(&'static [Task]),
    /// A tick that prints these messages, and shows these tasks.
    Print(&'static [ShortMessage], &'static [Task]),
    /// A tick that prints these messages, and hides these tasks.
    PrintHidden(&'static [ShortMessage], &'static [Task]),
    /// A tick that shows a task `t` with a kind of unit, a step and a bound.
    Measure(Kind, u64, Option<u64>),
    /// A tick that shows a task `t` with scales, a name of its unit, a step and a bound.
    Scale(&'static Scales, &'static str, u64, Option<u64>),
    /// A tick without a root, and whether it shows rows.
    Rootless(bool),
    /// The columns and rows of a resize that shows rows.
    Resize(u16, u16),
    Quit,
}

/// The rows of these tasks.
fn rows(rt: &impl Abort, alloc: Global, tasks: &[Task]) -> Vec<Row> {
    let mut rows = Vec::new(alloc);
    let mut number: u32 = 0;
    for (name, progress) in tasks {
        rows.push(row(alloc, key_at(&[number]), name, *progress).expect(rt, "memory"))
            .expect(rt, "memory");
        number = number.saturating_add(1);
    }
    rows
}

/// The row of a task `t` whose values have a unit of this kind.
fn measured_row(
    rt: &impl Abort,
    alloc: Global,
    kind: Kind,
    step: u64,
    done_at: Option<u64>,
) -> Vec<Row> {
    let value = Value {
        step,
        done_at,
        unit: Some(dynamic(kind)),
        state: State::Running,
    };
    let mut row = row(alloc, key_at(&[0]), "t", None).expect(rt, "memory");
    row.progress = Some(value);
    let mut rows = Vec::new(alloc);
    rows.push(row).expect(rt, "memory");
    rows
}

/// A tick with a root, which has seen as many messages as it prints.
pub(crate) fn tick(
    rt: &impl Abort,
    alloc: Global,
    show: bool,
    printed: &[ShortMessage],
    rows: Vec<Row>,
) -> Input {
    let state = MessageCopyState::new(printed.len() as u64);
    Input::Tick {
        at: 0,
        show,
        seen: Some((
            Rows::new(rows),
            messages(alloc, printed).expect(rt, "memory"),
            state,
        )),
    }
}

fn input(rt: &impl Abort, alloc: Global, ask: Ask) -> Input {
    match ask {
        Ask::Show(tasks) => tick(rt, alloc, true, &[], rows(rt, alloc, tasks)),
        Ask::Hide(tasks) => tick(rt, alloc, false, &[], rows(rt, alloc, tasks)),
        Ask::Print(printed, tasks) => tick(rt, alloc, true, printed, rows(rt, alloc, tasks)),
        Ask::PrintHidden(printed, tasks) => tick(rt, alloc, false, printed, rows(rt, alloc, tasks)),
        Ask::Measure(kind, step, bound) => {
            tick(
                rt,
                alloc,
                true,
                &[],
                measured_row(rt, alloc, kind, step, bound),
            )
        }
        Ask::Scale(scales, name, step, bound) => {
            let kind = Kind::Scaled(Scaled::new(scales, name).expect(rt, "scales"));
            tick(
                rt,
                alloc,
                true,
                &[],
                measured_row(rt, alloc, kind, step, bound),
            )
        }
        Ask::Rootless(show) => Input::Tick {
            at: 0,
            show,
            seen: None,
        },
        Ask::Resize(columns, rows) => Input::Resize {
            at: 0,
            show: true,
            columns,
            rows,
        },
        Ask::Quit => Input::Quit { at: 0 },
    }
}

/// Draws the frame of an input, without a promise about it.
pub(crate) fn draw_input<S: Screen>(
    alloc: Global,
    screen: &mut S,
    state: &mut draw::State,
    input: Input,
) -> Result<Answer, Refusal> {
    draw::all(alloc, screen, state, input)
}

/// Draws a frame. Once more if out of memory, since nothing has changed then.
pub(crate) fn draw<S: Screen>(
    rt: &impl Abort,
    alloc: Global,
    screen: &mut S,
    state: &mut draw::State,
    ask: Ask,
) -> Result<Answer, Refusal> {
    match draw_input(alloc, screen, state, input(rt, alloc, ask)) {
        Err(Refusal::Memory) => draw_input(alloc, screen, state, input(rt, alloc, ask)),
        first => first,
    }
}

/// A renderer on a terminal of this many columns and rows.
pub(crate) fn renderer(alloc: Global, terminal_dimensions: (u16, u16)) -> draw::State {
    let options = draw::Options {
        terminal_dimensions,
        ..TERMINAL
    };
    draw::State::new(alloc, options, false)
}

/// The columns and rows of a terminal, the inputs of a new renderer on it, and the bytes that each
/// writes or why it is refused.
pub(crate) struct Drawing(
    pub(crate) (u16, u16),
    pub(crate) &'static [(Ask, Result<&'static str, Refusal>)],
);

/// Each drawing writes its bytes and flushes them, also on a screen that takes one byte at a time.
pub(crate) fn assert_draws(rt: &impl Abort, alloc: Global, drawings: &[Drawing]) {
    assert_draws_with(rt, alloc, TERMINAL, drawings)
}

/// The same of renderers with these options, but for the size of the terminal.
pub(crate) fn assert_draws_with(
    rt: &impl Abort,
    alloc: Global,
    options: draw::Options,
    drawings: &[Drawing],
) {
    for Drawing(terminal_dimensions, frames) in drawings {
        let options = draw::Options {
            terminal_dimensions: *terminal_dimensions,
            ..options
        };
        let mut state = draw::State::new(alloc, options, false);
        let mut other = draw::State::new(alloc, options, false);
        for (ask, want) in *frames {
            assert_frame(rt, alloc, &mut state, *ask, *want);
            assert_slow_frame(rt, alloc, &mut other, *ask, *want);
        }
        drop(other);
        drop(state);
    }
}

/// The answer to an input that writes these bytes, or is refused.
fn answer_to(ask: Ask, want: Result<&str, Refusal>) -> Result<Answer, Refusal> {
    match (want, ask) {
        (Err(refusal), _) => Err(refusal),
        (Ok(_), Ask::Rootless(_) | Ask::Quit) => Ok(Answer::Ended),
        (Ok(_), _) => Ok(Answer::Drawn),
    }
}

fn assert_frame(
    rt: &impl Abort,
    alloc: Global,
    state: &mut draw::State,
    ask: Ask,
    want: Result<&str, Refusal>,
) {
    let mut screen = MemoryScreen::new(alloc, 200).expect(rt, "memory");
    let answer = draw(rt, alloc, &mut screen, state, ask);
    assert_same(rt, answer, answer_to(ask, want), want);
    assert_same(rt, screen.bytes(), want.unwrap_or("").as_bytes(), want);
    assert_same(rt, screen.is_broken(), false, want);
    drop(screen);
}

fn assert_slow_frame(
    rt: &impl Abort,
    alloc: Global,
    state: &mut draw::State,
    ask: Ask,
    want: Result<&str, Refusal>,
) {
    let mut screen = FakeScreen::new(alloc, 1, 200, true).expect(rt, "memory");
    let bytes = want.unwrap_or("").as_bytes();
    let answer = draw(rt, alloc, &mut screen, state, ask);
    assert_same(rt, answer, answer_to(ask, want), want);
    assert_same(rt, screen.bytes.as_slice(), bytes, want);
    assert_same(rt, screen.flushed, bytes.len(), want);
    drop(screen);
}
