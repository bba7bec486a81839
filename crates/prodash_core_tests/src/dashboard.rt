use crate::fixtures::{assert_same, assert_shown, assert_told_apart, clones};
use Answer::{Redraw, Skip, Stop};
use KeyCode::{Char, Esc, Other};
use prodash_core::render::tui::{
    Answer, Event, Interrupt, InterruptMode, Key, KeyCode, Line, Options, Rect, State,
    VERTICAL_LINE,
};
use std::alloc::Global;
use std::process::Abort;

/// What is sent to a dashboard.
#[derive(Clone, Copy)]
enum Sent {
    Press(KeyCode),
    Release(KeyCode),
    Control(KeyCode),
    Mode(Interrupt),
    Tick,
}

use Interrupt::{Deferred, Instantly};
use Sent::{Control, Mode, Press, Release, Tick};

fn event_of(sent: Sent) -> Event {
    let (code, control, release) = match sent {
        Press(code) => (code, false, false),
        Release(code) => (code, false, true),
        Control(code) => (code, true, false),
        Mode(mode) => return Event::SetInterruptMode(mode),
        Tick => return Event::Tick,
    };
    Event::Input(Key {
        code,
        control,
        release,
    })
}

/// The offsets of tasks and of messages.
type Offsets = (u16, u16);

/// Whether messages are hidden, messages are maximized, information is hidden, and information is
/// maximized.
type Switches = [bool; 4];

const OFF: Switches = [false; 4];

/// What is sent, the offsets before and after it, the switches that it turns on, and the answer.
#[rattlefmt::skip]
const KEYS: &[(Sent, Offsets, Offsets, Switches, Answer)] = &[
    (Control(Char('c')), (65530, 5), (65530, 5), OFF, Stop),
    (Control(Char('[')), (65530, 5), (65530, 5), OFF, Stop),
    (Press(Char('q')), (65530, 5), (65530, 5), OFF, Stop),
    (Control(Char('q')), (65530, 5), (65530, 5), OFF, Stop),
    (Press(Esc), (65530, 5), (65530, 5), OFF, Stop),
    (Control(Esc), (65530, 5), (65530, 5), OFF, Stop),
    (Press(Char('`')), (65530, 5), (65530, 5), [true, false, false, false], Redraw),
    (Press(Char('~')), (65530, 5), (65530, 5), [false, true, false, false], Redraw),
    (Press(Char('[')), (65530, 5), (65530, 5), [false, false, true, false], Redraw),
    (Press(Char('{')), (65530, 5), (65530, 5), [false, false, false, true], Redraw),
    (Control(Char('{')), (65530, 5), (65530, 5), [false, false, false, true], Redraw),
    (Release(Char('`')), (65530, 5), (65530, 5), OFF, Skip),
    (Press(Char('J')), (65530, 5), (65530, 6), OFF, Redraw),
    (Press(Char('D')), (65530, 5), (65530, 15), OFF, Redraw),
    (Press(Char('K')), (65530, 5), (65530, 4), OFF, Redraw),
    (Press(Char('U')), (65530, 5), (65530, 0), OFF, Redraw),
    (Press(Char('j')), (65530, 5), (65531, 5), OFF, Redraw),
    (Press(Char('d')), (65530, 5), (65535, 5), OFF, Redraw),
    (Press(Char('k')), (65530, 5), (65529, 5), OFF, Redraw),
    (Press(Char('u')), (65530, 5), (65520, 5), OFF, Redraw),
    (Control(Char('j')), (65530, 5), (65531, 5), OFF, Redraw),
    (Press(Char('c')), (65530, 5), (65530, 5), OFF, Skip),
    (Press(Char('Q')), (65530, 5), (65530, 5), OFF, Skip),
    (Control(Char('x')), (65530, 5), (65530, 5), OFF, Skip),
    (Press(Other), (65530, 5), (65530, 5), OFF, Skip),
    // at their ends
    (Press(Char('K')), (9, 0), (9, 0), OFF, Redraw),
    (Press(Char('U')), (9, 9), (9, 0), OFF, Redraw),
    (Press(Char('J')), (9, 65535), (9, 65535), OFF, Redraw),
    (Press(Char('D')), (9, 65526), (9, 65535), OFF, Redraw),
    (Press(Char('k')), (0, 9), (0, 9), OFF, Redraw),
    (Press(Char('u')), (9, 9), (0, 9), OFF, Redraw),
    (Press(Char('j')), (65535, 9), (65535, 9), OFF, Redraw),
    (Press(Char('d')), (65525, 9), (65535, 9), OFF, Redraw),
];

/// What a new dashboard with these offsets and this mode answers, and the offsets, the switches
/// and the mode that it is left with.
fn handled(
    alloc: Global,
    (tasks, messages): Offsets,
    mode: InterruptMode,
    sent: Sent,
) -> (Answer, Offsets, Switches, InterruptMode) {
    let mut state = State::new(alloc, String::new(alloc));
    state.task_offset = tasks;
    state.message_offset = messages;
    state.interrupt_mode = mode;
    let answer = state.handle(event_of(sent));
    let offsets = (state.task_offset, state.message_offset);
    let switches = [
        state.hide_messages,
        state.messages_fullscreen,
        state.hide_info,
        state.maximize_info,
    ];
    let left = (answer, offsets, switches, state.interrupt_mode);
    drop(state);
    left
}

const AT_ONCE: InterruptMode = InterruptMode::Instantly;

#[test]
fn keys_scroll_toggle_and_interrupt(rt: HostRuntime) {
    for (sent, before, after, on, answer) in KEYS {
        let got = handled(rt.alloc(), *before, AT_ONCE, *sent);
        assert_same(
            &rt,
            got,
            (*answer, *after, *on, AT_ONCE),
            (event_of(*sent), *before),
        );
    }
}

const WAITS: InterruptMode = InterruptMode::Deferred { requested: true };

const WAITS_FOR_NONE: InterruptMode = InterruptMode::Deferred { requested: false };

/// The mode before, what is sent, the mode after it, and the answer. Most rows go on where the row
/// above ends.
const MODES: &[(InterruptMode, Sent, InterruptMode, Answer)] = &[
    (AT_ONCE, Tick, AT_ONCE, Redraw),
    (AT_ONCE, Mode(Instantly), AT_ONCE, Redraw),
    (AT_ONCE, Mode(Deferred), WAITS_FOR_NONE, Redraw),
    (WAITS_FOR_NONE, Mode(Deferred), WAITS_FOR_NONE, Redraw),
    (WAITS_FOR_NONE, Press(Char('q')), WAITS, Redraw),
    (WAITS, Mode(Deferred), WAITS, Redraw),
    (WAITS, Mode(Instantly), WAITS, Stop),
    (WAITS, Tick, WAITS, Redraw),
    (WAITS, Press(Char('c')), WAITS, Skip),
    (WAITS_FOR_NONE, Press(Esc), WAITS, Redraw),
    (WAITS_FOR_NONE, Control(Char('c')), WAITS, Redraw),
    (WAITS_FOR_NONE, Release(Char('q')), WAITS_FOR_NONE, Skip),
    (WAITS_FOR_NONE, Release(Esc), WAITS_FOR_NONE, Skip),
    (WAITS_FOR_NONE, Mode(Instantly), AT_ONCE, Redraw),
];

#[test]
fn deferred_requests_wait(rt: HostRuntime) {
    for (before, sent, after, answer) in MODES {
        let got = handled(rt.alloc(), (0, 0), *before, *sent);
        assert_same(
            &rt,
            got,
            (*answer, (0, 0), OFF, *after),
            (event_of(*sent), *before),
        );
    }
}

/// A text.
fn text(rt: &impl Abort, alloc: Global, text: &str) -> String {
    String::from_str(alloc, text).expect(rt, "memory")
}

/// Events that set what is stored.
fn setting_events(rt: &impl Abort, alloc: Global) -> Vec<Event> {
    let size = Rect {
        x: 1,
        y: 2,
        width: 30,
        height: 4,
    };
    let lines = vec![in alloc;
        Line::Title(text(rt, alloc, "a")),
        Line::Text(text(rt, alloc, "b")),
    ]
    .expect(rt, "memory");
    vec![in alloc;
        Event::SetTitle(text(rt, alloc, "title")),
        Event::SetWindowSize(size),
        Event::SetInformation(lines),
        Event::SetInterruptMode(Deferred),
    ]
    .expect(rt, "memory")
}

/// These events.
const EVENTS: &str = "[SetTitle(\"title\"), \
SetWindowSize(Rect { x: 1, y: 2, width: 30, height: 4 }), \
SetInformation([Title(\"a\"), Text(\"b\")]), SetInterruptMode(Deferred)]";

/// The state after copies of them.
const SET: &str = "State { title: \"title\", task_offset: 0, message_offset: 0, \
hide_messages: false, messages_fullscreen: false, hide_info: false, maximize_info: false, \
window_size: Some(Rect { x: 1, y: 2, width: 30, height: 4 }), \
information: [Title(\"a\"), Text(\"b\")], interrupt_mode: Deferred { requested: false } }";

#[test]
fn titles_sizes_and_information_are_stored(rt: HostRuntime) {
    let alloc = rt.alloc();
    let events = setting_events(&rt, alloc);
    let mut state = State::new(alloc, String::new(alloc));
    for event in &events {
        let answer = state.handle(event.clone().expect(&rt, "memory"));
        assert_same(&rt, answer, Redraw, "answer");
    }
    assert_shown(&rt, alloc, &events, EVENTS);
    assert_shown(&rt, alloc, &state, SET);
    drop(state);
}

#[test]
fn lines_are_told_apart(rt: HostRuntime) {
    let lines = [
        Line::Title(text(&rt, rt.alloc(), "a")),
        Line::Title(text(&rt, rt.alloc(), "b")),
        Line::Text(text(&rt, rt.alloc(), "a")),
    ];
    let copies = clones(rt.alloc(), &lines).expect(&rt, "memory");
    assert_told_apart(&rt, rt.alloc(), &lines, &copies);
}

/// What copies of the default options say, in the order of their fields.
const OPTIONS: (&str, u64, bool, Option<usize>, Option<Rect>, bool) = (
    "Progress Dashboard",
    100_000_000,
    false,
    None,
    None,
    true,
);

#[test]
fn default_options(rt: HostRuntime) {
    let options = Options::create(rt.alloc()).expect(&rt, "memory");
    let options = options.clone().expect(&rt, "memory");
    let got = (
        options.title.as_str(),
        options.nanoseconds_per_frame,
        options.throughput,
        options.recompute_column_width_every_nth_frame,
        options.window_size,
        options.stop_if_progress_missing,
    );
    assert_same(&rt, got, OPTIONS, "options");
    assert_same(&rt, VERTICAL_LINE, "\u{2502}", "line");
}
