use crate::drawings::Ask::{Quit, Show};
use crate::drawings::{Ask, draw, draw_input, renderer, tick};
use crate::fixtures::{FakeScreen, TASK_FRAME, assert_same, key_at, row, text_of_length};
use prodash_base::Refusal;
use prodash_base::progress::Row;
use prodash_line::render::line::draw::{Answer, MemoryScreen, Screen};
use std::alloc::Global;
use std::process::Abort;

#[test]
fn memory_screen_takes_all_bytes(rt: HostRuntime) {
    // within its room, and past it
    for room in [10, 3, 0] {
        let mut screen = MemoryScreen::new(rt.alloc(), room).expect(&rt, "memory");
        for _ in 0..2 {
            assert_same(&rt, screen.put(b"01234"), Ok(5), room);
            assert_same(&rt, screen.flush(), Ok(()), room);
        }
        assert_same(&rt, screen.is_broken(), false, room);
        assert_same(&rt, screen.bytes(), b"0123401234".as_slice(), room);
    }
    let endless = MemoryScreen::new(rt.alloc(), usize::MAX);
    assert_same(&rt, endless.err(), Some(Refusal::Memory), "endless");
}

const SHOW_TASK: Ask = Show(&[("task", Some((3, Some(10))))]);

/// An input, how many bytes the screen takes, whether it flushes, and the bytes that it takes.
#[rattlefmt::skip]
const BREAKS: &[(Ask, usize, bool, &str)] = &[
    (SHOW_TASK, 5, true, " task"),
    (SHOW_TASK, 200, false, TASK_FRAME),
    (Quit, 2, true, "\x1b["),
];

/// A new renderer breaks the screen, which by then has taken these bytes, and takes no more.
fn assert_ends(rt: &impl Abort, alloc: Global, screen: &mut FakeScreen, first: Ask, want: &str) {
    let mut state = renderer(alloc, (40, 24));
    for ask in [first, SHOW_TASK, Ask::Hide(&[]), Quit] {
        let answer = draw(rt, alloc, screen, &mut state, ask);
        assert_same(rt, answer, Err(Refusal::Broken), want);
        assert_same(rt, screen.bytes.as_slice(), want.as_bytes(), want);
    }
    assert_same(rt, state.ended(), Some(Refusal::Broken), want);
    drop(state);
}

/// A frame without bytes needs no screen.
fn assert_needs_no_screen(rt: &impl Abort, alloc: Global, screen: &mut FakeScreen) {
    let mut state = renderer(alloc, (40, 24));
    let answer = draw(rt, alloc, screen, &mut state, Show(&[]));
    assert_same(rt, answer, Ok(Answer::Drawn), "a frame without bytes");
    assert_same(rt, state.ended(), None, "a frame without bytes");
    drop(state);
}

#[test]
fn renderer_ends_once_its_screen_is_broken(rt: HostRuntime) {
    for (first, left, flushes, want) in BREAKS {
        let mut screen = FakeScreen::new(rt.alloc(), 200, *left, *flushes).expect(&rt, "memory");
        assert_ends(&rt, rt.alloc(), &mut screen, *first, want);
        assert_needs_no_screen(&rt, rt.alloc(), &mut screen);
        drop(screen);
    }
}

/// A screen that takes all bytes, and records how many the first four puts were given.
#[derive(Drop)]
struct CountingScreen {
    inner: MemoryScreen,
    sizes: [usize; 4],
    puts: usize,
}

impl Screen for CountingScreen {
    ghost state = { λ s. record {
      bytes = s.inner.bytes;
      flushed = s.inner.bytes;
      broken = s.inner.broken;
    } };

    fn put(&mut self, bytes: &[u8]) -> Result<usize, Refusal> {
        if self.puts < 4 {
            self.sizes[self.puts] = bytes.len();
            self.puts += 1;
        }
        self.inner.put(bytes)
    }

    fn flush(&mut self) -> Result<(), Refusal> {
        self.inner.flush()
    }

    fn is_broken(&self) -> bool {
        self.inner.is_broken()
    }
}

/// Rows of a task with this name.
fn rows_of(rt: &impl Abort, alloc: Global, name: &str) -> Vec<Row> {
    let row = row(alloc, key_at(&[0]), name, None).expect(rt, "memory");
    vec![in alloc; row].expect(rt, "memory")
}

#[test]
fn frames_go_out_in_pieces(rt: HostRuntime) {
    // the line of this name, with the motion back up, has 10000 bytes
    let name = text_of_length(&rt, rt.alloc(), 9994);
    let rows = rows_of(&rt, rt.alloc(), name.as_str());
    let mut screen = CountingScreen {
        inner: MemoryScreen::new(rt.alloc(), 10000).expect(&rt, "memory"),
        sizes: [0; 4],
        puts: 0,
    };
    let mut state = renderer(rt.alloc(), (12000, 24));
    let input = tick(&rt, rt.alloc(), true, &[], rows);
    let answer = draw_input(rt.alloc(), &mut screen, &mut state, input);
    assert_same(&rt, answer, Ok(Answer::Drawn), "a long frame");
    assert_same(&rt, screen.sizes, [4096, 4096, 1808, 0], "a long frame");
    drop(state);
    drop(screen);
}
