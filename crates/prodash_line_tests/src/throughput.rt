use crate::fixtures::{ShortRow, assert_same, key_at, rows};
use prodash_base::Throughput;
use prodash_base::progress::{Key, Row};
use prodash_base::throughput::FrameThroughput;
use prodash_base::unit::display;
use std::alloc::Global;
use std::process::Abort;

/// A moment, the step of a key at it if the key has progress, and the change in one second that is
/// returned.
type Turn = (u64, Option<u64>, Option<u64>);

const MAX: u64 = u64::MAX;

/// A second in nanoseconds.
const ONE_SECOND: u64 = 1_000_000_000;

/// Three samples, 40 in 1.2 seconds; then a second without a change.
#[rattlefmt::skip]
const STEADY: &[Turn] = &[
    (0, Some(3), None),
    (400_000_000, Some(10), None),
    (800_000_000, Some(20), None),
    (1_200_000_000, Some(30), None),
    (1_600_000_000, Some(50), Some(33)),
    (2_000_000_000, Some(50), Some(33)),
    (2_400_000_000, Some(50), Some(33)),
    (2_800_000_000, Some(50), Some(0)),
];

/// Marks at the first, the fourth, the seventh and the last sample, of which the last alone takes
/// more than a second.
#[rattlefmt::skip]
const UNEVEN: &[Turn] = &[
    (0, None, None),
    (100, Some(0), None),
    (300_000_100, Some(10), None),
    (600_000_100, Some(20), None),
    (1_200_000_100, Some(80), Some(66)),
    (1_500_000_100, Some(90), Some(66)),
    (1_800_000_100, Some(100), Some(66)),
    (2_300_000_100, Some(150), Some(63)),
    (5_000_000_100, Some(700), Some(203)),
];

/// Steps that rise and fall by the greatest number: a fall counts as 0.
#[rattlefmt::skip]
const GREATEST: &[Turn] = &[
    (0, None, None),
    (400_000_000, Some(0), None),
    (800_000_000, Some(MAX), None),
    (1_200_000_000, Some(0), None),
    (1_600_000_000, Some(MAX), Some(MAX)),
];

/// A nanosecond more than a second is a mark, and a second is none.
#[rattlefmt::skip]
const NANOSECOND: &[Turn] = &[
    (0, None, None),
    (1, Some(0), None),
    (1_000_000_002, Some(MAX), Some(18_446_744_055_262_807_559)),
];

#[rattlefmt::skip]
const SECOND: &[Turn] = &[
    (0, None, None),
    (1, Some(0), None),
    (1_000_000_001, Some(7), None),
    (1_000_000_002, Some(9), Some(8)),
];

/// Nothing is recorded after the clock went back, but the new moment is kept.
#[rattlefmt::skip]
const BACK: &[Turn] = &[
    (1000, Some(5), None),
    (400, Some(5), None),
    (900, Some(5), None),
    (1_000_000_901, Some(12), Some(6)),
];

/// After the clock went back the next sample takes the 500 ns since the new moment. The next mark
/// comes a nanosecond more than a second after the first, and counts the rise of both samples.
#[rattlefmt::skip]
const BACK_AND_ON: &[Turn] = &[
    (1000, None, None),
    (2000, Some(0), None),
    (400, Some(3), None),
    (900, Some(5), None),
    (1_000_000_401, Some(12), Some(11)),
];

/// Moments without a step are left out.
#[rattlefmt::skip]
const GAPS: &[Turn] = &[
    (0, None, None),
    (10, Some(1), None),
    (20, None, None),
    (2_000_000_020, Some(5), Some(2)),
    (2_000_000_030, None, None),
    (2_000_000_040, Some(6), Some(2)),
];

/// A moment that comes twice has an elapsed time of 0.
#[rattlefmt::skip]
const TWICE: &[Turn] = &[
    (0, None, None),
    (0, Some(4), None),
    (0, Some(9), None),
    (1_000_000_001, Some(9), Some(0)),
];

#[rattlefmt::skip]
const LAST_MOMENT: &[Turn] = &[
    (0, None, None),
    (MAX, Some(0), None),
];

#[rattlefmt::skip]
const TABLES: [&[Turn]; 10] = [
    STEADY,
    UNEVEN,
    GREATEST,
    NANOSECOND,
    SECOND,
    BACK,
    BACK_AND_ON,
    GAPS,
    TWICE,
    LAST_MOMENT,
];

/// The number of a key, its step if it has progress, and the change in one second that is returned.
type Change = (u32, Option<u64>, Option<u64>);

/// A moment, and the changes of keys at it.
type Moment = (u64, &'static [Change]);

/// The throughput of a change in one second.
fn in_one_second(change: Option<u64>) -> Option<display::Throughput> {
    match change {
        Some(change) => Some(display::Throughput::new(change, ONE_SECOND)),
        None => None,
    }
}

/// The tracker returns these changes at a moment.
fn assert_changes(
    rt: &impl Abort,
    alloc: Global,
    tracker: &mut Throughput,
    at: u64,
    changes: &[Change],
) {
    tracker.update_elapsed(at);
    for (number, step, want) in changes {
        let got = tracker
            .update_and_get(alloc, &key_at(&[*number]), *step)
            .expect(rt, "no refusal");
        let want = in_one_second(*want);
        assert_same(rt, got, want, (at, *number));
    }
}

fn assert_turns(rt: &impl Abort, alloc: Global, turns: &[Turn]) {
    let mut tracker = Throughput::new(alloc);
    for (at, step, want) in turns {
        assert_changes(rt, alloc, &mut tracker, *at, &[(0, *step, *want)]);
    }
}

#[test]
fn throughput_changes_at_marks(rt: HostRuntime) {
    for turns in &TABLES {
        assert_turns(&rt, rt.alloc(), turns);
    }
}

/// A tracker after these moments.
fn tracker_after(rt: &impl Abort, alloc: Global, moments: &[Moment]) -> Throughput {
    let mut tracker = Throughput::new(alloc);
    for (at, changes) in moments {
        assert_changes(rt, alloc, &mut tracker, *at, changes);
    }
    tracker
}

/// The key 7 has the steps of `STEADY`, and the first two moments have another key.
#[rattlefmt::skip]
const APART: &[Moment] = &[
    (0, &[(7, Some(3), None), (3, None, None)]),
    (400_000_000, &[(7, Some(10), None), (3, Some(0), None)]),
    (800_000_000, &[(7, Some(20), None)]),
    (1_200_000_000, &[(7, Some(30), None)]),
    (1_600_000_000, &[(7, Some(50), Some(33))]),
    (2_000_000_000, &[(7, Some(50), Some(33))]),
    (2_400_000_000, &[(7, Some(50), Some(33))]),
    (2_800_000_000, &[(7, Some(50), Some(0))]),
];

#[test]
fn keys_are_measured_apart(rt: HostRuntime) {
    tracker_after(&rt, rt.alloc(), APART);
}

/// Three keys at two moments.
#[rattlefmt::skip]
const THREE: &[Moment] = &[
    (0, &[(1, Some(10), None), (2, Some(10), None), (3, Some(10), None)]),
    (5, &[(1, Some(10), None), (2, Some(10), None), (3, Some(10), None)]),
];

/// Two seconds after the second moment.
const LATER: u64 = 2_000_000_005;

/// Two seconds later.
const LAST: u64 = 4_000_000_005;

const LISTED: &[ShortRow] = &[(&[3], "three", None), (&[1], "one", Some((10, None)))];

const OF_LISTED: &[Change] = &[
    (1, Some(30), Some(10)),
    (2, Some(30), None),
    (3, Some(30), Some(10)),
];

#[test]
fn unlisted_keys_are_forgotten(rt: HostRuntime) {
    let alloc = rt.alloc();
    let mut tracker = tracker_after(&rt, alloc, THREE);
    tracker.reconcile(rows(alloc, LISTED).expect(&rt, "memory").as_slice());
    assert_changes(&rt, alloc, &mut tracker, LATER, OF_LISTED);
}

#[test]
fn copies_are_equal_and_independent(rt: HostRuntime) {
    let alloc = rt.alloc();
    let mut tracker = tracker_after(&rt, alloc, THREE);
    let mut copy = tracker
        .copy(alloc, rows(alloc, LISTED).expect(&rt, "memory").as_slice())
        .expect(&rt, "no refusal");
    let mut later = tracker.copy(alloc, &[]).expect(&rt, "no refusal");
    tracker.reconcile(&[]);
    assert_changes(&rt, alloc, &mut copy, LATER, &[(1, Some(30), Some(10))]);
    assert_changes(&rt, alloc, &mut copy, LAST, &[(1, Some(70), Some(20))]);
    assert_changes(&rt, alloc, &mut tracker, LATER, &[(1, Some(30), None)]);
    assert_changes(&rt, alloc, &mut later, LATER, &[(1, Some(30), Some(10))]);
}

/// The moment of a frame, the step of a key in it, whether the frame is kept, and the change in one
/// second that is shown.
type Frame = (u64, u64, bool, Option<u64>);

/// Only the steps of frames that were kept count, and the time since the latest of these.
#[rattlefmt::skip]
const FRAMES: &[Frame] = &[
    (0, 3, true, None),
    (300_000_000, 7, false, None),
    (400_000_000, 10, true, None),
    (800_000_000, 20, true, None),
    (1_200_000_000, 30, true, None),
    (1_600_000_000, 50, false, Some(33)),
    (1_600_000_000, 90, false, Some(66)),
    (2_000_000_000, 90, true, Some(58)),
    (2_400_000_000, 90, false, Some(58)),
    (2_800_000_000, 90, true, Some(58)),
];

/// Draws frames of the key of a row.
fn draw(
    rt: &impl Abort,
    alloc: Global,
    tracker: &mut FrameThroughput,
    rows: &[Row],
    frames: &[Frame],
) {
    let key = key_at(&[3]);
    for (at, step, is_kept, want) in frames {
        tracker.begin(*at);
        let got = tracker
            .observe(alloc, &key, Some(*step))
            .expect(rt, "no refusal");
        let want = in_one_second(*want);
        assert_same(rt, got, want, *at);
        if *is_kept {
            tracker.keep(rows);
        }
    }
}

#[test]
fn frames_that_are_not_kept_are_taken_back(rt: HostRuntime) {
    let alloc = rt.alloc();
    let listed = rows(alloc, LISTED).expect(&rt, "memory");
    let mut tracker = FrameThroughput::new(alloc);
    draw(&rt, alloc, &mut tracker, listed.as_slice(), FRAMES);
    let mut copy = tracker.copy().expect(&rt, "no refusal");
    draw(
        &rt,
        alloc,
        &mut tracker,
        &[],
        &[(3_000_000_000, 90, true, Some(58))],
    );
    draw(
        &rt,
        alloc,
        &mut tracker,
        &[],
        &[(9_000_000_000, 90, true, None)],
    );
    draw(
        &rt,
        alloc,
        &mut copy,
        &[],
        &[(9_000_000_000, 90, true, Some(0))],
    );
}

/// The shortest time between two moments of a long run, in nanoseconds.
const SHORTEST: u64 = 20_000_000;

/// A key of a long run, with all that was observed of it.
#[derive(Drop)]
struct Watched {
    key: Key,
    value: u64,
    /// The nanoseconds and the rise of each sample, the earliest first.
    samples: Vec<(u64, u64)>,
}

/// The rate over all samples: the last mark, and from there back until more than a second is
/// taken.
fn rate_of(samples: &[(u64, u64)]) -> Option<u64> {
    let (mut mark, mut recent): (usize, u64) = (0, 0);
    for (index, (elapsed, _)) in samples.iter().enumerate() {
        recent = recent.saturating_add(*elapsed);
        if index == 0 || recent > ONE_SECOND {
            mark = index;
            recent = 0;
        }
    }
    if mark == 0 {
        return None;
    }
    let (mut nanoseconds, mut change): (u64, u64) = (0, 0);
    for back in 0..samples.len() {
        let Some((elapsed, rise)) = samples.get(mark.saturating_sub(back)) else {
            break;
        };
        if nanoseconds > ONE_SECOND {
            break;
        }
        nanoseconds = nanoseconds.saturating_add(*elapsed);
        change = change.saturating_add(*rise);
    }
    change.saturating_mul(ONE_SECOND).checked_div(nanoseconds)
}

/// A value that rises, and falls now and then.
fn value_at(turn: u64, number: usize) -> u64 {
    let pace = (number as u64 % 8).wrapping_add(31);
    turn.wrapping_mul(pace) % 10_007
}

/// Observes a value at a turn. The rate is now and then compared with that over all samples.
fn watch(
    rt: &impl Abort,
    alloc: Global,
    tracker: &mut Throughput,
    watched: &mut Watched,
    turn: u64,
    elapsed: u64,
    value: u64,
) {
    let got = tracker
        .update_and_get(alloc, &watched.key, Some(value))
        .expect(rt, "no refusal");
    let rise = value.saturating_sub(watched.value);
    watched.samples.push((elapsed, rise)).expect(rt, "memory");
    watched.value = value;
    if turn % 2_500 == 7 {
        let want = rate_of(&watched.samples);
        assert_same(rt, got, in_one_second(want), turn);
    }
    let kept = tracker.kept_samples(&watched.key);
    assert_same(rt, kept <= (ONE_SECOND / SHORTEST) as usize, true, turn);
}

/// 25,000 moments of four keys.
#[test]
fn long_runs_forget(rt: HostRuntime) {
    let alloc = rt.alloc();
    let paths: [&[u32]; 4] = [&[1], &[2], &[2, 1], &[3]];
    let mut all: Vec<Watched> = Vec::new(alloc);
    for path in &paths {
        let (key, samples) = (key_at(path), Vec::new(alloc));
        all.push(Watched {
            key,
            value: 0,
            samples,
        })
        .expect(&rt, "memory");
    }
    let mut tracker = Throughput::new(alloc);
    let mut at: u64 = 0;
    tracker.update_elapsed(at);
    for turn in 0..25_000u64 {
        let elapsed = SHORTEST + turn % 7 * 3_000_000;
        at = at.saturating_add(elapsed);
        tracker.update_elapsed(at);
        for (number, watched) in all.iter_mut().enumerate() {
            let value = value_at(turn, number);
            watch(&rt, alloc, &mut tracker, watched, turn, elapsed, value);
        }
    }
}

/// How often a key is observed at one moment, and how many frames are drawn.
const MANY: u64 = 100_000;

/// The most samples of the shortest time that together take no more than a second.
const MOST: usize = 50;

/// Observes a value of a key. At most `most` samples of the key are then held.
fn observe_value(
    rt: &impl Abort,
    alloc: Global,
    tracker: &mut Throughput,
    value: u64,
    want: Option<u64>,
    most: usize,
) {
    let key = key_at(&[1]);
    let got = tracker
        .update_and_get(alloc, &key, Some(value))
        .expect(rt, "no refusal");
    assert_same(rt, got, in_one_second(want), value);
    assert_same(rt, tracker.kept_samples(&key) <= most, true, value);
}

/// A moment that is told twice takes no time. All rises at it count at the next mark.
#[test]
fn calls_at_one_moment_hold_one_sample(rt: HostRuntime) {
    let alloc = rt.alloc();
    let mut tracker = Throughput::new(alloc);
    tracker.update_elapsed(0);
    tracker.update_elapsed(1);
    observe_value(&rt, alloc, &mut tracker, 0, None, 0);
    tracker.update_elapsed(1);
    for value in 0..MANY {
        observe_value(&rt, alloc, &mut tracker, value, None, 0);
    }
    tracker.update_elapsed(600_000_001);
    observe_value(&rt, alloc, &mut tracker, 0, None, 1);
    tracker.update_elapsed(600_000_001);
    for value in 0..MANY {
        observe_value(&rt, alloc, &mut tracker, value, None, 1);
    }
    tracker.update_elapsed(1_200_000_001);
    observe_value(&rt, alloc, &mut tracker, MANY, Some(83_333), 0);
}

/// Each call at a moment counts the time since the previous moment.
#[test]
fn calls_that_take_time_hold_a_second(rt: HostRuntime) {
    let alloc = rt.alloc();
    let key = key_at(&[1]);
    let mut tracker = Throughput::new(alloc);
    tracker.update_elapsed(0);
    tracker.update_elapsed(SHORTEST);
    for turn in 0..MANY {
        tracker
            .update_and_get(alloc, &key, Some(turn))
            .expect(&rt, "no refusal");
        assert_same(&rt, tracker.kept_samples(&key) <= MOST, true, turn);
    }
}

/// Every fifth frame takes no time, and every seventh isn't kept.
#[test]
fn frames_hold_few_samples(rt: HostRuntime) {
    let alloc = rt.alloc();
    let key = key_at(&[3]);
    let listed = rows(alloc, LISTED).expect(&rt, "memory");
    let mut tracker = FrameThroughput::new(alloc);
    let mut at: u64 = 0;
    for turn in 0..MANY {
        if turn % 5 > 0 {
            at = at.saturating_add(SHORTEST);
        }
        tracker.begin(at);
        tracker
            .observe(alloc, &key, Some(turn))
            .expect(&rt, "no refusal");
        assert_same(&rt, tracker.kept_samples(&key) <= 2 * MOST, true, turn);
        if turn % 7 > 0 {
            tracker.keep(listed.as_slice());
            assert_same(&rt, tracker.kept_samples(&key) <= MOST, true, turn);
        }
    }
}
