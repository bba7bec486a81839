use crate::workloads::{NAME, add_groups, add_task, add_tasks, set_all};
use prodash::Refusal;
use prodash::messages::{MessageCopyState, MessageLevel, Messages};
use prodash::progress::Step;
use prodash::render::line::draw::{self, Input, OverWrite};
use prodash::tree::{Item, Root};
use prodash::unit::display::Mode;
use prodash::unit::human::{Formatter, Human};
use prodash::unit::{
    Bytes, Duration, Kind, Unit, dynamic, dynamic_and_mode, label, label_and_mode,
};
use std::alloc::Global;
use std::io;
use std::sync::Wait;

/// The nanoseconds between two frames.
pub(crate) const PERIOD: u64 = 100_000_000;

/// A name of characters that are two columns wide.
const WIDE_NAME: &str = "タスクの名前";

/// A name of emoji.
const EMOJI_NAME: &str = "🚀 task 👩‍💻";

/// A name of 200 characters.
const LONG_NAME: &str = "0123456789012345678901234567890123456789012345678901234567890123456789\
    0123456789012345678901234567890123456789012345678901234567890123456789\
    012345678901234567890123456789012345678901234567890123456789";

/// A name of 200 characters that are two columns wide.
const WIDE_AND_LONG_NAME: &str = "進捗を表示するタスクの長い名前であるがこの行には入らないので\
    途中で切られるのだが切る所を探すには端から一つずつ字を除いて幅を\
    測り直すことになるから長い名前では字の数の二乗だけの時間が掛かって\
    しまい多くの行を描くときには困ることになる進捗を表示するタスクの\
    長い名前であるがこの行には入らないので途中で切られるのだが切る所を\
    探すには端から一つずつ字を除いて幅を測り直すことになるから長い名前\
    であるからです";

/// The seven names of tasks that are added between frames.
const NAMES: &[&str] = &[
    "fetch",
    "unpack",
    "configure",
    "compile",
    "link",
    "test",
    "install",
];

/// What happens to tasks before a frame.
#[derive(Clone, Copy)]
enum Change {
    /// Each is set.
    Each,
    /// One of each 1,000 is set.
    Few,
    /// A tenth of them is dropped, those that were added ten frames ago, and as many are added. Then
    /// each is set.
    Renewed,
    /// None is set.
    None,
}

/// What frames of 80 columns show.
#[derive(Clone, Copy)]
pub(crate) struct Scene {
    name: &'static str,
    unit: Option<Unit>,
    has_groups: bool,
    colored: bool,
    throughput: bool,
    /// Whether rows have the times of their tasks.
    times: bool,
    change: Change,
    /// How many messages are sent before each frame.
    messages: u64,
    defensive: bool,
    /// The rows of the terminal.
    rows: u16,
}

/// Tasks without a unit on one level, each of which is set before a frame.
const PLAIN: Scene = Scene {
    name: NAME,
    unit: None,
    has_groups: false,
    colored: false,
    throughput: false,
    times: false,
    change: Change::Each,
    messages: 0,
    defensive: false,
    rows: 20,
};

impl Scene {
    /// Returns the scene that a workload of this name draws, or `None` if it draws none.
    pub(crate) fn named(name: &str) -> Option<Scene> {
        if let Some(names) = name_in(name) {
            return Some(Scene {
                name: names,
                ..PLAIN
            });
        }
        if let Some(unit) = unit_in(name) {
            return Some(Scene {
                unit: Some(unit),
                has_groups: name == "levels",
                colored: name == "bytes",
                throughput: measures_throughput(name),
                ..PLAIN
            });
        }
        Scene::without_unit(name)
    }

    /// Returns the scene of a workload whose tasks have the usual name and no unit.
    fn without_unit(name: &str) -> Option<Scene> {
        Some(match name {
            "frame" => PLAIN,
            "defensive" => Scene {
                defensive: true,
                // as many as make room for all tasks
                rows: 65535,
                ..PLAIN
            },
            "window" => Scene {
                defensive: true,
                rows: 24,
                ..PLAIN
            },
            "colored" => Scene {
                colored: true,
                ..PLAIN
            },
            "times" => Scene {
                times: true,
                ..PLAIN
            },
            "messages" => Scene {
                change: Change::None,
                messages: 10,
                ..PLAIN
            },
            _ => Scene {
                change: change_in(name)?,
                ..PLAIN
            },
        })
    }

    /// Adds the tasks, and draws that many frames to a sink.
    pub(crate) fn draw_frames<R: Wait + Clone + Drop>(
        self,
        rt: R,
        alloc: Global,
        tasks: u64,
        count: u64,
    ) -> Result<(), Refusal> {
        let root = Root::new(rt, alloc)?;
        let (name, unit) = (self.name, self.unit);
        let mut items = if self.has_groups {
            add_groups(&root, alloc, tasks, unit)?
        } else {
            add_tasks(&root, alloc, tasks, name, unit)?
        };
        let options = draw::Options {
            colored: self.colored,
            defensive: self.defensive,
            times: self.times,
            terminal_dimensions: (80, self.rows),
            ..draw::Options::default()
        };
        let mut state = draw::State::new(alloc, options, self.throughput);
        for n in 0..count {
            self.change_tasks(&root, &mut items, alloc, n)?;
            draw_frame(&root, alloc, &mut state, n)?;
        }
        Ok(())
    }

    /// Does what the tasks do before a frame.
    fn change_tasks<R: Wait + Clone + Drop>(
        self,
        root: &Root<R>,
        items: &mut Vec<Item<R>>,
        alloc: Global,
        n: u64,
    ) -> Result<(), Refusal> {
        match self.change {
            Change::Each => set_all(items, n),
            Change::Few => set_few(items, n),
            Change::Renewed => {
                renew(root, alloc, items, n)?;
                set_all(items, n);
            }
            Change::None => {}
        }
        if let Some(item) = items.first() {
            for _ in 0..self.messages {
                item.message(alloc, n, MessageLevel::Info, "a message of a task")?;
            }
        }
        Ok(())
    }
}

/// Returns the name of the tasks of a workload, if it is called after that.
fn name_in(workload: &str) -> Option<&'static str> {
    Some(match workload {
        "wide" => WIDE_NAME,
        "emoji" => EMOJI_NAME,
        "long" => LONG_NAME,
        "wide_and_long" => WIDE_AND_LONG_NAME,
        _ => return None,
    })
}

/// Returns the unit of the tasks of a workload, if it is called after that.
fn unit_in(workload: &str) -> Option<Unit> {
    Some(match workload {
        "unit" | "levels" => label("items"),
        "throughput" => label_and_mode("items", Mode::with_throughput()),
        "bytes" => dynamic_and_mode(Kind::Bytes(Bytes), Mode::with_throughput()),
        "duration" => dynamic(Kind::Duration(Duration)),
        "human" => {
            let human = Human::new(Formatter::default(), "items");
            dynamic_and_mode(Kind::Human(human), Mode::with_percentage())
        }
        _ => return None,
    })
}

/// Returns whether the throughput of the tasks of a workload is measured.
fn measures_throughput(workload: &str) -> bool {
    workload == "throughput" || workload == "bytes"
}

/// Returns what happens to the tasks of a workload, if it is called after that.
fn change_in(workload: &str) -> Option<Change> {
    Some(match workload {
        "unchanged" => Change::None,
        "few" => Change::Few,
        "renewed" => Change::Renewed,
        _ => return None,
    })
}

/// Sets one of each 1,000 tasks to a step.
pub(crate) fn set_few<R: Wait + Clone + Drop>(items: &[Item<R>], step: u64) {
    for (at, item) in items.iter().enumerate() {
        if at % 1000 == 0 {
            item.set(step);
        }
    }
}

/// Drops each tenth task, from the `n`th on, and adds others in their place.
fn renew<R: Wait + Clone + Drop>(
    root: &Root<R>,
    alloc: Global,
    items: &mut [Item<R>],
    n: u64,
) -> Result<(), Refusal> {
    for (at, item) in items.iter_mut().enumerate() {
        if at as u64 % 10 == n % 10 {
            let name = NAMES.get(at % 7).copied().unwrap_or(NAME);
            *item = add_task(root, alloc, name, None)?;
        }
    }
    Ok(())
}

/// Draws the frame of this number to a sink.
fn draw_frame<R: Wait + Clone + Drop>(
    root: &Root<R>,
    alloc: Global,
    state: &mut draw::State,
    n: u64,
) -> Result<(), Refusal> {
    let at = n.saturating_mul(PERIOD);
    let mut screen = OverWrite::new(io::sink());
    if let Some(seen) = look_at_steps(root, alloc, state)? {
        draw::tick_with_steps(alloc, &mut screen, state, at, true, seen)?;
        return Ok(());
    }
    let spare = state.take_spare(alloc);
    let seen = Some(root.look(spare, state.seen())?);
    let input = Input::Tick {
        at,
        show: true,
        seen,
    };
    draw::all(alloc, &mut screen, state, input)?;
    Ok(())
}

/// Returns what a look at the steps of the remembered rows finds, if rows are remembered.
fn look_at_steps<R: Wait + Clone + Drop>(
    root: &Root<R>,
    alloc: Global,
    state: &mut draw::State,
) -> Result<Option<(Vec<Step>, Messages, MessageCopyState)>, Refusal> {
    let (spare, previous) = (state.take_spare_steps(alloc), state.seen());
    match state.rows() {
        None => Ok(None),
        Some(rows) => root.look_at_steps(rows, spare, previous),
    }
}
