use crate::frames::Scene;
use crate::{USAGE, dashboards};
use prodash::messages::{MessageLevel, Messages};
use prodash::progress::{Rows, UNKNOWN};
use prodash::render::line::draw::{self, OverWrite};
use prodash::tree::{Event, Item, Root, RootOptions, Session, SessionOptions};
use prodash::unit::Unit;
use prodash::{Refusal, Text};
use prodash_programs::Fault;
use std::alloc::Global;
use std::io;
use std::sync::Wait;

/// The name of each task.
pub(crate) const NAME: &str = "task name";

/// Adds the tasks, and runs the workload of this name that many times.
pub(crate) fn run<R: Wait + Clone + Drop>(
    rt: R,
    alloc: Global,
    name: &str,
    tasks: u64,
    count: u64,
) -> Result<(), Fault> {
    if let Some(scene) = Scene::named(name) {
        return Ok(scene.draw_frames(rt, alloc, tasks, count)?);
    }
    let root = Root::new(rt, alloc)?;
    let items = match name {
        "snapshot_of_levels" => add_groups(&root, alloc, tasks, None)?,
        "tasks" => Vec::new(alloc),
        _ => add_tasks(&root, alloc, tasks, NAME, None)?,
    };
    match name {
        "set" | "inc" | "inc_by" | "step" => {
            for item in &items {
                make_steps(item, name, count);
            }
        }
        "children" => add_and_drop(&root, alloc, count)?,
        "tasks" => add_and_drop_tasks(&root, alloc, tasks, count)?,
        "message" => send_messages(&items, alloc, count)?,
        "rows" => take_rows(&root, alloc, &items, count)?,
        "steps" => take_steps(&root, alloc, &items, count)?,
        "snapshot" | "snapshot_of_levels" => take_snapshots(&root, alloc, &items, count)?,
        "session" => set_by_handle(alloc, count)?,
        "dashboard" => dashboards::draw_frames(&root, alloc, &items, false, count)?,
        "dashboard_few" => dashboards::draw_frames(&root, alloc, &items, true, count)?,
        _ => return Err(USAGE),
    }
    Ok(())
}

/// Adds tasks of this name below the root.
pub(crate) fn add_tasks<R: Wait + Clone + Drop>(
    root: &Root<R>,
    alloc: Global,
    tasks: u64,
    name: &str,
    unit: Option<Unit>,
) -> Result<Vec<Item<R>>, Refusal> {
    let mut items = Vec::new(alloc);
    for _ in 0..tasks {
        items.push(add_task(root, alloc, name, unit)?)?;
    }
    Ok(items)
}

/// Adds a task below the root.
pub(crate) fn add_task<R: Wait + Clone + Drop>(
    root: &Root<R>,
    alloc: Global,
    name: &str,
    unit: Option<Unit>,
) -> Result<Item<R>, Refusal> {
    let item = root.add_child(alloc, name)?;
    item.init(Some(1000), unit);
    Ok(item)
}

/// Adds tasks on two levels, in groups of one with nine children.
pub(crate) fn add_groups<R: Wait + Clone + Drop>(
    root: &Root<R>,
    alloc: Global,
    tasks: u64,
    unit: Option<Unit>,
) -> Result<Vec<Item<R>>, Refusal> {
    let mut items = Vec::new(alloc);
    for _ in 0..tasks / 10 {
        let mut parent = root.add_child(alloc, NAME)?;
        parent.init(Some(1000), unit);
        add_children(&mut parent, alloc, unit, &mut items)?;
        items.push(parent)?;
    }
    Ok(items)
}

/// Adds nine children of a task, and appends them.
fn add_children<R: Wait + Clone + Drop>(
    parent: &mut Item<R>,
    alloc: Global,
    unit: Option<Unit>,
    items: &mut Vec<Item<R>>,
) -> Result<(), Refusal> {
    for _ in 0..9 {
        let item = parent.add_child(alloc, NAME)?;
        item.init(Some(1000), unit);
        items.push(item)?;
    }
    Ok(())
}

/// Sets all tasks to a step.
pub(crate) fn set_all<R: Wait + Clone + Drop>(items: &[Item<R>], step: u64) {
    for item in items {
        item.set(step);
    }
}

/// Calls one of the methods that read or write an item's step.
fn make_steps<R: Wait + Clone + Drop>(item: &Item<R>, name: &str, count: u64) {
    match name {
        "set" => {
            for n in 0..count {
                item.set(n);
            }
        }
        "inc" => {
            for _ in 0..count {
                item.inc();
            }
        }
        "inc_by" => {
            for n in 0..count {
                item.inc_by(n);
            }
        }
        _ => {
            let mut most = 0;
            for _ in 0..count {
                most = item.step().unwrap_or(0).max(most);
            }
            item.set(most);
        }
    }
}

/// Adds a task and drops it.
fn add_and_drop<R: Wait + Clone + Drop>(
    root: &Root<R>,
    alloc: Global,
    count: u64,
) -> Result<(), Refusal> {
    for _ in 0..count {
        let item = root.add_child(alloc, NAME)?;
        item.inc();
    }
    Ok(())
}

/// Adds the tasks and drops them again, that many times.
fn add_and_drop_tasks<R: Wait + Clone + Drop>(
    root: &Root<R>,
    alloc: Global,
    tasks: u64,
    count: u64,
) -> Result<(), Refusal> {
    for _ in 0..count {
        add_tasks(root, alloc, tasks, NAME, None)?;
    }
    Ok(())
}

/// Sends messages from each task.
fn send_messages<R: Wait + Clone + Drop>(
    items: &[Item<R>],
    alloc: Global,
    count: u64,
) -> Result<(), Refusal> {
    for item in items {
        for n in 0..count {
            item.message(alloc, n, MessageLevel::Info, "a message of a task")?;
        }
    }
    Ok(())
}

/// Sets all tasks, and copies the rows.
fn take_rows<R: Wait + Clone + Drop>(
    root: &Root<R>,
    alloc: Global,
    items: &[Item<R>],
    count: u64,
) -> Result<(), Refusal> {
    let mut rows = Vec::new(alloc);
    for n in 0..count {
        set_all(items, n);
        root.sorted_snapshot(alloc, &mut rows)?;
    }
    Ok(())
}

/// Sets all tasks, and looks at their steps over the rows of one look.
fn take_steps<R: Wait + Clone + Drop>(
    root: &Root<R>,
    alloc: Global,
    items: &[Item<R>],
    count: u64,
) -> Result<(), Refusal> {
    let none = (Rows::new(Vec::new(alloc)), Messages::new(Vec::new(alloc)));
    let (rows, messages, _) = root.look(none, None)?;
    let mut spare = (Vec::new(alloc), messages);
    for n in 0..count {
        set_all(items, n);
        spare = match root.look_at_steps(&rows, spare, None)? {
            Some((steps, messages, _)) => (steps, messages),
            None => (Vec::new(alloc), Messages::new(Vec::new(alloc))),
        };
    }
    Ok(())
}

/// Sets all tasks, and copies the rows and the messages.
fn take_snapshots<R: Wait + Clone + Drop>(
    root: &Root<R>,
    alloc: Global,
    items: &[Item<R>],
    count: u64,
) -> Result<(), Refusal> {
    let (mut rows, mut messages) = (Vec::new(alloc), Vec::new(alloc));
    for n in 0..count {
        set_all(items, n);
        root.snapshot_and_new_messages(alloc, &mut rows, &mut messages, None)?;
    }
    Ok(())
}

/// Sets a task of a session by its handle.
fn set_by_handle(alloc: Global, count: u64) -> Result<(), Refusal> {
    let options = SessionOptions {
        root: RootOptions::default(),
        draw: draw::Options::default(),
        throughput: false,
    };
    let (parent, name, id) = (0, Text::from_str(alloc, NAME)?, UNKNOWN);
    let add = Event::AddChild { parent, name, id };
    let mut session = Session::new(alloc, &options)?;
    set_steps(&mut session, alloc, &add, count);
    Ok(())
}

/// Adds a task to a session, and sets it.
fn set_steps(session: &mut Session, alloc: Global, add: &Event, count: u64) {
    let mut screen = OverWrite::new(io::sink());
    session.apply(alloc, add, &mut screen);
    for step in 0..count {
        session.apply(alloc, &Event::Set { item: 1, step }, &mut screen);
    }
}
