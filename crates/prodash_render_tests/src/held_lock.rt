//! The step of an item while another thread holds the lock of its tree.
use crate::fixtures::{arc, assert_same, share};
use crate::waiting::{assert_soon, holds_soon};
use prodash::tree::Root;
use std::alloc::{AllocError, Global};
use std::sync::Arc;
use std::sync::atomic::{AtomicBool, Ordering};
use std::thread;

/// Whether copies of a runtime are made at once, and what became of those that waited.
#[derive(Drop)]
struct Flags {
    open: AtomicBool,
    /// A copy waits.
    waits: AtomicBool,
    /// A copy has waited in vain.
    gave_up: AtomicBool,
}

/// A part of a runtime. While it is not open, a copy of it waits for ten seconds at most. An owner
/// of a tree is cloned under the lock, and copies its runtime there.
#[derive(Drop)]
struct Gate {
    rt: HostRuntime,
    flags: Arc<Flags>,
}

impl Gate {
    fn wait_until_open(&self) {
        if self.flags.open.load(Ordering::SeqCst) {
            return;
        }
        self.flags.waits.store(true, Ordering::SeqCst);
        if !holds_soon(&self.rt, &self.flags.open) {
            self.flags.gave_up.store(true, Ordering::SeqCst);
        }
    }
}

impl Clone for Gate {
    fn clone(&self) -> Result<Gate, AllocError> {
        self.wait_until_open();
        let flags = Arc::try_clone(&self.flags)?;
        Ok(Gate { rt: self.rt, flags })
    }
}

#[test]
fn steps_do_not_wait_for_the_lock(rt: HostRuntime) {
    let alloc: Global = rt.alloc();
    let flags = Flags {
        open: AtomicBool::new(true),
        waits: AtomicBool::new(false),
        gave_up: AtomicBool::new(false),
    };
    let flags = arc(&rt, alloc, flags);
    let gate = Gate {
        rt,
        flags: share(&rt, &flags),
    };
    let root = Root::new((rt, gate), alloc).expect(&rt, "no refusal");
    let item = root.add_child(alloc, "task").expect(&rt, "no refusal");
    flags.open.store(false, Ordering::SeqCst);
    let worker = thread::spawn(&rt, move || root.clone().is_ok()).expect(&rt, "a thread");
    assert_soon(&rt, &flags.waits, "a copy is made under the lock");
    item.set(3);
    item.inc_by(2);
    item.inc();
    assert_same(&rt, item.step(), Some(6), "step");
    flags.open.store(true, Ordering::SeqCst);
    assert_same(&rt, worker.join(&rt), true, "copy");
    let has_given_up = flags.gave_up.load(Ordering::SeqCst);
    assert_same(&rt, has_given_up, false, "the calls wait for the lock");
    drop(item);
}
