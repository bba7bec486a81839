//! The table beside the hashed one that it replaced.
use crate::fixtures::assert_same;
use crate::hashed_table::HashedTable;
use prodash_base::progress::key::next_id;
use prodash_base::progress::{Key, Step, UNKNOWN};
use prodash_core::tree::{Counted, Counters, TreeCore};
use std::alloc::Global;
use std::process::Abort;

/// Counters that are their own numbers.
#[derive(Drop)]
struct OwnNumbers;

impl Counters<u64> for OwnNumbers {
    ghost shows = { λ _ counter n. Unit {0} };

    fn number(&self, counter: u64) -> Step {
        counter
    }
}

/// Both tables, and the keys of the latest insertions.
#[derive(Drop)]
struct Both {
    ordered: TreeCore<u64>,
    hashed: HashedTable,
    latest: Vec<Key>,
    /// The number of the next child.
    number: u32,
}

/// How many keys are kept of the latest insertions.
const LATEST: u64 = 64;

/// The first of the numbers that children get in turn: the twentieth is 0 again.
const FIRST: u32 = u32::MAX - 20;

impl Both {
    /// Returns one of the latest keys, or the root's a third of the time.
    fn key(&self, word: u64) -> Key {
        let place = (word / 16 % (LATEST + LATEST / 2)) as usize;
        match self.latest.get(place) {
            Some(key) => *key,
            None => Key::default(),
        }
    }

    /// Inserts a child below the latest keys. Every forty-first child gets the first number again,
    /// and may replace an earlier one.
    fn insert(&mut self, rt: &impl Abort, alloc: Global, word: u64, name: &str) {
        let key = self.key(word).add_child(self.number);
        self.number = if self.number == 20 {
            FIRST
        } else {
            next_id(self.number)
        };
        let ordered = self.ordered.insert(alloc, key, name, UNKNOWN);
        ordered.expect(rt, "no refusal");
        let hashed = self.hashed.insert(alloc, key, name, UNKNOWN);
        hashed.expect(rt, "no refusal");
        if self.latest.len() as u64 == LATEST {
            self.latest.swap_remove((word / 1024 % LATEST) as usize);
        }
        self.latest.push(key).expect(rt, "memory");
    }

    /// Makes one call on both, and asserts that both return the same.
    fn call(&mut self, rt: &impl Abort, alloc: Global, word: u64) {
        let (key, step) = (self.key(word), word / 65536);
        match word % 8 {
            0 => self.insert(rt, alloc, word, "a"),
            1 => self.insert(rt, alloc, word, "b"),
            2 => self.insert(rt, alloc, word, "c"),
            3 => self.init(rt, key, None),
            4 => self.init(rt, key, Some(step)),
            5 => {
                let got = self.ordered.set_max(key, Some(step));
                assert_same(rt, got, self.hashed.set_max(key, Some(step)), word);
            }
            _ => {
                let got = self.ordered.remove(key);
                assert_same(rt, got, self.hashed.remove(key), word);
            }
        }
    }

    /// Begins the progress of a task in both, at a step that is its bound too, or ends it.
    fn init(&mut self, rt: &impl Abort, key: Key, step: Option<Step>) {
        let counted = Counted::begin(step.unwrap_or(0), step, None);
        let got = self.ordered.init(key, counted);
        assert_same(rt, got, self.hashed.init(key, counted), step);
    }

    /// Asserts that both list the same rows.
    fn assert_listed(&self, rt: &impl Abort, alloc: Global) {
        let got = self.ordered.rows(alloc, &OwnNumbers).expect(rt, "memory");
        let want = self.hashed.rows(alloc, &OwnNumbers).expect(rt, "memory");
        assert_same(rt, got, want, "rows");
    }
}

/// How many calls are made, and after how many both list their rows.
const CALLS: u64 = 70_000;

const LISTED: u64 = 7000;

#[test]
fn both_tables_have_the_same_rows_after_70000_calls(rt: HostRuntime) {
    let alloc = rt.alloc();
    let mut both = Both {
        ordered: TreeCore::new(alloc),
        hashed: HashedTable::new(alloc),
        latest: Vec::new(alloc),
        number: FIRST,
    };
    let mut word: u64 = 1;
    for n in 1..=CALLS {
        word = word
            .wrapping_mul(6364136223846793005)
            .wrapping_add(1442695040888963407);
        both.call(&rt, alloc, word >> 20);
        if n % LISTED == 0 {
            both.assert_listed(&rt, alloc);
        }
    }
    drop(both);
}
