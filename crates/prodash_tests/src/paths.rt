//! Each public path of `prodash`, imported once. A path that is missing or private is an error of
//! the compiler, so there is nothing to run.
mod top {
    pub use prodash::{
        BoxedProgress, Count, NestedProgress, Progress, Refusal, Root, Text, Throughput, Unit,
        WeakRoot,
    };
}

mod laws {
    pub use prodash::laws::{
        copies_have_what_is_new, days_have_one_date, deferred_requests_wait,
        no_message_is_copied_twice, one_spelling, rates_are_over_the_latest_second,
        rings_keep_the_last,
    };
}

mod messages {
    pub use prodash::messages::{
        Message, MessageCopyState, MessageLevel, MessageRingBuffer, Messages,
    };
}

mod progress {
    pub use prodash::progress::{
        AnyProgress, AtomicStep, Discard, DoOrDiscard, Either, Id, Key, Log, Reporter, Row, Rows,
        State, Step, StepShared, Task, ThroughputOnDrop, UNKNOWN, Value,
    };
}

mod key {
    pub use prodash::progress::key::{Adjacency, Key, Level, SiblingLocation, next_id};
}

mod logging {
    pub use prodash::progress::logging::Log;
}

mod utils {
    pub use prodash::progress::utils::{
        AnyProgress, Discard, DoOrDiscard, Either, Reporter, ThroughputOnDrop,
    };
}

mod line {
    pub use prodash::render::line::{
        ColorChoice, Environment, JoinHandle, Options, StackSizes, StandardStreams, StreamKind,
        Variables, render, render_with_stacks,
    };
}

mod draw {
    pub use prodash::render::line::draw::{
        Answer, Input, MemoryScreen, Options, OverWrite, Screen, State, all, safe_char,
        tick_with_steps,
    };
}

mod engine {
    pub use prodash::render::line::engine::{Engine, EngineEvent};
}

mod page {
    pub use prodash::render::line::page::{
        Cell, CharColumns, Color, Fault, Joined, Page, Sign, Style, UnicodeWidth, read, spell,
    };
}

mod plain {
    pub use prodash::render::plain::{Outcome, Plain};
}

mod tui {
    pub use prodash::render::tui::{
        Answer, Event, Interrupt, InterruptMode, Key, KeyCode, Line, Options, Rect, State,
        VERTICAL_LINE, level_prefix,
    };
}

mod throughput {
    pub use prodash::throughput::{FrameThroughput, Throughput};
}

mod time {
    pub use prodash::time::{
        Clock, DATE_TIME_HMS, Moment, SystemClock, format_now_datetime_seconds,
        format_time_for_messages,
    };
}

mod tree {
    pub use prodash::tree::{
        Counted, Counters, Event, Handle, Item, Reply, Root, RootOptions, Session, SessionOptions,
        Steps, Task, TreeCore, TreeState, WeakHandle, run,
    };
}

mod item {
    pub use prodash::tree::item::Item;
}

mod recorded {
    pub use prodash::tree::recorded::{
        History, Journal, Ledgers, Receipt, RecordedItem, RecordedRoot, RecordedState, Share,
        TreeLedger, Unclosed,
    };
}

mod recorders {
    pub use prodash::tree::recorded::{RecordedCalls, RecordedTask, Recorder};
}

mod root {
    pub use prodash::tree::root::{Options, Root, WeakHandle};
}

mod unit {
    pub use prodash::unit::{
        Bytes, DisplayValue, Duration, Human, Kind, Range, Unit, dynamic, dynamic_and_mode, label,
        label_and_mode, throughput_message,
    };
}

mod display {
    pub use prodash::unit::display::{
        Location, Mode, Throughput, UnitDisplay, append, append_unit, append_values,
    };
}

mod human {
    pub use prodash::unit::human::{Formatter, Human};
}

mod label_texts {
    pub use prodash::unit::label_texts::{
        display_current_value, display_percentage, display_upper_bound, fraction_and_time_unit,
        separator,
    };
}
