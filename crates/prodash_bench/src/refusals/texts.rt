//! Calls that append a value in its unit to a string, or return a text.
use prodash::Refusal;
use prodash::progress::Step;
use prodash::time::format_time_for_messages;
use prodash::unit::display::{Mode, Throughput, append, append_unit, append_values};
use prodash::unit::human::Formatter;
use prodash::unit::{
    Bytes, Duration, Human, Kind, Range, dynamic, dynamic_and_mode, throughput_message,
};
use prodash_fixtures::Calls;
use prodash_programs::Fault;
use std::alloc::Global;

/// The value that is shown.
const VALUE: Step = 1_500_000;

/// Its bound.
const BOUND: Option<Step> = Some(2_000_000);

/// Its throughput: 2500 in a second.
const THROUGHPUT: Option<Throughput> = Some(Throughput {
    value_change_in_timespan: 2500,
    timespan: 1_000_000_000,
});

/// What is in a string before a text is appended to it.
const BEFORE: &str = "task: ";

/// A kind and a mode, and the value in full.
#[derive(Drop)]
struct Case {
    kind: Kind,
    mode: Mode,
    text: &'static str,
}

/// What is appended of the value.
#[derive(Clone, Copy)]
enum Part {
    Whole,
    Display,
    Values,
    Unit,
}

/// The calls that append the value, each with what it appends.
const PARTS: &[(&'static str, Part)] = &[
    ("unit::display::append", Part::Whole),
    ("UnitDisplay::append_to", Part::Display),
    ("unit::display::append_values", Part::Values),
    ("unit::display::append_unit", Part::Unit),
];

/// Appends the value in each kind of unit, and makes the other texts.
pub(crate) fn run(alloc: Global, calls: &mut Calls) -> Result<(), Fault> {
    let both = Mode::with_percentage().and_throughput();
    let human = Human::new(Formatter::default(), "objects");
    let (kind, mode) = (Kind::Label("items"), both.show_before_value());
    let text = "[75%] |2500/s| 1500000/2000000 items";
    append_all(alloc, &Case { kind, mode, text }, calls)?;
    let (kind, mode, text) = (Kind::Bytes(Bytes), both, "1.5MB/2.0MB [75%] |2.5kB/s|");
    append_all(alloc, &Case { kind, mode, text }, calls)?;
    let (kind, text) = (Kind::Human(human), "1.50M/2.00M objects [75%] |2.50k/s|");
    append_all(alloc, &Case { kind, mode, text }, calls)?;
    let (kind, mode) = (Kind::Range(Range::new("steps")), Mode::with_percentage());
    let text = "1500001 of 2000000 steps [75%]";
    append_all(alloc, &Case { kind, mode, text }, calls)?;
    let (kind, text) = (Kind::Duration(Duration), "17d8h40m of 23d3h33m20s [75%]");
    append_all(alloc, &Case { kind, mode, text }, calls)?;
    message(alloc, calls)?;
    time(alloc, calls)
}

/// Appends the value in full and in parts.
fn append_all(alloc: Global, case: &Case, calls: &mut Calls) -> Result<(), Fault> {
    for (call, part) in PARTS {
        calls.begin(*call);
        append_once(alloc, case, *part, calls)?;
    }
    Ok(())
}

/// Appends a part of the value to a string, which is unchanged if that is refused.
fn append_once(alloc: Global, case: &Case, part: Part, calls: &mut Calls) -> Result<(), Fault> {
    let mut out = String::from_str(alloc, BEFORE)?;
    if let Err(refusal) = append_part(alloc, &mut out, case, part) {
        let is_unchanged = out.as_str() == BEFORE;
        let again = append_part(alloc, &mut out, case, part);
        calls.refuse(refusal, is_unchanged && again.is_ok());
        again?;
    }
    let shown = out.as_str().strip_prefix(BEFORE).unwrap_or("");
    calls.expect(!shown.is_empty() && is_part(shown, case.text, part));
    Ok(())
}

/// Appends a part of the value by its call.
fn append_part(alloc: Global, out: &mut String, case: &Case, part: Part) -> Result<(), Refusal> {
    let (kind, mode) = (&case.kind, Some(case.mode));
    match part {
        Part::Whole => append(out, kind, mode, VALUE, BOUND, THROUGHPUT),
        Part::Display => dynamic_and_mode(case.kind, case.mode)
            .display(alloc, VALUE, BOUND, THROUGHPUT)
            .append_to(out),
        Part::Values => append_values(out, kind, mode, VALUE, BOUND, THROUGHPUT),
        Part::Unit => append_unit(out, kind, mode, VALUE, BOUND, THROUGHPUT),
    }
}

/// Returns whether this is the part of the text of a value.
fn is_part(shown: &str, text: &str, part: Part) -> bool {
    match part {
        Part::Whole | Part::Display => shown == text,
        Part::Values => text.starts_with(shown),
        Part::Unit => text.ends_with(shown),
    }
}

/// Makes the message of 10 steps in two and a half seconds.
fn message(alloc: Global, calls: &mut Calls) -> Result<(), Fault> {
    calls.begin("unit::throughput_message");
    let (unit, now) = (dynamic(Kind::Label("items")), 2_500_000_000);
    let text = match throughput_message(alloc, 0, now, 10, Some(&unit)) {
        Ok(text) => text,
        Err(refusal) => {
            let again = throughput_message(alloc, 0, now, 10, Some(&unit));
            calls.refuse(refusal, again.is_ok());
            again?
        }
    };
    calls.expect(text.as_str() == "done 10 items in 2.50s (4 items/s)");
    Ok(())
}

/// Makes the text of the first hour after midnight.
fn time(alloc: Global, calls: &mut Calls) -> Result<(), Fault> {
    calls.begin("format_time_for_messages");
    let at = 3_600_000_000_000;
    let text = match format_time_for_messages(alloc, at) {
        Ok(text) => text,
        Err(refusal) => {
            let again = format_time_for_messages(alloc, at);
            calls.refuse(refusal, again.is_ok());
            again?
        }
    };
    calls.expect(text.as_str() == "01:00:00");
    Ok(())
}
