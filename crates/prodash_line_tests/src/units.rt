use crate::fixtures::{assert_ascending, assert_distinct, assert_hashed, assert_same};
use prodash_base::progress::Step;
use prodash_base::unit::display::{self, Location, Mode, Throughput, UnitDisplay};
use prodash_base::unit::human::Formatter;
use prodash_base::unit::{
    Bytes, DisplayValue, Duration, Human, Kind, Range, Unit, dynamic, dynamic_and_mode, label,
    label_and_mode, label_texts, throughput_message,
};
use std::alloc::{AllocError, Global};
use std::process::Abort;

const SECOND: u64 = 1_000_000_000;

const MAX: u64 = u64::MAX;

/// Which of percentage and throughput a unit shows, and at which place.
#[derive(Clone, Copy)]
enum Shows {
    Neither,
    PercentageBefore,
    PercentageAfter,
    ThroughputBefore,
    ThroughputAfter,
    BothBefore,
    BothAfter,
}

/// A unit of this kind that shows these.
fn unit(kind: Kind, shows: Shows) -> Unit {
    let mode = match shows {
        Shows::Neither => return dynamic(kind),
        Shows::PercentageBefore => Mode::with_percentage().show_before_value(),
        Shows::PercentageAfter => Mode::with_percentage(),
        Shows::ThroughputBefore => Mode::with_throughput().show_before_value(),
        Shows::ThroughputAfter => Mode::with_throughput(),
        Shows::BothBefore => Mode::with_percentage().and_throughput().show_before_value(),
        Shows::BothAfter => Mode::with_throughput().and_percentage(),
    };
    dynamic_and_mode(kind, mode)
}

const ITEMS: Kind = Kind::Label("items");

const STEPS: Kind = Kind::Range(Range { name: "steps" });

const OBJECTS: Kind = Kind::Human(Human {
    name: "objects",
    formatter: Formatter { decimals: 2 },
});

const BYTES: Kind = Kind::Bytes(Bytes);

const SECONDS: Kind = Kind::Duration(Duration);

const NAMELESS: Kind = Kind::Label("");

/// A kind, what is shown with it, a value, a bound, a throughput as change and nanoseconds, and the
/// text.
type Line = (
    Kind,
    Shows,
    u64,
    Option<u64>,
    Option<(u64, u64)>,
    &'static str,
);

#[rattlefmt::skip]
const TEXTS: &[Line] = &[
    (ITEMS, Shows::Neither, 3, None, None, "3 items"),
    (ITEMS, Shows::Neither, 3, Some(10), Some((5, SECOND)), "3/10 items"),
    (ITEMS, Shows::PercentageBefore, 3, Some(10), None, "[30%] 3/10 items"),
    (ITEMS, Shows::PercentageBefore, 29, Some(100), None, "[29%] 29/100 items"),
    (ITEMS, Shows::PercentageBefore, 0, Some(0), None, "[0%] 0/0 items"),
    (ITEMS, Shows::PercentageBefore, 1, Some(0), None, "[18446744073709551615%] 1/0 items"),
    (ITEMS, Shows::PercentageBefore, 3, None, None, "3 items"),
    (ITEMS, Shows::PercentageAfter, 3, Some(10), None, "3/10 items [30%]"),
    (ITEMS, Shows::ThroughputBefore, 3, Some(10), Some((5, SECOND)), "|5/s| 3/10 items"),
    (ITEMS, Shows::ThroughputAfter, 3, Some(10), Some((5, SECOND)), "3/10 items |5/s|"),
    (ITEMS, Shows::ThroughputAfter, 3, Some(10), None, "3/10 items"),
    (ITEMS, Shows::BothBefore, 3, Some(10), Some((5, SECOND)), "[30%] |5/s| 3/10 items"),
    (ITEMS, Shows::BothAfter, 3, Some(10), Some((5, SECOND)), "3/10 items [30%] |5/s|"),
    (NAMELESS, Shows::BothAfter, 3, Some(10), Some((5, 90 * SECOND)), "3/10 [30%] |5/1.5m|"),
    (NAMELESS, Shows::ThroughputAfter, 3, None, Some((5, 4000 * SECOND)), "3 |5/1.111h|"),
    (NAMELESS, Shows::ThroughputAfter, 3, None, Some((5, 3601 * SECOND)), "3 |5/1h|"),
    (NAMELESS, Shows::ThroughputAfter, 3, None, Some((5, 0)), "3 |5/0ms|"),
    (NAMELESS, Shows::ThroughputAfter, 3, None, Some((5, SECOND - 1)), "3 |5/999ms|"),
    (NAMELESS, Shows::ThroughputAfter, 3, None, Some((5, 59 * SECOND)), "3 |5/59s|"),
    (STEPS, Shows::Neither, 1, Some(5), None, "2 of 5 steps"),
    (STEPS, Shows::Neither, MAX, None, None, "18446744073709551616 steps"),
    (STEPS, Shows::ThroughputAfter, 1, None, Some((5, SECOND)), "2 steps |6/s|"),
    (BYTES, Shows::Neither, 999, None, None, "999B"),
    (BYTES, Shows::Neither, 1000, Some(MAX), None, "1.0kB/18.4EB"),
    (BYTES, Shows::ThroughputAfter, 999_999, None, Some((1999, SECOND)), "999.9kB |1.9kB/s|"),
    (SECONDS, Shows::Neither, 620_410, None, None, "7d4h20m10s"),
    (SECONDS, Shows::Neither, 0, Some(86_400), None, "0s of 1d"),
    (SECONDS, Shows::Neither, MAX, None, None, "213503982334601d7h15s"),
    (OBJECTS, Shows::Neither, 999, None, None, "999 objects"),
    (OBJECTS, Shows::Neither, 2_540_000, Some(3_000_000), None, "2.54M/3.00M objects"),
    (OBJECTS, Shows::Neither, 1_999_999_999, None, None, "1.99G objects"),
    (OBJECTS, Shows::Neither, 5_006_000_000_000_000, None, None, "5.00P objects"),
];

/// The display of a line's value.
fn display_of(alloc: Global, line: &Line) -> UnitDisplay {
    let (kind, shows, value, bound, throughput, _) = *line;
    let throughput = match throughput {
        Some((change, time)) => Some(Throughput::new(change, time)),
        None => None,
    };
    unit(kind, shows).display(alloc, value, bound, throughput)
}

fn assert_text(rt: &impl Abort, alloc: Global, display: &UnitDisplay, want: &str) {
    assert_same(
        rt,
        display.to_string(alloc).expect(rt, "memory").as_str(),
        want,
        "display",
    );
}

/// The text is appended to what is there.
fn assert_appended(rt: &impl Abort, alloc: Global, display: &UnitDisplay, want: &str) {
    let mut text = String::from_str(alloc, "> ").expect(rt, "memory");
    display.append_to(&mut text).expect(rt, "memory");
    assert_same(rt, text.as_str().strip_prefix("> "), Some(want), "appended");
}

#[test]
fn values_have_texts(rt: HostRuntime) {
    for line in TEXTS {
        let display = display_of(rt.alloc(), line);
        assert_text(&rt, rt.alloc(), &display, line.5);
        assert_appended(&rt, rt.alloc(), &display, line.5);
    }
}

#[test]
fn a_display_keeps_its_part(rt: HostRuntime) {
    let alloc = rt.alloc();
    let unit = label_and_mode("B", Mode::with_percentage());
    let mut display = unit.display(alloc, 3, Some(10), None);
    assert_text(&rt, alloc, &display, "3/10 B [30%]");
    assert_text(&rt, alloc, display.values(), "3/10");
    assert_text(&rt, alloc, &display, "3/10");
    assert_text(&rt, alloc, display.unit(), "B [30%]");
    assert_text(&rt, alloc, &display, "B [30%]");
    assert_text(&rt, alloc, display.all(), "3/10 B [30%]");
}

/// The moments of the begin and the end, a step, the kind of its unit if it has one, and the text.
type Message = (u64, u64, u64, Option<Kind>, &'static str);

#[rattlefmt::skip]
const MESSAGES: &[Message] = &[
    (0, 2_500_000_000, 10, None, "done 10 items in 2.50s (4 items/s)"),
    (0, SECOND, 1999, Some(BYTES), "done 1.9kB in 1.00s (1.9kB/s)"),
    (7, 1_005_000_007, 1, Some(ITEMS), "done 1 items in 1.01s (0 items/s)"),
    (7, 7, 0, None, "done 0 items in 0.00s (0 items/s)"),
    (7, 7, 1, None, "done 1 items in 0.00s (18446744073709551615 items/s)"),
    (9, 7, 1, Some(NAMELESS), "done 1 in 0.00s (18446744073709551615/s)"),
    (0, SECOND, 1, Some(STEPS), "done 2 steps in 1.00s (2 steps/s)"),
];

fn assert_message(rt: &impl Abort, alloc: Global, row: &Message) {
    let (start, now, step, kind, want) = *row;
    let unit = match kind {
        Some(kind) => Some(dynamic(kind)),
        None => None,
    };
    let text = throughput_message(alloc, start, now, step, unit.as_ref()).expect(rt, "memory");
    assert_same(rt, text.as_str(), want, "message");
}

#[test]
fn throughput_messages(rt: HostRuntime) {
    for row in MESSAGES {
        assert_message(&rt, rt.alloc(), row);
    }
}

#[test]
fn default_kinds(rt: HostRuntime) {
    assert_same(&rt, Range::new(""), Range::default(), "range");
    assert_same(&rt, Bytes::default(), Bytes, "bytes");
    assert_same(&rt, Duration::default(), Duration, "duration");
}

#[test]
fn units_differ_by_any_field(rt: HostRuntime) {
    let three = Formatter { decimals: 3 };
    let before = Mode::with_percentage().show_before_value();
    let units = [
        label("items"),
        label("steps"),
        dynamic(STEPS),
        dynamic(BYTES),
        dynamic(SECONDS),
        dynamic(OBJECTS),
        dynamic(Kind::Human(Human::new(three, "objects"))),
        dynamic(Kind::Human(Human::new(three, "items"))),
        label_and_mode("items", Mode::with_percentage()),
        label_and_mode("items", Mode::with_throughput()),
        label_and_mode("items", before),
        label_and_mode("items", before.and_throughput()),
    ];
    assert_distinct(&rt, &units, &units);
}

/// All modes in ascending order.
fn modes() -> [Mode; 6] {
    [
        Mode::with_throughput().show_before_value(),
        Mode::with_percentage().show_before_value(),
        Mode::with_percentage().and_throughput().show_before_value(),
        Mode::with_throughput(),
        Mode::with_percentage(),
        Mode::with_percentage().and_throughput(),
    ]
}

#[test]
fn orders_go_by_the_fields(rt: HostRuntime) {
    assert_ascending(&rt, &[Location::BeforeValue, Location::AfterUnit]);
    assert_ascending(&rt, &modes());
    assert_ascending(&rt, &[Range::new(""), Range::new("a"), Range::new("b")]);
    let throughputs = [
        Throughput::new(1, 2),
        Throughput::new(1, 3),
        Throughput::new(2, 1),
    ];
    assert_ascending(&rt, &throughputs);
}

#[test]
fn modes_and_locations_are_hashed(rt: HostRuntime) {
    assert_hashed(&rt, rt.alloc(), &modes());
    assert_hashed(
        &rt,
        rt.alloc(),
        &[Location::BeforeValue, Location::AfterUnit],
    )
}

/// A kind with a separator and a time unit of its own. The rest is shown as a label does.
struct Stars;

impl DisplayValue for Stars {
    ghost use Rattle.std.specs.Prelude.{codes, None};
    ghost use Rattle.prodash_base.specs.Shown.{label_shown, with_throughput};

    ghost shown = { λ _. with_throughput (record (label_shown (codes "stars")) {
      separator = λ _ _. codes " ~ ";
      fraction = λ _. None;
      time_unit = λ _. codes "tick";
    }) };

    fn display_current_value(
        &self,
        out: &mut String,
        value: Step,
        _upper: Option<Step>,
    ) -> Result<(), AllocError> {
        label_texts::display_current_value(out, value)
    }

    fn separator(
        &self,
        out: &mut String,
        _value: Step,
        _upper: Option<Step>,
    ) -> Result<(), AllocError> {
        out.push_str(" ~ ")
    }

    fn display_upper_bound(
        &self,
        out: &mut String,
        upper_bound: Step,
        _value: Step,
    ) -> Result<(), AllocError> {
        label_texts::display_upper_bound(out, upper_bound)
    }

    fn display_unit(&self, out: &mut String, _value: Step) -> Result<(), AllocError> {
        out.push_str("stars")
    }

    fn display_percentage(&self, out: &mut String, percentage: u64) -> Result<(), AllocError> {
        label_texts::display_percentage(out, percentage)
    }

    fn fraction_and_time_unit(&self, _nanoseconds: u64) -> (Option<(u64, u64)>, &'static str) {
        (None, "tick")
    }

    fn display_throughput(
        &self,
        out: &mut String,
        throughput: &Throughput,
    ) -> Result<(), AllocError> {
        self.label_throughput(out, throughput)
    }
}

#[test]
fn an_own_kind_is_appended(rt: HostRuntime) {
    let mode = Some(Mode::with_percentage().and_throughput());
    let throughput = Some(Throughput::new(5, 7));
    let mut text = String::from_str(rt.alloc(), "> ").expect(&rt, "memory");
    display::append(&mut text, &Stars, mode, 3, Some(10), throughput).expect(&rt, "memory");
    display::append_values(&mut text, &Stars, mode, 4, Some(10), throughput).expect(
        &rt,
        "no refusal",
    );
    display::append_unit(&mut text, &Stars, mode, 5, Some(10), throughput).expect(&rt, "memory");
    let want = "> 3 ~ 10 stars [30%] |5/tick|4 ~ 10stars [50%] |5/tick|";
    assert_same(&rt, text.as_str(), want, "text");
}

#[test]
fn displays_ignore_width_and_precision(rt: HostRuntime) {
    let alloc = rt.alloc();
    let display = label("items").display(alloc, 3, Some(10), None);
    let texts = [
        format!(in alloc; "{display:>20}").expect(&rt, "memory"),
        format!(in alloc; "{display:020}").expect(&rt, "memory"),
        format!(in alloc; "{display:.2}").expect(&rt, "memory"),
    ];
    for text in &texts {
        assert_same(&rt, text.as_str(), "3/10 items", "display");
    }
}
