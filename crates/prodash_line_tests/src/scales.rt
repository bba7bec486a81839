//! Values in scales of one's own, worked by hand.
use crate::drawings::{Ask, Drawing, assert_draws};
use crate::fixtures::{assert_debug, assert_distinct, assert_same};
use prodash_base::unit::display::{Mode, Throughput};
use prodash_base::unit::{
    Kind, Scale, ScaleError, Scaled, Scales, Unit, dynamic, dynamic_and_mode, throughput_message,
};
use std::alloc::Global;
use std::process::Abort;

const SECOND: u64 = 1_000_000_000;

const MAX: u64 = u64::MAX;

/// Bytes in powers of 1024, with more decimals from scale to scale.
#[rattlefmt::skip]
pub(crate) const BINARY: &Scales = &Scales {
    separator: " of ",
    scales: &[
        Scale { factor: 1, decimals: 0, suffix: " B" },
        Scale { factor: 1 << 10, decimals: 1, suffix: " KiB" },
        Scale { factor: 1 << 20, decimals: 2, suffix: " MiB" },
        Scale { factor: 1 << 30, decimals: 3, suffix: " GiB" },
    ],
};

/// Bytes in powers of 1024, as documentation shows them.
#[rattlefmt::skip]
const SHORT: &Scales = &Scales {
    separator: "/",
    scales: &[
        Scale { factor: 1, decimals: 0, suffix: " B" },
        Scale { factor: 1 << 10, decimals: 1, suffix: " KiB" },
        Scale { factor: 1 << 20, decimals: 1, suffix: " MiB" },
    ],
};

/// Cents.
#[rattlefmt::skip]
const CENTS: &Scales = &Scales {
    separator: "/",
    scales: &[Scale { factor: 100, decimals: 2, suffix: "" }],
};

/// Tenths of degrees.
#[rattlefmt::skip]
const TENTHS: &Scales = &Scales {
    separator: " → ",
    scales: &[Scale { factor: 10, decimals: 1, suffix: "°" }],
};

/// Tenths of degrees, as documentation shows them.
#[rattlefmt::skip]
const OVEN: &Scales = &Scales {
    separator: " of ",
    scales: &[Scale { factor: 10, decimals: 1, suffix: " °C" }],
};

/// Tenths of degrees, stored in another place.
#[rattlefmt::skip]
static SAME_TENTHS: Scales = Scales {
    separator: " → ",
    scales: &[Scale { factor: 10, decimals: 1, suffix: "°" }],
};

const REQUESTS: &Scales = &Scales {
    separator: "/",
    scales: THOUSANDS,
};

#[rattlefmt::skip]
const THOUSANDS: &[Scale] = &[
    Scale { factor: 1, decimals: 0, suffix: "" },
    Scale { factor: 1000, decimals: 1, suffix: "k" },
    Scale { factor: 1_000_000, decimals: 1, suffix: "M" },
];

/// Milliseconds, in hundredths of seconds also below a second.
#[rattlefmt::skip]
const MILLISECONDS: &Scales = &Scales {
    separator: "/",
    scales: &[
        Scale { factor: 1000, decimals: 2, suffix: "s" },
        Scale { factor: 60_000, decimals: 1, suffix: "min" },
    ],
};

/// Thirds, which have no end.
#[rattlefmt::skip]
const THIRDS: &Scales = &Scales {
    separator: "",
    scales: &[Scale { factor: 3, decimals: 6, suffix: "" }],
};

/// Each number of decimals.
#[rattlefmt::skip]
const DECIMALS: &Scales = &Scales {
    separator: "/",
    scales: &[
        Scale { factor: 1, decimals: 0, suffix: "a" },
        Scale { factor: 10, decimals: 1, suffix: "b" },
        Scale { factor: 100, decimals: 2, suffix: "c" },
        Scale { factor: 1000, decimals: 3, suffix: "d" },
        Scale { factor: 10_000, decimals: 4, suffix: "e" },
        Scale { factor: 100_000, decimals: 5, suffix: "f" },
        Scale { factor: 1_000_000, decimals: 6, suffix: "g" },
    ],
};

const PLAIN: &Scales = &Scales {
    separator: ":",
    scales: &[],
};

/// Scales, a name, a value, a bound, and the text.
type Line = (
    &'static Scales,
    &'static str,
    u64,
    Option<u64>,
    &'static str,
);

#[rattlefmt::skip]
const TEXTS: &[Line] = &[
    (BINARY, "", 0, None, "0 B"),
    (BINARY, "", 1, Some(0), "1 B of 0 B"),
    (BINARY, "", 1023, None, "1023 B"),
    (BINARY, "", 1024, None, "1.0 KiB"),
    (BINARY, "", 1126, None, "1.0 KiB"),
    (BINARY, "", 1127, None, "1.1 KiB"),
    (BINARY, "", 1_048_575, None, "1023.9 KiB"),
    (BINARY, "", 1_048_576, None, "1.00 MiB"),
    (BINARY, "", 1_073_741_823, None, "1023.99 MiB"),
    (BINARY, "", 1_073_741_824, None, "1.000 GiB"),
    (BINARY, "", MAX, None, "17179869183.999 GiB"),
    (BINARY, "read", 1536, Some(2_097_152), "1.5 KiB of 2.00 MiB read"),
    // a bound that is less than the value
    (BINARY, "read", 2048, Some(5), "2.0 KiB of 5 B read"),
    (SHORT, "", 1536, Some(2_097_152), "1.5 KiB/2.0 MiB"),
    (CENTS, "EUR", 0, Some(99), "0.00/0.99 EUR"),
    (CENTS, "EUR", 5, Some(100), "0.05/1.00 EUR"),
    (CENTS, "EUR", 5, Some(1234), "0.05/12.34 EUR"),
    (CENTS, "EUR", 1234, Some(2000), "12.34/20.00 EUR"),
    (CENTS, "EUR", MAX, None, "184467440737095516.15 EUR"),
    (OVEN, "", 215, Some(1800), "21.5 °C of 180.0 °C"),
    (TENTHS, "", 5, Some(215), "0.5° → 21.5°"),
    (TENTHS, "C", 9, Some(10), "0.9° → 1.0° C"),
    (REQUESTS, "requests", 999, Some(1000), "999/1.0k requests"),
    (REQUESTS, "requests", 1200, None, "1.2k requests"),
    (REQUESTS, "requests", 999_999, Some(1_000_000), "999.9k/1.0M requests"),
    (REQUESTS, "requests", 1999, Some(MAX), "1.9k/18446744073709.5M requests"),
    (MILLISECONDS, "", 0, Some(9), "0.00s/0.00s"),
    (MILLISECONDS, "", 10, Some(1500), "0.01s/1.50s"),
    (MILLISECONDS, "", 59_999, Some(60_000), "59.99s/1.0min"),
    (DECIMALS, "", 9, Some(10), "9a/1.0b"),
    (DECIMALS, "", 99, Some(100), "9.9b/1.00c"),
    (DECIMALS, "", 999, Some(1000), "9.99c/1.000d"),
    (DECIMALS, "", 9999, Some(10_000), "9.999d/1.0000e"),
    (DECIMALS, "", 99_999, Some(100_000), "9.9999e/1.00000f"),
    (DECIMALS, "", 999_999, Some(1_000_000), "9.99999f/1.000000g"),
    (DECIMALS, "", 1_999_999, Some(MAX), "1.999999g/18446744073709.551615g"),
    (THIRDS, "", 2, None, "0.666666"),
    (THIRDS, "", MAX, None, "6148914691236517205.000000"),
    (PLAIN, "", 0, None, "0"),
    (PLAIN, "p", 1234, Some(MAX), "1234:18446744073709551615 p"),
];

/// A kind of these scales, which are right.
pub(crate) fn kind(rt: &impl Abort, scales: &'static Scales, name: &'static str) -> Kind {
    Kind::Scaled(Scaled::new(scales, name).expect(rt, "scales"))
}

/// The text of a value with its bound.
fn assert_text(rt: &impl Abort, alloc: Global, line: &Line) {
    let (scales, name, value, bound, want) = *line;
    let unit = dynamic(kind(rt, scales, name));
    let mut text = String::from_str(alloc, "> ").expect(rt, "memory");
    unit.display(alloc, value, bound, None)
        .append_to(&mut text)
        .expect(rt, "memory");
    assert_same(rt, text.as_str().strip_prefix("> "), Some(want), "text");
}

#[test]
fn values_in_scales_have_texts(rt: HostRuntime) {
    for line in TEXTS {
        assert_text(&rt, rt.alloc(), line);
    }
}

#[test]
fn scales_have_percentages_and_throughputs(rt: HostRuntime) {
    let alloc = rt.alloc();
    let both = Mode::with_percentage().and_throughput();
    let throughput = Some(Throughput::new(1536, 2 * SECOND));
    let kind = kind(&rt, BINARY, "read");
    let after = dynamic_and_mode(kind, both).display(alloc, 512, Some(1024), throughput);
    let want = "512 B of 1.0 KiB read [50%] |1.5 KiB/2s|";
    assert_same(
        &rt,
        after.to_string(alloc).expect(&rt, "memory").as_str(),
        want,
        "after",
    );
    let before = dynamic_and_mode(kind, both.show_before_value());
    let before = before.display(alloc, 2048, Some(1024), throughput);
    let want = "[200%] |1.5 KiB/2s| 2.0 KiB of 1.0 KiB read";
    assert_same(
        &rt,
        before.to_string(alloc).expect(&rt, "memory").as_str(),
        want,
        "before",
    );
}

#[test]
fn throughput_messages_are_in_scales(rt: HostRuntime) {
    let unit = dynamic(kind(&rt, CENTS, "EUR"));
    let text = throughput_message(rt.alloc(), 0, 2 * SECOND, 1001, Some(&unit));
    let want = "done 10.01 EUR in 2.00s (5.00 EUR/s)";
    assert_same(&rt, text.expect(&rt, "memory").as_str(), want, "message");
}

const ZERO: Scale = Scale {
    factor: 0,
    decimals: 7,
    suffix: "",
};

const ONE: Scale = Scale {
    factor: 1,
    decimals: 0,
    suffix: "",
};

const TEN: Scale = Scale {
    factor: 10,
    decimals: 6,
    suffix: "",
};

const SEVEN_DECIMALS: Scale = Scale {
    factor: 10,
    decimals: 7,
    suffix: "",
};

/// Scales, what is wrong with them, and its text.
type Refused = (&'static Scales, ScaleError, &'static str);

#[rattlefmt::skip]
const REFUSED: &[Refused] = &[
    (&Scales { separator: "", scales: &[ZERO] },
     ScaleError::ZeroFactor(1), "scale 1: the factor is 0"),
    (&Scales { separator: "", scales: &[ONE, TEN, ZERO, SEVEN_DECIMALS] },
     ScaleError::ZeroFactor(3), "scale 3: the factor is 0"),
    (&Scales { separator: "", scales: &[ONE, ONE] },
     ScaleError::FactorNotRising(2), "scale 2: the factor isn't above the one before it"),
    (&Scales { separator: "", scales: &[ONE, TEN, SEVEN_DECIMALS] },
     ScaleError::FactorNotRising(3), "scale 3: the factor isn't above the one before it"),
    (&Scales { separator: "", scales: &[TEN, ONE] },
     ScaleError::FactorNotRising(2), "scale 2: the factor isn't above the one before it"),
    (&Scales { separator: "", scales: &[SEVEN_DECIMALS, ZERO] },
     ScaleError::TooManyDecimals(1), "scale 1: there are more than six decimals"),
];

#[test]
fn wrong_scales_are_refused(rt: HostRuntime) {
    for (scales, fault, text) in REFUSED {
        assert_same(&rt, Scaled::new(scales, "x"), Err(*fault), *text);
        let said = fault.to_string(rt.alloc()).expect(&rt, "memory");
        assert_same(&rt, said.as_str(), *text, *fault);
    }
}

/// Scales that differ in one part from the first.
#[rattlefmt::skip]
const DIFFERENT: &[&Scales] = &[
    &Scales { separator: "/", scales: &[Scale { factor: 10, decimals: 1, suffix: "" }] },
    &Scales { separator: ":", scales: &[Scale { factor: 10, decimals: 1, suffix: "" }] },
    &Scales { separator: "/", scales: &[Scale { factor: 11, decimals: 1, suffix: "" }] },
    &Scales { separator: "/", scales: &[Scale { factor: 10, decimals: 2, suffix: "" }] },
    &Scales { separator: "/", scales: &[Scale { factor: 10, decimals: 1, suffix: "x" }] },
    &Scales { separator: "/", scales: &[ONE, Scale { factor: 10, decimals: 1, suffix: "" }] },
    &Scales { separator: "/", scales: &[] },
];

/// A unit of each of the scales, and units that differ from the first in the name or the mode.
fn different_units(rt: &impl Abort, alloc: Global) -> Vec<Unit> {
    let mut units = Vec::new(alloc);
    for scales in DIFFERENT {
        units
            .push(dynamic(kind(rt, *scales, "x")))
            .expect(rt, "memory");
    }
    units
        .push(dynamic(kind(rt, DIFFERENT[0], "y")))
        .expect(rt, "memory");
    let mode = Mode::with_percentage();
    units
        .push(dynamic_and_mode(kind(rt, DIFFERENT[0], "x"), mode))
        .expect(rt, "memory");
    units.push(dynamic(Kind::Label("x"))).expect(rt, "memory");
    units
}

#[test]
fn scaled_units_differ_by_any_part(rt: HostRuntime) {
    let units = different_units(&rt, rt.alloc());
    let copies = different_units(&rt, rt.alloc());
    assert_distinct(&rt, units.as_slice(), copies.as_slice());
}

#[test]
fn scales_are_compared_by_what_they_say(rt: HostRuntime) {
    let here = dynamic(kind(&rt, TENTHS, "C"));
    let there = dynamic(kind(&rt, &SAME_TENTHS, "C"));
    assert_same(&rt, here, there, "units");
}

#[test]
fn scaled_kinds_have_a_debug_text(rt: HostRuntime) {
    let scaled = Scaled::new(CENTS, "EUR").expect(&rt, "scales");
    let want = "Scaled { name: \"EUR\", scales: Scales { separator: \"/\", scales: \
        [Scale { factor: 100, decimals: 2, suffix: \"\" }] } }";
    assert_debug(&rt, rt.alloc(), &scaled, want);
}

#[rattlefmt::skip]
const ROWS: &[Drawing] = &[
    Drawing((40, 20), &[
        (Ask::Scale(BINARY, "", 1536, Some(2_097_152)),
         Ok(" t 1.5 KiB of 2.00 MiB  [>-------------]\n\x1b[1A")),
    ]),
    Drawing((30, 20), &[
        (Ask::Scale(CENTS, "EUR", 1234, None), Ok(" t 12.34 EUR [=   ===   ===  ]\n\x1b[1A")),
    ]),
];

#[test]
fn rows_show_values_in_scales(rt: HostRuntime) {
    assert_draws(&rt, rt.alloc(), ROWS)
}
