use crate::drawings::Ask::Measure;
use crate::drawings::{Drawing, assert_draws};
use prodash_base::unit::human::Formatter;
use prodash_base::unit::{Bytes, Duration, Human, Kind, Range};

/// Large numbers of `objects`, with two decimals.
const OBJECTS: Kind = Kind::Human(Human {
    name: "objects",
    formatter: Formatter { decimals: 2 },
});

const STEPS: Kind = Kind::Range(Range { name: "steps" });

#[rattlefmt::skip]
const LINES: &[Drawing] = &[
    Drawing((20, 20), &[(Measure(Kind::Label("i"), 2, None), Ok(" t 2 i [=   ===   =]\n\x1b[1A"))]),
    Drawing((40, 20), &[
        (Measure(Kind::Label("i"), u64::MAX, None), Ok(" t 18446744073709551615 i []\n\x1b[1A")),
    ]),
    Drawing((30, 20), &[
        (Measure(Kind::Label("items"), 3, Some(10)), Ok(" t 3/10 items [===>----------]\n\x1b[1A")),
    ]),
    Drawing((12, 20), &[(Measure(Kind::Label(""), 3, Some(10)), Ok(" t 3/10  [>]\n\x1b[1A"))]),
    Drawing((15, 20), &[(Measure(STEPS, 1, Some(5)), Ok(" t 2 of 5 steps\n\x1b[1A"))]),
    // cut in the values, and in the unit
    Drawing((8, 20), &[(Measure(STEPS, 1, Some(5)), Ok(" t 2 of \n\x1b[1A"))]),
    Drawing((12, 20), &[(Measure(STEPS, 1, Some(5)), Ok(" t 2 of 5 st\n\x1b[1A"))]),
    Drawing((15, 20), &[
        (Measure(Kind::Bytes(Bytes), 1999, Some(1_000_000)), Ok(" t 1.9kB/1.0MB \n\x1b[1A")),
    ]),
    Drawing((20, 20), &[
        (Measure(Kind::Duration(Duration), 3600, Some(620410)),
         Ok(" t 1h of 7d4h20m10s \n\x1b[1A")),
    ]),
    Drawing((16, 20), &[(Measure(OBJECTS, 2540000, None), Ok(" t 2.54M objects\n\x1b[1A"))]),
];

#[test]
fn rows_show_their_units(rt: HostRuntime) {
    assert_draws(&rt, rt.alloc(), LINES)
}
