use crate::fixtures::TERMINAL;
use crate::options::assert_runs;
use prodash_line::render::line::draw::Options;

/// Frames in colour on a terminal of 40 columns.
const COLORED: Options = Options {
    colored: true,
    ..TERMINAL
};

/// The same on five columns.
const COLORED_NARROW: Options = Options {
    terminal_dimensions: (5, 20),
    ..COLORED
};

/// Messages with their times.
const TIMES: Options = Options {
    timestamp: true,
    ..TERMINAL
};

const COLORED_TIMES: Options = Options {
    timestamp: true,
    ..COLORED
};

const COLORED_PLAIN: Options = Options {
    output_is_terminal: false,
    ..COLORED_TIMES
};

const COLORED_RUNS: &str = r#"# a row below and at four fifths, above them, at its bound and at 0
add 0 task; init 1 10 -; set 1 3; tick 0 -> Drawn
" \u{1b}[1;36mtask\u{1b}[0m \u{1b}[1;2m3/10\u{1b}[0m [\u{1b}[33m=======\u{1b}[0m\u{1b}[33m>"
"\u{1b}[0m\u{1b}[2;33m-------------------\u{1b}[0m]\n\u{1b}[1A"

add 0 task; init 1 10 -; set 1 8; tick 0 -> Drawn
" \u{1b}[1;36mtask\u{1b}[0m \u{1b}[1;2m8/10\u{1b}[0m [\u{1b}[33m====================\u{1b}[0m"
"\u{1b}[33m>\u{1b}[0m\u{1b}[2;33m------\u{1b}[0m]\n\u{1b}[1A"

add 0 task; init 1 10 -; set 1 9; tick 0 -> Drawn
" \u{1b}[1;36mtask\u{1b}[0m \u{1b}[1;2m9/10\u{1b}[0m [\u{1b}[32m=======================\u{1b}[0m"
"\u{1b}[32m>\u{1b}[0m\u{1b}[2;32m---\u{1b}[0m]\n\u{1b}[1A"

add 0 task; init 1 10 -; set 1 10; tick 0 -> Drawn
" \u{1b}[1;36mtask\u{1b}[0m \u{1b}[1;2m10/10\u{1b}[0m [\u{1b}[32m========================="
"\u{1b}[0m\u{1b}[32m>\u{1b}[0m]\n\u{1b}[1A"

add 0 task; init 1 10 -; tick 0 -> Drawn
" \u{1b}[1;36mtask\u{1b}[0m \u{1b}[1;2m0/10\u{1b}[0m [\u{1b}[33m>\u{1b}[0m\u{1b}[2;33m-----------"
"---------------\u{1b}[0m]\n\u{1b}[1A"

# a row that is halted, one that is blocked, and one without a bound
add 0 task; init 1 10 -; set 1 9; halted 1; tick 0 -> Drawn
" \u{1b}[1;36mtask\u{1b}[0m \u{1b}[1;2m9/10\u{1b}[0m [\u{1b}[2;31m======================="
"\u{1b}[0m\u{1b}[2;31m>\u{1b}[0m\u{1b}[2;31m---\u{1b}[0m]\n\u{1b}[1A"

add 0 task; init 1 10 -; set 1 9; blocked 1; tick 0 -> Drawn
" \u{1b}[1;36mtask\u{1b}[0m \u{1b}[1;2m9/10\u{1b}[0m [\u{1b}[31m=======================\u{1b}[0m"
"\u{1b}[31m>\u{1b}[0m\u{1b}[2;31m---\u{1b}[0m]\n\u{1b}[1A"

add 0 task; init 1 10 -; set 1 3; max 1 -; tick 0 -> Drawn
" \u{1b}[1;36mtask\u{1b}[0m \u{1b}[1;2m3\u{1b}[0m [\u{1b}[37m===   ===   ===   ===   ===   "
"\u{1b}[0m]\n\u{1b}[1A"

add 0 task; init 1 10 -; set 1 3; max 1 -; halted 1; tick 0 -> Drawn
" \u{1b}[1;36mtask\u{1b}[0m \u{1b}[1;2m3\u{1b}[0m [\u{1b}[2;31m===   ===   ===   ===   ===   "
"\u{1b}[0m]\n\u{1b}[1A"

# a row without progress, one without a name, and the blanks over a coloured line
add 0 task; tick 0 -> Drawn
" \u{1b}[1;37mtask\u{1b}[0m\n\u{1b}[1A"

add 0 ; tick 0 -> Drawn
" \n\u{1b}[1A"

add 0 t; tick 0; quit 0 -> Ended
" \u{1b}[1;37mt\u{1b}[0m\n\u{1b}[1A  \n\u{1b}[1A\u{1b}[2K\r"

# messages of each severity, and one without a text
add 0 task; info 1 3723000000000 one; hold 0 -> Drawn
" \u{1b}[2mtask\u{1b}[0m \u{1b}[1;37mone\u{1b}[0m\n"

add 0 task; done 1 3723000000000 one; hold 0 -> Drawn
" \u{1b}[2mtask\u{1b}[0m \u{1b}[1;32mone\u{1b}[0m\n"

add 0 task; fail 1 3723000000000 one; hold 0 -> Drawn
" \u{1b}[2mtask\u{1b}[0m \u{1b}[1;31mone\u{1b}[0m\n"

add 0 task; info 1 0 ; hold 0 -> Drawn
" \u{1b}[2mtask\u{1b}[0m \n"

add 0 task; add 0 ab; info 1 0 x; info 2 0 y; hold 0 -> Drawn
" \u{1b}[2mtask\u{1b}[0m \u{1b}[1;37mx\u{1b}[0m\n \u{1b}[2m  ab\u{1b}[0m \u{1b}[1;37my\u{1b}[0m\n""#;

const COLORED_NARROW_RUNS: &str = r#"# a row that is cut in its values
add 0 t; init 1 10 -; set 1 3; tick 0 -> Drawn
" \u{1b}[1;36mt\u{1b}[0m \u{1b}[1;2m3/\u{1b}[0m\n\u{1b}[1A""#;

/// Messages are sent at the first moment, or one hour, two minutes and three seconds after it.
const TIMES_RUNS: &str = r#"# messages with their times
add 0 task; info 1 3723000000000 one; hold 0 -> Drawn
" 01:02:03 task one\n"

add 0 task; info 1 0 one; hold 0 -> Drawn
" 00:00:00 task one\n""#;

const COLORED_TIMES_RUNS: &str = r#"add 0 task; info 1 3723000000000 one; hold 0 -> Drawn
" \u{1b}[2;37;43m01:02:03\u{1b}[0m \u{1b}[2mtask\u{1b}[0m \u{1b}[1;37mone\u{1b}[0m\n"

add 0 task; done 1 3723000000000 one; hold 0 -> Drawn
" \u{1b}[2;32;43m01:02:03\u{1b}[0m \u{1b}[2mtask\u{1b}[0m \u{1b}[1;32mone\u{1b}[0m\n"

add 0 task; fail 1 3723000000000 one; hold 0 -> Drawn
" \u{1b}[2;31;43m01:02:03\u{1b}[0m \u{1b}[2mtask\u{1b}[0m \u{1b}[1;31mone\u{1b}[0m\n""#;

const COLORED_PLAIN_RUNS: &str = r#"# the same without a terminal
add 0 task; done 1 3723000000000 one; tick 0 -> Drawn
" \u{1b}[2;32;43m01:02:03\u{1b}[0m \u{1b}[2mtask\u{1b}[0m \u{1b}[1;32mone\u{1b}[0m\n""#;

const RUNS: &[(Options, &str)] = &[
    (COLORED, COLORED_RUNS),
    (COLORED_NARROW, COLORED_NARROW_RUNS),
    (TIMES, TIMES_RUNS),
    (COLORED_TIMES, COLORED_TIMES_RUNS),
    (COLORED_PLAIN, COLORED_PLAIN_RUNS),
];

#[test]
fn colors_and_times_have_exact_bytes(rt: HostRuntime) {
    for (draw, runs) in RUNS {
        assert_runs(&rt, rt.alloc(), *draw, runs);
    }
}
