use crate::fixtures::{assert_distinct, assert_same};
use prodash_line::render::line::page::{Color, Fault, Sign, Style, read, spell};
use std::alloc::Global;
use std::process::Abort;

/// Whether a style is bold and dim, its colour, whether it is on yellow, and its bytes.
type Spelled = (bool, bool, Option<Color>, bool, &'static str);

#[rattlefmt::skip]
const STYLES: &[Spelled] = &[
    (true, false, None, false, "\x1b[1m"),
    (false, true, None, false, "\x1b[2m"),
    (true, true, None, false, "\x1b[1;2m"),
    (false, false, Some(Color::Red), false, "\x1b[31m"),
    (false, false, Some(Color::Green), false, "\x1b[32m"),
    (false, false, Some(Color::Yellow), false, "\x1b[33m"),
    (false, false, Some(Color::Cyan), false, "\x1b[36m"),
    (false, false, Some(Color::White), false, "\x1b[37m"),
    (false, false, None, true, "\x1b[43m"),
    (true, false, Some(Color::Cyan), false, "\x1b[1;36m"),
    (true, false, Some(Color::White), false, "\x1b[1;37m"),
    (false, true, Some(Color::Red), false, "\x1b[2;31m"),
    (false, true, Some(Color::White), true, "\x1b[2;37;43m"),
    (false, false, Some(Color::Red), true, "\x1b[31;43m"),
    (true, false, None, true, "\x1b[1;43m"),
    (true, true, None, true, "\x1b[1;2;43m"),
    (true, true, Some(Color::Green), true, "\x1b[1;2;32;43m"),
];

fn style_of(spelled: &Spelled) -> Style {
    let (bold, dim, color, on_yellow, _) = *spelled;
    Style {
        bold,
        dim,
        color,
        on_yellow,
    }
}

/// The signs are spelled by these bytes, which are read as the signs.
pub(crate) fn assert_spelled(rt: &impl Abort, alloc: Global, signs: &[Sign], bytes: &str) {
    let spelled = spell(alloc, signs).expect(rt, "memory");
    assert_same(rt, spelled.as_slice(), bytes.as_bytes(), bytes);
    let read = read(alloc, bytes.as_bytes()).expect(rt, "no refusal");
    assert_same(rt, read.as_slice(), signs, bytes);
}

#[test]
fn styles_are_spelled_by_their_codes(rt: HostRuntime) {
    for spelled in STYLES {
        let signs = [Sign::Open(style_of(spelled))];
        assert_spelled(&rt, rt.alloc(), &signs, spelled.4);
    }
}

const CURSOR: &[Sign] = &[
    Sign::HideCursor,
    Sign::Char('a'),
    Sign::Reset,
    Sign::ShowCursor,
];

#[test]
fn the_cursor_is_hidden_and_shown(rt: HostRuntime) {
    assert_spelled(&rt, rt.alloc(), CURSOR, "\x1b[?25la\x1b[0m\x1b[?25h")
}

/// Bytes that no signs spell, and how many before the fault signs do.
#[rattlefmt::skip]
const FAULTS: &[(&str, usize)] = &[
    // codes that don't ascend
    ("\x1b[31;1m", 0),
    ("\x1b[2;1m", 0),
    ("\x1b[43;31m", 0),
    ("\x1b[36;2m", 0),
    // a code twice, and two colours
    ("\x1b[1;1m", 0),
    ("\x1b[43;43m", 0),
    ("\x1b[31;32m", 0),
    // no code, and a part that is none
    ("\x1b[m", 0),
    ("\x1b[;1m", 0),
    ("\x1b[1;m", 0),
    // codes of no style
    ("\x1b[90m", 0),
    ("\x1b[3m", 0),
    ("\x1b[34m", 0),
    ("\x1b[0;1m", 0),
    ("\x1b[1;0m", 0),
    // leading zeros
    ("\x1b[01m", 0),
    ("\x1b[00m", 0),
    // other separators, and other ends
    ("\x1b[1:36m", 0),
    ("\x1b[1;36", 0),
    ("\x1b[?25m", 0),
    // other modes than those of the cursor and of wrapping
    ("\x1b[25l", 0),
    ("\x1b[?47h", 0),
    // after signs
    ("a\x1b[0m\x1b[3m", 5),
    ("\x1b[1m\x1b[?25", 4),
];

/// Signs spell no more than this many of the bytes.
pub(crate) fn assert_fault(rt: &impl Abort, alloc: Global, bytes: &[u8], end: usize) {
    let fault = read(alloc, bytes).err();
    assert_same(rt, fault, Some(Fault::At(end)), bytes);
}

#[test]
fn other_codes_are_no_signs(rt: HostRuntime) {
    for (bytes, end) in FAULTS {
        assert_fault(&rt, rt.alloc(), bytes.as_bytes(), *end);
    }
}

/// The plain style is spelled, but not read.
#[test]
fn the_plain_style_is_no_sign(rt: HostRuntime) {
    let bytes = spell(rt.alloc(), &[Sign::Open(Style::new())]).expect(&rt, "memory");
    assert_same(&rt, bytes.as_slice(), b"\x1b[m".as_slice(), "bytes");
    assert_fault(&rt, rt.alloc(), &bytes, 0);
}

/// The style, made code by code.
fn built_style(spelled: &Spelled) -> Style {
    let (bold, dim, color, on_yellow, _) = *spelled;
    let mut style = Style::new();
    if bold {
        style = style.bold();
    }
    if dim {
        style = style.dimmed();
    }
    if let Some(color) = color {
        style = style.fg(color);
    }
    if on_yellow {
        style = style.on_yellow();
    }
    style
}

#[test]
fn styles_are_made_code_by_code(rt: HostRuntime) {
    assert_same(&rt, Style::new().is_plain(), true, "plain");
    assert_same(&rt, Style::new(), Style::default(), "default");
    for spelled in STYLES {
        let style = built_style(spelled);
        assert_same(&rt, style, style_of(spelled), spelled.4);
        assert_same(&rt, style.is_plain(), false, spelled.4);
    }
}

#[test]
fn styles_differ_by_any_code(rt: HostRuntime) {
    let colors = [
        Color::Red,
        Color::Green,
        Color::Yellow,
        Color::Cyan,
        Color::White,
    ];
    let plain = Style::new();
    let styles = [
        plain,
        plain.bold(),
        plain.dimmed(),
        plain.fg(Color::Red),
        plain.fg(Color::Green),
        plain.on_yellow(),
    ];
    let signs = [
        Sign::EraseLine,
        Sign::HideCursor,
        Sign::ShowCursor,
        Sign::Open(plain),
        Sign::Open(plain.bold()),
        Sign::Reset,
    ];
    assert_distinct(&rt, &colors, &colors);
    assert_distinct(&rt, &styles, &styles);
    assert_distinct(&rt, &signs, &signs);
}
