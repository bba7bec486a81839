//! Lines of events: a table has a line, `->`, and what it is read as.
use crate::fixtures::{assert_same, assert_shown, cells};
use crate::transcripts::event_of;
use prodash_script::{LIMIT, Labels, Lines, Names, Next, parse, parse_command, to_line};
use std::alloc::Global;
use std::io::{self, Error, ErrorKind, Read};
use std::process::Abort;

const EVENTS: &str = r#"drop 2 -> Some(Drop { item: 2 })
add 3 a b -> Some(AddChild { parent: 3, name: "a b", id: [0, 0, 0, 0] })
add 3  a  -> Some(AddChild { parent: 3, name: " a ", id: [0, 0, 0, 0] })
 add 3 a -> None
init 1 - - -> Some(Init { item: 1, max: None, unit: None })
init 1 10 - -> Some(Init { item: 1, max: Some(10), unit: None })
init 1 100 -item -> Some(Init { item: 1, max: Some(100), unit: Some(Unit { kind: Label("-item"), mode: None }) })
init 1 9 steps -> Some(Init { item: 1, max: Some(9), unit: Some(Unit { kind: Range(Range { name: "steps" }), mode: None }) })
init 1 9 label:steps -> Some(Init { item: 1, max: Some(9), unit: Some(Unit { kind: Label("steps"), mode: None }) })
init 1 9 range:steps -> Some(Init { item: 1, max: Some(9), unit: Some(Unit { kind: Label("range:steps"), mode: None }) })
init 1 100 a%b -> None
init 1 100 -> None
name 1 a b -> Some(SetName { item: 1, name: "a b" })
name 1  -> Some(SetName { item: 1, name: "" })
name 1  a  -> Some(SetName { item: 1, name: " a " })
max 1 - -> Some(SetMax { item: 1, max: None })
max 1 10 -> Some(SetMax { item: 1, max: Some(10) })
max 1 0 -> Some(SetMax { item: 1, max: Some(0) })
set 1 3 -> Some(Set { item: 1, step: 3 })
set 1 +3 -> None
set 1 18446744073709551615 -> Some(Set { item: 1, step: 18446744073709551615 })
inc 1 3 -> Some(IncBy { item: 1, step: 3 })
blocked 1 -> Some(Blocked { item: 1, reason: "replay", eta: None })
halted 1 -> Some(Halted { item: 1, reason: "replay", eta: None })
running 1 -> Some(Running { item: 1 })
info 1 7 x y -> Some(Message { item: 1, at: 7, level: Info, text: "x y" })
info 1 7  x  -> Some(Message { item: 1, at: 7, level: Info, text: " x " })
done 1 7  -> Some(Message { item: 1, at: 7, level: Success, text: "" })
fail 1 7 x -> Some(Message { item: 1, at: 7, level: Failure, text: "x" })
droproot -> Some(DropRoot)
droproot  -> None
tick 5 -> Some(Tick { at: 5, show: true })
hold 5 -> Some(Tick { at: 5, show: false })
resize 5 30 4 -> Some(Resize { at: 5, show: true, columns: 30, rows: 4 })
resize 5 65535 0 -> Some(Resize { at: 5, show: true, columns: 65535, rows: 0 })
resize 5 65536 4 -> None
resize 5 30 65536 -> None
resize 5 30 -> None
resize 30 -> None
resize 5 30 4 2 -> None
quit 5 -> Some(Quit { at: 5 })
"#;

fn assert_event(rt: &impl Abort, alloc: Global, line: &str, want: &str) {
    let event = parse(alloc, &mut Labels::new(alloc), line).expect(rt, "memory");
    assert_shown(rt, alloc, &event, want)
}

#[test]
fn reads_events(rt: HostRuntime) {
    for row in EVENTS.lines() {
        let (line, want) = cells(&rt, row);
        assert_event(&rt, rt.alloc(), line, want);
    }
    assert_event(&rt, rt.alloc(), "droproot\r", "None");
}

/// Lines of which each says an event, in the only form that `to_line` writes.
const LINES: &[&str] = &[
    "add 0 a b",
    "add 3 ",
    "add 3  a ",
    "drop 2",
    "init 1 - -",
    "init 1 10 items",
    "init 1 10 items%",
    "init 1 10 %items",
    "init 1 - items/s",
    "init 1 - steps",
    "init 1 10 label:steps%",
    "init 1 - bytes",
    "init 1 - duration",
    "init 1 18446744073709551615 objects",
    "init 1 10 files",
    "init 1 10 files%/s",
    "init 1 10 %/sfiles",
    "init 1 10 /sbytes",
    "init 1 10 objects%",
    "name 1 a",
    "name 1  a ",
    "max 1 -",
    "max 1 7",
    "set 1 3",
    "inc 1 3",
    "blocked 1",
    "halted 1",
    "running 1",
    "info 1 7 x y",
    "done 1 7 ",
    "fail 1 7 x",
    "fail 1 7  x ",
    "droproot",
    "tick 5",
    "hold 5",
    "resize 5 30 4",
    "quit 5",
];

#[test]
fn writes_the_lines_that_it_reads(rt: HostRuntime) {
    for line in LINES {
        let event = event_of(&rt, rt.alloc(), line);
        let written = to_line(rt.alloc(), &event).expect(&rt, "memory");
        let written = written.expect(&rt, "a line");
        assert_same(&rt, written.as_str(), *line, "written");
    }
}

/// Asserts what a line of a script asks for if `a` names the handle 7 and it is 5.
fn assert_command(rt: &impl Abort, alloc: Global, line: &str, want: &str) {
    let mut names = Names::new(alloc);
    let name = String::from_str(alloc, "a").expect(rt, "memory");
    let before: Result<_, _> = names.insert(name, 7);
    before.expect(rt, "memory");
    let mut labels = Labels::new(alloc);
    let command = parse_command(alloc, &names, &mut labels, 5, line).expect(rt, "memory");
    assert_shown(rt, alloc, &command, want)
}

const COMMANDS: &str = r#" -> Comment
# set -> Comment
size 40 4 -> Size { columns: 40, rows: 4 }
set @a 3 -> Change(7, Set(3))
set 1 3 -> Change(1, Set(3))
inc @a 3 -> Change(7, IncBy(3))
max @a - -> Change(7, SetMax(None))
name @a b -> Change(7, SetName("b"))
blocked @a -> Change(7, Blocked)
halted @a -> Change(7, Halted)
running @a -> Change(7, Running)
info @a - x -> Change(7, Message { at: 5, level: Info, text: "x" })
done 1 7 x -> Change(1, Message { at: 7, level: Success, text: "x" })
fail @a x y -> Change(7, Message { at: 5, level: Failure, text: "x y" })
info @a 7x y -> Change(7, Message { at: 5, level: Info, text: "7x y" })
info @a -x - -> Change(7, Message { at: 5, level: Info, text: "-x -" })
info @a  - x -> Change(7, Message { at: 5, level: Info, text: " - x" })
info @a 3 files -> Change(7, Message { at: 3, level: Info, text: "files" })
done @a  -> Change(7, Message { at: 5, level: Success, text: "" })
done @a 7  -> Change(7, Message { at: 7, level: Success, text: "" })
print 3 files -> Print("3 files")
print  -> Print("")
init @a 10 -> Change(7, Init { max: Some(10), unit: None })
init @a - -> Change(7, Init { max: None, unit: None })
init @a 10 - -> Change(7, Init { max: Some(10), unit: None })
init 1 9 steps -> Change(1, Init { max: Some(9), unit: Some(Unit { kind: Label("steps"), mode: None }) })
init 1 9 label:steps -> Change(1, Init { max: Some(9), unit: Some(Unit { kind: Label("steps"), mode: None }) })
init 1 9 range:steps -> Change(1, Init { max: Some(9), unit: Some(Unit { kind: Range(Range { name: "steps" }), mode: None }) })
add 0 @a -> Add { word: None, parent: 0, name: "@a" }
add @b @a x y -> Add { word: Some("b"), parent: 7, name: "x y" }
drop @a -> Drop(7)
droproot -> DropRoot
seta 1 3 -> Fault(UnknownCommand("seta"))
tick 0 -> Fault(DrawsFrame("tick"))
quit - -> Fault(DrawsFrame("quit"))
drop @b -> Fault(UnknownItem("@b"))
set @b x -> Fault(UnknownItem("@b"))
set @ 3 -> Fault(Invalid(Item, "@"))
set 1 +3 -> Fault(Invalid(Number, "+3"))
inc 1 - -> Fault(Invalid(Number, "-"))
size 40 0 -> Fault(Invalid(Rows, "0"))
size +40 4 -> Fault(Invalid(Columns, "+40"))
add @b -> Fault(Missing(Item))
add @b x -> Fault(Invalid(Item, "x"))
add @ 0 x -> Fault(Invalid(Word, ""))
add 0 -> Fault(Missing(Name))
info @a -> Fault(Missing(Message))
info @a - -> Fault(Missing(Message))
done @a 7 -> Fault(Missing(Message))
fail a x -> Fault(Invalid(Item, "a"))
print -> Fault(Missing(Text))
droproot  -> Fault(Extra(""))
"#;

#[test]
fn reads_commands(rt: HostRuntime) {
    for row in COMMANDS.lines() {
        let (line, want) = cells(&rt, row);
        assert_command(&rt, rt.alloc(), line, want);
    }
}

/// Asserts that a stream gives these in turn: of a line its text.
fn assert_lines<I: Read + Drop>(rt: &impl Abort, alloc: Global, stream: I, want: &str) {
    let mut lines = Lines::new(alloc, stream);
    for told in want.lines() {
        assert_next(rt, alloc, &mut lines, told);
    }
}

/// Asserts that this is next: of a line its text.
fn assert_next<I: Read + Drop>(rt: &impl Abort, alloc: Global, lines: &mut Lines<I>, told: &str) {
    let next = lines.advance().expect(rt, "a read");
    if next == Next::Line {
        let line = told.strip_prefix("Line ").expect(rt, "a line");
        assert_same(rt, lines.line(), line.as_bytes(), told);
    } else {
        assert_shown(rt, alloc, &next, told);
    }
}

/// A stream of which a call reads at most `size` bytes.
#[derive(Drop)]
struct Pieces {
    left: &'static [u8],
    size: usize,
}

impl Read for Pieces {
    fn read(&mut self, bytes: &mut [u8]) -> io::Result<usize> {
        let size = self.size.min(bytes.len());
        self.left.read(&mut bytes[..size])
    }
}

/// Streams, and what they give.
const STREAMS: &[(&str, &str)] = &[
    ("", "End\nEnd\nEnd\n"),
    ("\n", "Line \nEnd\nEnd\n"),
    ("a", "CutOff\nEnd\nEnd\n"),
    ("a\nb", "Line a\nCutOff\nEnd\n"),
    ("a\nb\n", "Line a\nLine b\nEnd\n"),
    ("ab\ncd\ne", "Line ab\nLine cd\nCutOff\n"),
    ("a\nb\ncd\n", "Line a\nLine b\nLine cd\n"),
];

#[test]
fn tells_a_last_line_that_is_cut_off(rt: HostRuntime) {
    for (stream, want) in STREAMS {
        for size in 1..6 {
            let left = stream.as_bytes();
            assert_lines(&rt, rt.alloc(), Pieces { left, size }, want);
        }
    }
}

#[test]
fn has_the_next_line_once_it_is_read(rt: HostRuntime) {
    let mut lines = Lines::new(rt.alloc(), b"a\nb\nc".as_slice());
    for want in [false, true, false] {
        assert_same(&rt, lines.has_line(), want, "has a line");
        lines.advance().expect(&rt, "a read");
    }
}

/// A stream of a line of this many bytes and of another.
fn two_lines(rt: &impl Abort, alloc: Global, bytes: usize) -> Vec<u8> {
    let mut stream = vec![in alloc; b'a'; bytes].expect(rt, "memory");
    stream.extend_from_slice(b"\nb\n").expect(rt, "memory");
    stream
}

#[test]
fn drops_long_lines(rt: HostRuntime) {
    let stream = two_lines(&rt, rt.alloc(), LIMIT + 1);
    assert_lines(&rt, rt.alloc(), stream.as_slice(), "TooLong\nLine b\nEnd\n")
}

#[test]
fn keeps_the_longest_line(rt: HostRuntime) {
    let stream = two_lines(&rt, rt.alloc(), LIMIT);
    let mut lines = Lines::new(rt.alloc(), stream.as_slice());
    assert_same(
        &rt,
        lines.advance().expect(&rt, "a read"),
        Next::Line,
        "line",
    );
    assert_same(&rt, Some(lines.line()), stream.get(..LIMIT), "bytes");
}

/// A stream of one line, whose first read and whose second are interrupted.
#[derive(Drop)]
struct Interrupted {
    reads: u8,
}

impl Read for Interrupted {
    fn read(&mut self, bytes: &mut [u8]) -> io::Result<usize> {
        self.reads = self.reads.saturating_add(1);
        match self.reads {
            1 | 2 => Err(Error::from(ErrorKind::Interrupted)),
            3 => b"a\n".as_slice().read(bytes),
            _ => Ok(0),
        }
    }
}

#[test]
fn goes_on_after_a_read_that_is_interrupted(rt: HostRuntime) {
    assert_lines(
        &rt,
        rt.alloc(),
        Interrupted { reads: 0 },
        "Line a\nEnd\nEnd\n",
    )
}
