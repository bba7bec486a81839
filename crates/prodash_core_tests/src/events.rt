use crate::fixtures::{assert_told_apart, clones};
use crate::transcripts::{events_of, options, run_line};
use prodash_core::tree::Reply;
use prodash_line::render::line::draw::MemoryScreen;
use std::alloc::Global;
use std::process::Abort;

/// Events that differ in their kind or in one field each.
const EVENTS: &str = "drop 1
drop 2
init 1 - -
init 2 - -
init 1 1 -
init 1 - items
name 1 a
name 2 a
name 1 b
max 1 -
max 2 -
max 1 1
set 1 1
set 2 1
set 1 2
inc 1 1
inc 2 1
inc 1 2
blocked 1
blocked 2
lock 1
wait 1
halted 1
halted 2
pause 1
sleep 1
running 1
running 2
add 0 a
add 1 a
add 0 b
child a
info 1 0 a
info 2 0 a
info 1 1 a
fail 1 0 a
info 1 0 b
name? 1
name? 2
id? 1
id? 2
step? 1
step? 2
max? 1
max? 2
unit? 1
unit? 2
tasks?
snapshot
messages
new -
new 1
droproot
tick 0
tick 1
hold 0
resize 0 30 4
resize 1 30 4
resize 0 31 4
resize 0 30 5
hidden 30 4
quit 0
quit 1";

/// Events whose replies differ in their kind or in one field each, and more that reply `Done`.
const ASKED: &str = "\
snapshot; messages; new -; add 0 a; add 1 b; tasks?; snapshot; messages; new 1; info 1 0 c; \
messages; new -; new 1; name? 1; name? 2; child e; id? 2; id? 3; step? 2; set 2 1; step? 2; \
max? 2; init 2 1 a; max? 2; unit? 2; init 2 2 b; max? 2; unit? 2; unit? 3; tasks?; add 2 f; \
add 4 g; add 5 h; add 6 i; add 7 j; drop 7; name? 8; hold 0; quit 0; quit 0; drop 7";

/// The replies to these.
fn some_replies(rt: &impl Abort, alloc: Global) -> Vec<Reply> {
    let mut screen = MemoryScreen::new(alloc, 0).expect(rt, "memory");
    run_line(rt, alloc, &options(20), ASKED, &mut screen)
}

/// Events and replies differ by any field, and equal their clones.
#[test]
fn events_and_replies_differ_by_any_field(rt: HostRuntime) {
    let alloc = rt.alloc();
    let events = events_of(&rt, alloc, EVENTS, "\n");
    let copies = clones(alloc, &events).expect(&rt, "memory");
    assert_told_apart(&rt, alloc, &events, &copies);
    let replies = some_replies(&rt, alloc);
    let copies = clones(alloc, &replies).expect(&rt, "memory");
    assert_told_apart(&rt, alloc, &replies, &copies);
}
