//! Copies of sessions. What is applied to a session or its copy leaves the other as it was.
use crate::transcripts::{assert_session, new_session, options};
use prodash_base::Refusal;
use prodash_core::tree::Session;
use std::alloc::Global;
use std::process::Abort;

/// What comes before the copy is made, and then of the copy and of the session.
const COPIES: &[(&str, &str)] = &[
    (
        "",
        r#"add 0 task -> Made(1)
info 1 0 one -> Done
messages -> Messages(Messages [Message 0 Info "task" "one"])"#,
    ),
    (
        r#"add 0 task -> Made(1)
init 1 10 - -> Done
set 1 3 -> Done
tick 0 -> Drawn -> " task 3/10 [=======>-------------------]\n\u{1b}[1A""#,
        r#"messages -> Messages(Messages [])
snapshot -> Rows(Rows [Row [0] "task" 3/10])
info 1 0 one -> Done
set 1 4 -> Done
tick 0 -> Drawn -> " task one                               \n task 4/10 [==========>----------------]\n\u{1b}[1A"
drop 1 -> Done
add 0 next -> Made(2)"#,
    ),
];

/// A copy of a session. Its contract promises nothing, so that callers stay cheap.
fn copy_of(alloc: Global, session: &Session) -> Result<Session, Refusal> {
    session.deep_clone(alloc)
}

/// Asserts that a copy of a session replies as this transcript says, and the session still does
/// after that.
fn assert_copy(rt: &impl Abort, alloc: Global, session: &mut Session, transcript: &str) {
    let mut copy = copy_of(alloc, session).expect(rt, "no refusal");
    assert_session(rt, alloc, &mut copy, transcript);
    drop(copy);
    assert_session(rt, alloc, session, transcript)
}

#[test]
fn copies_are_apart(rt: HostRuntime) {
    for (before, after) in COPIES {
        let mut session = new_session(&rt, rt.alloc(), &options(20));
        assert_session(&rt, rt.alloc(), &mut session, before);
        assert_copy(&rt, rt.alloc(), &mut session, after);
        drop(session);
    }
}
