//! Rows into whose memory a look copies those of a tree.
ghost use Rattle.std.specs.Prelude.{◌≡◌, ◌≤◌, length, vec_len, IfOk, IsOkUnless, OnOk};

use crate::progress::{Key, Row, Rows, UNKNOWN};
use prodash_base::{Refusal, Text};
use std::alloc::{AllocError, Global};

/// Returns that many rows: those of `spare` without the last ones, or with blank rows behind them.
pub(crate) fn resized(spare: Rows, count: usize) -> Result<Rows, Refusal>
    ensures count { IfOk result (λ rows. length rows ≡ count) }
    ensures reason { IsOkUnless result Refusal.Memory }
{
    let mut rows = spare.into_vec();
    rows.truncate(count);
    push_blank_rows(&mut rows, count)?;
    Ok(Rows::new(rows))
}

/// Appends blank rows until there are that many.
fn push_blank_rows(rows: &mut Vec<Row>, count: usize) -> Result<(), AllocError>
    requires { vec_len rows.old ≤ count }
    ensures { OnOk result (vec_len rows.new ≡ count) }
{
    let (alloc, missing) = (*rows.allocator(), count - rows.len());
    rows.reserve(missing)?;
    for _ in 0..missing {
        rows.push(blank_row(alloc))?;
    }
    Ok(())
}

/// Returns a row without a name and without progress. A short name can be copied into it without
/// memory.
fn blank_row(alloc: Global) -> Row {
    Row {
        key: Key::default(),
        name: Text::new(String::new(alloc)),
        id: UNKNOWN,
        progress: None,
    }
}
