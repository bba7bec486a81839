//! Frames of dashboards.
ghost use Rattle.std.specs.Map.{keys_of};
ghost use Rattle.prodash_base.specs.Adjacency.{IsAscending};

use crate::frames::{PERIOD, set_few};
use crate::workloads::set_all;
use prodash::Refusal;
use prodash::messages::Messages;
use prodash::progress::Rows;
use prodash::render::tui::{Contents, Dashboard, Options};
use prodash::tree::{Item, Root};
use std::alloc::Global;
use std::sync::Wait;

/// The columns and rows of the terminal.
const SIZE: (u16, u16) = (200, 60);

/// Draws that many frames of a dashboard of these tasks, each over the bytes of the one before.
/// Before each frame every task is set, or one of each 1,000 if `few` is set.
pub(crate) fn draw_frames<R: Wait + Clone + Drop>(
    root: &Root<R>,
    alloc: Global,
    items: &[Item<R>],
    few: bool,
    count: u64,
) -> Result<(), Refusal> {
    let (columns, rows) = SIZE;
    let mut dashboard = Dashboard::new(alloc, Options::create(alloc)?, columns, rows);
    let mut seen = (Rows::new(Vec::new(alloc)), Messages::new(Vec::new(alloc)));
    let mut bytes = Vec::new(alloc);
    for n in 0..count {
        if few {
            set_few(items, n);
        } else {
            set_all(items, n);
        }
        let (rows, messages, _) = root.look(seen, None)?;
        bytes.clear();
        draw_frame(&mut dashboard, alloc, &rows, &messages, n, &mut bytes)?;
        seen = (rows, messages);
    }
    Ok(())
}

/// Draws the frame of this number.
#[tactic(auto, using(prodash_core::proofs::AscendingRows::ascending_list))]
fn draw_frame(
    dashboard: &mut Dashboard,
    alloc: Global,
    rows: &Rows,
    messages: &Messages,
    n: u64,
    bytes: &mut Vec<u8>,
) -> Result<(), Refusal>
    requires { IsAscending (keys_of rows.now) }
{
    let contents = Contents {
        rows: rows.as_slice(),
        messages: messages.as_slice(),
        at: n.saturating_mul(PERIOD),
        time: "1970-01-01T00:00:00",
    };
    dashboard.draw(alloc, &contents, bytes)
}
