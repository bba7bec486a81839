ghost use Rattle.std.specs.Prelude.{◌≡◌, IfOk, string_bytes, codes, IsOkUnless};
ghost use Rattle.prodash_core.specs.Dashboard.{default_options};

use crate::render::tui::event::Rect;
use prodash_base::Refusal;
use std::alloc::Global;

/// Options for a dashboard.
#[derive(Clone, Drop)]
pub struct Options {
    /// The initial title.
    pub title: String,
    /// The interval between frames, in nanoseconds.
    pub nanoseconds_per_frame: u64,
    /// Whether the throughput of tasks is measured and shown.
    pub throughput: bool,
    /// After how many frames the width of the column of tasks is computed again. `None` computes it
    /// for each frame.
    pub recompute_column_width_every_nth_frame: Option<usize>,
    /// The part of the terminal to fill; all of it if this is `None`.
    pub window_size: Option<Rect>,
    /// Whether the dashboard is left once there is no progress to show.
    pub stop_if_progress_missing: bool,
}

impl Options {
    /// Returns the defaults: the title `Progress Dashboard`, ten frames a second, no throughput,
    /// the whole terminal, and a dashboard that is left once there is no progress to show.
    ///
    /// # Errors
    ///
    /// `Memory`, if there is no memory for the title.
    pub fn create(alloc: Global) -> Result<Options, Refusal>
        ensures title { IfOk result (λ o. string_bytes o.title ≡ codes "Progress Dashboard") }
        ensures others { IfOk result (λ o. o ≡ default_options o.title) }
        ensures reason { IsOkUnless result Refusal.Memory }
    {
        Ok(Options {
            title: String::from_str(alloc, "Progress Dashboard")?,
            nanoseconds_per_frame: 100_000_000,
            throughput: false,
            recompute_column_width_every_nth_frame: None,
            window_size: None,
            stop_if_progress_missing: true,
        })
    }
}
