use crate::replay::command::DashboardOptions;
use crate::replay::lines::{Apply, Input, apply_lines};
use prodash_base::Refusal;
use prodash_base::messages::Messages;
use prodash_base::time::{Moment, format_now_datetime_seconds};
use prodash_core::render::tui::{Answer, Line, Options};
use prodash_core::tree::{Event, Reply, RootOptions, TreeState};
use prodash_programs::Fault;
use prodash_tui::{Contents, Dashboard};
use std::alloc::Global;
use std::io::Read;

/// A dashboard, the tree that it shows, and the bytes of its frames.
#[derive(Drop)]
struct Replayed {
    tree: TreeState,
    dashboard: Dashboard,
    /// The lines beside the tasks.
    information: Vec<Line>,
    /// The moment of the next frame, which is that of the latest line that has one.
    at: Moment,
    /// Whether it has been stopped, or has no root to draw, so that lines do nothing.
    has_ended: bool,
    bytes: Vec<u8>,
}

/// Returns the bytes of all frames of a dashboard that gets the lines of the input. It ends by a
/// line that stops it, by a frame without a root, or after the last line; then it is closed.
pub(super) fn drawn<R: Read>(
    alloc: Global,
    options: &DashboardOptions,
    input: &mut R,
) -> Result<Vec<u8>, Fault> {
    let mut replayed = Replayed::new(alloc, options)?;
    apply_lines(alloc, input, options.any_unit, &mut replayed)?;
    replayed.close()?;
    Ok(replayed.bytes)
}

impl Apply for Replayed {
    type Line = Input;

    /// Applies a line, and draws a frame if it asks for one. After the end a line does nothing.
    fn apply(&mut self, alloc: Global, line: Input) -> Result<(), Fault> {
        if self.has_ended {
            return Ok(());
        }
        match self.answer(alloc, line)? {
            Answer::Skip => {}
            Answer::Redraw => self.has_ended = !self.draw(alloc)?,
            Answer::Stop => self.has_ended = true,
        }
        Ok(())
    }
}

impl Replayed {
    /// Returns a dashboard of an empty tree. It has drawn no frame.
    fn new(alloc: Global, options: &DashboardOptions) -> Result<Replayed, Fault> {
        let mut shown = Options::create(alloc)?;
        shown.nanoseconds_per_frame = u64::from(options.milliseconds_per_frame) * 1_000_000;
        Ok(Replayed {
            tree: TreeState::new(alloc, &RootOptions::default())?,
            dashboard: Dashboard::new(alloc, shown, options.columns, options.rows),
            information: Vec::new(alloc),
            at: 0,
            has_ended: false,
            bytes: Vec::new(alloc),
        })
    }

    /// Applies a line, and returns what to do next.
    fn answer(&mut self, alloc: Global, line: Input) -> Result<Answer, Fault> {
        match line {
            Input::Tree(event) => self.apply_event(alloc, &event),
            Input::Dashboard(line) => {
                let event = line.into_event(alloc, &mut self.information)?;
                Ok(self.dashboard.handle(event))
            }
        }
    }

    /// Applies an event of the tree, or of its frames.
    fn apply_event(&mut self, alloc: Global, event: &Event) -> Result<Answer, Fault> {
        match event {
            Event::Tick { at, show } => {
                self.at = *at;
                Ok(if *show { Answer::Redraw } else { Answer::Skip })
            }
            Event::Resize {
                at,
                columns,
                rows,
                ..
            } => {
                self.at = *at;
                self.dashboard.resize(alloc, *columns, *rows)?;
                Ok(Answer::Redraw)
            }
            Event::Quit { .. } => Ok(Answer::Stop),
            _ => match self.tree.apply(alloc, event) {
                Err(Refusal::Memory) => Err(Fault::Memory),
                _ => Ok(Answer::Skip),
            },
        }
    }

    /// Returns the messages that are kept, or `None` if the root was dropped.
    fn messages(&mut self, alloc: Global) -> Result<Option<Messages>, Fault> {
        match self.tree.apply(alloc, &Event::CopyMessages) {
            Ok(Reply::Messages(messages)) => Ok(Some(messages)),
            Err(Refusal::Memory) => Err(Fault::Memory),
            _ => Ok(None),
        }
    }

    /// Draws a frame of the tree as it is now. Returns whether there is a root; without one nothing
    /// is drawn.
    #[tactic(auto, using(prodash_core::proofs::AscendingRows::ascending_list))]
    fn draw(&mut self, alloc: Global) -> Result<bool, Fault> {
        let Some(messages) = self.messages(alloc)? else {
            return Ok(false);
        };
        let rows = self.tree.rows(alloc)?;
        let time = format_now_datetime_seconds(alloc, self.at)?;
        let contents = Contents {
            rows: rows.as_slice(),
            messages: messages.as_slice(),
            at: self.at,
            time: time.as_str(),
        };
        self.dashboard.draw(alloc, &contents, &mut self.bytes)?;
        Ok(true)
    }

    /// Leaves the terminal.
    fn close(&mut self) -> Result<(), Fault> {
        self.dashboard.close(&mut self.bytes)?;
        Ok(())
    }
}
