//! Two grids for a terminal's alternate screen: the one that it shows, and the next one.
ghost use Rattle.std.specs.Prelude.{◌≡◌, ◌&&◌, IfOk, IsOkUnless, OnErr, OnOk};
ghost use Rattle.std.specs.Borrow.{sem};
ghost use Rattle.prodash_tui.specs.Screens.{blank_buffers, drawn, enter, frame, have_one_size, leave, unknown, with_next};
ghost use Rattle.prodash_tui.specs.plumbing.Appended.{Spells};
ghost use Rattle.prodash_tui.specs.Lends.{LendsBack};

use crate::frame::{push_difference, push_first, undo_if_refused};
use crate::grid::Grid;
use crate::sign::{Sign, push_signs};
use crate::style::Style;
use prodash_base::Refusal;
use std::alloc::Global;
use std::marker::Model;
use std::mem;

/// Two grids for the alternate screen of a terminal: the one that it shows, and the one that is
/// drawn next. What is written for a grid is what has changed since the one before. `new` and
/// `resize` take memory; for each other call only the buffer may grow.
///
/// ```rust
/// let mut screen = Screen::new(alloc, 40, 4)?;
/// screen.enter(&mut bytes)?;
/// screen.grid_mut().draw_text(area, "Progress", Style::new().bold());
/// screen.draw(&mut bytes)?;
/// screen.leave(&mut bytes)?;
/// ```
#[derive(Drop)]
pub struct Screen {
    front: Grid,
    back: Grid,
    is_shown: bool,
}

impl Model for Screen {
    ghost use Rattle.prodash_tui.specs.Screens.{Buffers};

    ghost Value = { Buffers };

    ghost view = { λ s. record { front = s.front; back = s.back; is_shown = s.is_shown } };
}

/// Returns whether two grids have one size.
fn have_one_size(a: &Grid, b: &Grid) -> bool
    ensures { result ≡ have_one_size a.now b.now }
{
    a.width() == b.width() && a.height() == b.height()
}

/// Appends the bytes of signs.
///
/// `Memory`: out of memory. The buffer is then as it was.
fn push_all(out: &mut Vec<u8>, signs: &[Sign]) -> Result<(), Refusal>
    ensures ok { Spells result out.old.items signs.now out.new.items }
    ensures err { OnErr result (out.new.items ≡ out.old.items) }
    ensures reason { IsOkUnless result Refusal.Memory }
{
    let length = out.len();
    let appended = push_signs(out, signs);
    undo_if_refused(out, length, appended)?;
    Ok(())
}

impl Screen {
    /// Returns a screen with blank grids for a terminal that may show anything.
    ///
    /// `Memory`: out of memory.
    pub fn new(alloc: Global, width: u16, height: u16) -> Result<Screen, Refusal>
        ensures ok { IfOk result (λ screen. screen ≡ blank_buffers width height) }
        ensures reason { IsOkUnless result Refusal.Memory }
    {
        let front = Grid::new(alloc, width, height)?;
        let back = Grid::new(alloc, width, height)?;
        Ok(Screen {
            front,
            back,
            is_shown: false,
        })
    }

    /// Returns the grid that is drawn next.
    pub fn grid(&self) -> &Grid
        ensures { result.now ≡ self.now.back }
    {
        &self.back
    }

    /// Returns the grid that is drawn next, to draw on it.
    pub fn grid_mut(&mut self) -> &mut Grid
        ensures* writes_back { sem 𝓛 (LendsBack self.entry result) }
        ensures value { result.now ≡ self.old.back }
    {
        &mut self.back
    }

    /// Takes the size of the terminal as changed: both grids have it and are blank, and the next
    /// one is written whole.
    ///
    /// `Memory`: out of memory. The screen is then as it was.
    pub fn resize(&mut self, alloc: Global, width: u16, height: u16) -> Result<(), Refusal>
        ensures ok { OnOk result (self.new ≡ blank_buffers width height) }
        ensures err { OnErr result (self.new ≡ self.old) }
        ensures reason { IsOkUnless result Refusal.Memory }
    {
        *self = Screen::new(alloc, width, height)?;
        Ok(())
    }

    /// Appends what shows the alternate screen, with no cursor. The next grid is written whole.
    ///
    /// `Memory`: out of memory. The buffer and the screen are then as they were.
    pub fn enter(&mut self, out: &mut Vec<u8>) -> Result<(), Refusal>
        ensures ok { Spells result out.old.items enter out.new.items }
        ensures screen { OnOk result (self.new ≡ unknown self.old) }
        ensures err { OnErr result (out.new.items ≡ out.old.items) }
        ensures stays { OnErr result (self.new ≡ self.old) }
        ensures reason { IsOkUnless result Refusal.Memory }
    {
        push_all(out, &[Sign::EnterAlternate, Sign::HideCursor, Sign::NoWrap])?;
        self.is_shown = false;
        Ok(())
    }

    /// Appends what shows the grid: all of it if the terminal may show anything, and else what has
    /// changed since the one before. The grid that is drawn next is then blank.
    ///
    /// `Memory`: out of memory. The buffer and the screen are then as they were.
    pub fn draw(&mut self, out: &mut Vec<u8>) -> Result<(), Refusal>
        ensures ok { Spells result out.old.items (frame self.old) out.new.items }
        ensures screen { OnOk result (self.new ≡ drawn self.old) }
        ensures err { OnErr result (out.new.items ≡ out.old.items) }
        ensures stays { OnErr result (self.new ≡ self.old) }
        ensures reason { IsOkUnless result Refusal.Memory }
    {
        if self.is_shown && have_one_size(&self.front, &self.back) {
            push_difference(&mut self.front, &mut self.back, out)?;
        } else {
            push_first(&mut self.back, out)?;
        }
        mem::swap(&mut self.front, &mut self.back);
        self.back.clear();
        self.is_shown = true;
        Ok(())
    }

    /// Takes a grid as the one that is drawn next, and draws it. It is then the one that would have
    /// been drawn next.
    ///
    /// `Memory`: out of memory. The buffer, the screen and the grid are then as they were.
    pub(crate) fn draw_grid(&mut self, grid: &mut Grid, out: &mut Vec<u8>) -> Result<(), Refusal>
        ensures ok { Spells result out.old.items (frame (with_next grid.old self.old))
            out.new.items }
        ensures screen { OnOk result (self.new ≡ drawn (with_next grid.old self.old)) }
        ensures traded { OnOk result (grid.new ≡ self.old.back) }
        ensures err { OnErr result (out.new.items ≡ out.old.items) }
        ensures stays { OnErr result (self.new ≡ self.old) }
        ensures kept { OnErr result (grid.new ≡ grid.old) }
        ensures reason { IsOkUnless result Refusal.Memory }
    {
        mem::swap(&mut self.back, grid);
        let drawn = self.draw(out);
        if drawn.is_err() {
            mem::swap(&mut self.back, grid);
        }
        drawn
    }

    /// Appends what shows the main screen again as it was, with its cursor. The alternate screen is
    /// erased before, since some terminals whose window has grown show rows of it below the main
    /// one. The next grid is written whole.
    ///
    /// `Memory`: out of memory. The buffer and the screen are then as they were.
    pub fn leave(&mut self, out: &mut Vec<u8>) -> Result<(), Refusal>
        ensures ok { Spells result out.old.items leave out.new.items }
        ensures screen { OnOk result (self.new ≡ unknown self.old) }
        ensures err { OnErr result (out.new.items ≡ out.old.items) }
        ensures stays { OnErr result (self.new ≡ self.old) }
        ensures reason { IsOkUnless result Refusal.Memory }
    {
        push_all(
            out,
            &[
                Sign::SetStyle(Style::new()),
                Sign::EraseScreen,
                Sign::LeaveAlternate,
                Sign::Wrap,
                Sign::ShowCursor,
            ],
        )?;
        self.is_shown = false;
        Ok(())
    }
}
