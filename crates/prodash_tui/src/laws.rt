//! What follows from the definitions that contracts cite, for all values.
//!
//! Each function states a law in its contract and does nothing. A proof has the law after a call.
ghost use Rattle.std.specs.Prelude.{◌≡◌, ℕ, Bool, List};
ghost use Rattle.prodash_line.specs.CellRows.{char_columns};
ghost use Rattle.prodash_tui.specs.declared.cell.Cell.{Cell};
ghost use Rattle.prodash_tui.specs.declared.style.Color.{Color};
ghost use Rattle.prodash_tui.specs.declared.style.Style.{Style};
ghost use Rattle.prodash_tui.specs.Differences.{AreRedrawn, IsProperSheet, KeepsProper, TellsApart};
ghost use Rattle.prodash_tui.specs.Frames.{DrawsFirst, DrawsNext};
ghost use Rattle.prodash_tui.specs.Grids.{blank_sheet, with_background, with_border, with_filling, with_shortened, with_text};
ghost use Rattle.prodash_tui.specs.Rects.{intersect};
ghost use Rattle.prodash_tui.specs.Screens.{DrawsEntered, DrawsFrames, Restores, RestoresFrames};
ghost use Rattle.prodash_tui.specs.HeldCharacters.{KeepsToRows, ShowsOwnRows};
ghost use Rattle.prodash_tui.specs.OtherWidths.{AreWidths, HasOnlyOwn, ShowsOnly, StandsFirst, StandsNext};
ghost use Rattle.prodash_tui.specs.Reading.{DashboardsAreReadBack, FramesAreReadBack, HaveOneSpelling};
ghost use Rattle.prodash_tui.specs.BoardRuns.{ShowsEachFrame, ShowsMainAgain};
ghost use Rattle.prodash_core.specs.declared.render.tui.event.Line.{Line};
ghost use Rattle.prodash_core.specs.declared.render.tui.event.Rect.{Rect};
ghost use Rattle.prodash_tui.specs.Dashboards.{DashboardsFit, KeepsFit, MessagePanesFit, ProgressPanesFit, WholeDashboardsFit};
ghost use Rattle.prodash_tui.specs.Headlines.{with_headline};
ghost use Rattle.prodash_tui.specs.InformationPanes.{with_information};
ghost use Rattle.prodash_tui.specs.Outside.{ColorsInside, IsShared, ShowsFillings, ShowsShortened, ShowsTexts, StaysInside};

/// The first row of the rectangle shows the text from the left edge on, cut at the right one. No
/// cell outside the rectangle changes, if its edges go through no character of two columns.
pub fn text()
    ensures shows { ShowsTexts }
    ensures outside { (s : Style) (t : List ℕ) → StaysInside (λ area g. with_text area s t g) }
{}

/// The first row of the rectangle shows the text from the left edge on, with an ellipsis if it is
/// wider. No cell outside the rectangle changes, if its edges go through no character of two
/// columns.
pub fn shortened_text()
    ensures shows { ShowsShortened }
    ensures outside { (s : Style) (t : List ℕ)
        → StaysInside (λ area g. with_shortened area s t g) }
{}

/// The intersection of two rectangles has exactly the cells that both have.
pub fn shared_cells()
    ensures { (a b : Rect) → IsShared (intersect a b) a b }
{}

/// Each row of the rectangle shows the character as often as it fits. No cell outside the rectangle
/// changes, if its edges go through no character of two columns.
pub fn filled()
    ensures shows { ShowsFillings }
    ensures outside { (s : Style) (c : ℕ) → StaysInside (λ area g. with_filling area s c g) }
{}

/// No cell outside the rectangle changes, if its edges go through no character of two columns.
pub fn bordered()
    ensures { (s : Style) → StaysInside (λ area g. with_border area s g) }
{}

/// Each character in the rectangle is on the background, and is else as it was. No cell outside the
/// rectangle changes.
pub fn colored()
    ensures inside { ColorsInside }
    ensures outside { (c : Color) → StaysInside (λ area g. with_background area c g) }
{}

/// A blank grid has proper rows, and so has each grid that is drawn on one that has.
pub fn proper()
    ensures blank { (width height : ℕ) → IsProperSheet char_columns (blank_sheet width height) }
    ensures text { (s : Style) (t : List ℕ) → KeepsProper (λ area g. with_text area s t g) }
    ensures shortened { (s : Style) (t : List ℕ)
        → KeepsProper (λ area g. with_shortened area s t g) }
    ensures filled { (s : Style) (c : ℕ) → KeepsProper (λ area g. with_filling area s c g) }
    ensures border { (s : Style) → KeepsProper (λ area g. with_border area s g) }
    ensures background { (c : Color) → KeepsProper (λ area g. with_background area c g) }
{}

/// A proper row into which the characters are written that differ in another proper row of its
/// length is that row.
pub fn redrawn()
    ensures { (same : Cell → Cell → Bool) → TellsApart same → AreRedrawn same }
{}

/// On a display that shows a proper grid, the difference to another proper one of its size leaves
/// that one. On any display of its size the first frame of a proper grid leaves that grid, whatever
/// was shown. This holds of any function from characters to columns that gives a space one.
pub fn frames()
    ensures next { (columns : ℕ → ℕ) → columns 32 ≡ 1 → DrawsNext columns }
    ensures first { (columns : ℕ → ℕ) → columns 32 ≡ 1 → DrawsFirst columns }
{}

/// After each frame of a screen, a display of its size shows exactly the grid of that frame: if it
/// showed the one before, and whatever it showed if the frame is written whole. It does so after it
/// has entered the alternate screen, whatever it showed before. The grids are proper ones, and this
/// holds of any function from characters to columns that gives a space one.
pub fn drawn()
    ensures frames { (columns : ℕ → ℕ) → columns 32 ≡ 1 → DrawsFrames columns }
    ensures entered { (columns : ℕ → ℕ) → columns 32 ≡ 1 → DrawsEntered columns }
{}

/// No two lists of signs without control characters are spelled by the same bytes. So the bytes of
/// a frame are those of its signs alone: of a grid that has no control characters, and of every
/// dashboard, whatever its texts are.
pub fn read_back()
    ensures one { HaveOneSpelling }
    ensures frames { FramesAreReadBack }
    ensures dashboards { DashboardsAreReadBack }
{}

/// Whatever columns a terminal gives characters: a frame writes into each row only characters of
/// that row of its grid, and spaces. So after a frame that is written whole a row shows no others,
/// whatever it showed before.
pub fn rows_apart()
    ensures next { (columns : ℕ → ℕ) → KeepsToRows columns }
    ensures first { (columns : ℕ → ℕ) → ShowsOwnRows columns }
{}

/// A terminal may give characters other columns than `unicode_width` does, if it gives none to the
/// same ones, and one to printable ASCII, box drawing and block elements. Then each row of a
/// display shows only characters of that row of the grid that was drawn last, and spaces: after a
/// frame that is written whole, after each one by difference behind it, and so after each frame of
/// every run of a dashboard, whatever was shown before. The columns of `unicode_width` are such.
pub fn other_widths()
    ensures own { AreWidths char_columns }
    ensures only { ShowsOnly }
    ensures next { (columns : ℕ → ℕ) → AreWidths columns → StandsNext columns }
    ensures first { (columns : ℕ → ℕ) → AreWidths columns → StandsFirst columns }
    ensures runs { (columns : ℕ → ℕ) → AreWidths columns → HasOnlyOwn columns }
{}

/// A display that has entered the alternate screen and left it is as it was before, with its cursor
/// shown and wrapping on: after any frames, and after any signs that neither enter nor leave a
/// screen.
pub fn restored()
    ensures signs { (columns : ℕ → ℕ) → Restores columns }
    ensures frames { (columns : ℕ → ℕ) → RestoresFrames columns }
{}

/// A dashboard that is drawn on a grid that fits a display leaves one that fits it, and so do its
/// headline and its panes: the rows are proper, and it has the display's size.
pub fn dashboards()
    ensures information { (l : List Line) → KeepsFit (λ area g. with_information l area g) }
    ensures messages { MessagePanesFit }
    ensures headline { (text : List ℕ) → KeepsFit (λ area g. with_headline area text g) }
    ensures progress { ProgressPanesFit }
    ensures all { DashboardsFit }
    ensures whole { WholeDashboardsFit }
{}

/// Over every run of a dashboard, of events, sizes and frames, a display shows exactly the grid of
/// each frame after it, whatever it showed before, if it has the size that the dashboard was told.
/// At the end it shows again what it showed before the first frame, with its cursor shown and
/// wrapping on. The display gives characters the columns that `unicode_width` does.
pub fn runs()
    ensures frames { ShowsEachFrame }
    ensures end { ShowsMainAgain }
{}
