//! What follows from the definitions that contracts cite, for all values.
//!
//! Each function states a law in its contract and does nothing. A proof has the law after a call.
ghost use Rattle.std.specs.Prelude.{◌≡◌, ◌≤◌, ℕ, List};
ghost use Rattle.prodash_line.specs.Signs.{spelling};
ghost use Rattle.prodash_line.specs.Reading.{AreProper};
ghost use Rattle.prodash_line.specs.declared.render.line.page.sign.Sign.{Sign};
ghost use Rattle.prodash_line.specs.Lines.{Line, columns_of};
ghost use Rattle.prodash_line.specs.Fits.{IsPlain};
ghost use Rattle.prodash_line.specs.ErasedPages.{ShowsPlainly};
ghost use Rattle.prodash_line.specs.Terminals.{PagesAgree};

/// No two lists of proper signs spell the same bytes.
pub fn one_spelling()
    ensures { (ss ts : List Sign) → AreProper ss → AreProper ts → spelling ss ≡ spelling ts
        → ss ≡ ts }
{}

/// On a terminal that gives characters the columns that the renderer gives them, the row of a plain
/// line that is no wider than the terminal has its characters, one in each cell, and then blanks.
pub fn plain_row()
    ensures { (width : ℕ) (line : Line) → IsPlain line → columns_of line ≤ width
        → ShowsPlainly width line }
{}

/// On a terminal that gives each written character one column, a page of cells shows what a page of
/// characters does.
pub fn plain_page()
    ensures { (columns : ℕ → ℕ) → PagesAgree columns }
{}
