//! How far a list is scrolled.
ghost use Rattle.std.specs.Prelude.{◌≡◌};
ghost use Rattle.prodash_tui.specs.Offsets.{sanitize_offset};

/// Returns how many items of a list are skipped before the first one that is shown in so many
/// lines: as many as `offset`, but no more than leave a list that fills the lines.
pub fn sanitize_offset(offset: u16, items: usize, lines: u16) -> u16
    ensures { result ≡ sanitize_offset offset items lines }
{
    let most = items.saturating_sub(usize::from(lines));
    most.min(usize::from(offset)) as u16
}
