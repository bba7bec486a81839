use super::style::Style;

/// A character or a control function of ECMA-48. A frame is a list of signs.
#[derive(Clone, Copy, Debug, PartialEq, Eq)]
pub enum Sign {
    /// A character, in UTF-8.
    Char(char),
    /// LF: to the beginning of the next row.
    LineFeed,
    /// CR: to the beginning of the cursor's row.
    CarriageReturn,
    /// CUU, `CSI n A`: up by `n` rows, from 1 to 65535.
    Up(u16),
    /// EL, `CSI 2 K`: blanks the cursor's row.
    EraseLine,
    /// ED, `CSI J`: blanks the cursor's row from the cursor on, and all rows below it.
    EraseBelow,
    /// `CSI ? 25 l`: hides the cursor.
    HideCursor,
    /// `CSI ? 25 h`: shows the cursor.
    ShowCursor,
    /// DECAWM reset, `CSI ? 7 l`: a character past the last column replaces the one in it.
    NoWrap,
    /// DECAWM, `CSI ? 7 h`: a character past the last column goes to the next row.
    Wrap,
    /// `CSI ? 2026 h`: begins a synchronized update. A terminal that has them shows nothing of what
    /// follows before its end.
    BeginUpdate,
    /// `CSI ? 2026 l`: ends a synchronized update.
    EndUpdate,
    /// SGR, `CSI n ; .. m`: begins a style, which has at least one code.
    Open(Style),
    /// SGR, `CSI 0 m`: ends all styles.
    Reset,
}
