//! The line of a row: its name, and with progress its values and a bar.
ghost use Rattle.std.specs.Prelude.{◌≡◌, ◌≤◌, ◌+◌, ◌++◌, false, true, Some, None, length, OnOk, IfOk, IsOkUnless};
ghost use Rattle.std.specs.Bool.{then_some};
ghost use Rattle.prodash_base.specs.Rows.{row_of};
ghost use Rattle.prodash_line.specs.ProgressRows as rows;
ghost use Rattle.prodash_line.specs.ProgressRows.{fraction_of, fraction_values};
ghost use Rattle.prodash_line.specs.Lines.{capped};
ghost use Rattle.prodash_line.specs.TextStyles as styles;
ghost use Rattle.prodash_line.specs.plumbing.RowWriting.{after_padding, PadsAsIs, DrawsTexts, NothingBefore, DrawsLabelled, end_of_values, Pads, PadsValues, drawn_values, unit_values, own_midpoint, whole_text, DrawsRow, DrawsProgress, DrawsFraction, DrawsInUnit, DrawsText, OrNothing, AppendsHead};
ghost use Rattle.prodash_line.specs.plumbing.Writing.{is_printable, AppendsIn};

use crate::render::line::draw::bar::{ARROW, BRACKETS, bar_columns, filled_cells, push_bar};
use crate::render::line::draw::drawn_text::{drawn_name, drawn_text};
use crate::render::line::draw::input::Options;
use crate::render::line::draw::line_writer::{LineWriter, style_of_length};
use crate::render::line::draw::plain_progress::{PlainProgress, PlainText, fraction_columns};
use crate::render::line::draw::row_time::{TimeTexts, push_time};
use crate::render::line::draw::styles::{name_style, values_style};
use crate::render::line::draw::text::is_all_printable;
use crate::render::line::page::Style;
use prodash_base::Refusal;
use prodash_base::progress::{Level, Row, Step, Value};
use prodash_base::time::Moment;
use prodash_base::timing::Timer;
use prodash_base::unit::display::{Mode, Throughput, append_unit, append_values};
use prodash_base::unit::{Kind, Unit};
use std::alloc::{AllocError, Global};

/// How many bytes a short text has at most.
const SHORT: usize = 255;

/// Memory for the texts of one row, which that of the next row reuses.
#[derive(Drop)]
pub(crate) struct RowTexts {
    values: String,
    unit: String,
    /// What is drawn of a name, of values and of a unit, if that is another text.
    replaced_name: String,
    replaced_values: String,
    replaced_unit: String,
    time: TimeTexts,
}

impl RowTexts {
    /// Returns texts that are empty.
    pub(crate) fn new(alloc: Global) -> RowTexts {
        RowTexts {
            values: String::new(alloc),
            unit: String::new(alloc),
            replaced_name: String::new(alloc),
            replaced_values: String::new(alloc),
            replaced_unit: String::new(alloc),
            time: TimeTexts::new(alloc),
        }
    }
}

/// What is measured of a row.
#[derive(Clone, Copy, Drop)]
pub(crate) struct Measured<'a> {
    /// Its throughput, if there is one.
    pub(crate) throughput: Option<Throughput>,
    /// The timer of its task, if times are shown.
    pub(crate) timer: &'a Option<Timer>,
    /// The moment for which its time is told.
    pub(crate) at: Moment,
}

/// The progress of a row, and what it is drawn with. Its time is told at a moment, if there is a
/// timer.
#[derive(Clone, Copy, Drop)]
pub(crate) struct DrawnProgress<'a> {
    options: &'a Options,
    /// The column at which its values are to end.
    midpoint: u16,
    row: &'a Row,
    value: &'a Value,
    throughput: Option<Throughput>,
    timer: &'a Option<Timer>,
    at: Moment,
}

/// Writes the line of a row, on a row of the terminal that is erased first if frames do that. Its
/// values are padded so that they end at this midpoint, with a throughput if there is one, and its
/// time follows if there is a timer. Returns the row's own midpoint: the column at which its values
/// end without padding, 0 if it has no progress. Fails if out of memory.
#[inline(always)]
pub(crate) fn push_row(
    out: &mut LineWriter,
    texts: &mut RowTexts,
    options: &Options,
    midpoint: u16,
    row: &Row,
    measured: Measured<'_>,
) -> Result<u16, Refusal>
    ensures line { OnOk result
        (DrawsRow options.now midpoint row.now measured.entry out.old out.new) }
    ensures midpoint { IfOk result
        (λ n. n ≡ own_midpoint options.now row.now measured.entry.throughput) }
    ensures reason { IsOkUnless result Refusal.Memory }
{
    out.begin_row(options.layout(), options.width_limit())?;
    push_name(out, &mut texts.replaced_name, options, row)?;
    let Some(value) = &row.progress else {
        return Ok(0);
    };
    let drawn = DrawnProgress {
        options,
        midpoint,
        row,
        value,
        throughput: measured.throughput,
        timer: measured.timer,
        at: measured.at,
    };
    let own = push_progress(out, texts, &drawn)?;
    Ok(own)
}

/// Appends a space and the values of a progress, as `push_values` does, its time and its bar.
/// Returns the column at which the values end without padding.
#[inline(always)]
fn push_progress(
    out: &mut LineWriter,
    texts: &mut RowTexts,
    drawn: &DrawnProgress<'_>,
) -> Result<u16, Refusal>
    ensures drawn { IfOk result (λ own. DrawsProgress drawn.now own out.old out.new) }
    ensures reason { IsOkUnless result Refusal.Memory }
{
    let (width, _) = drawn.options.terminal_dimensions;
    if !drawn.options.colored && drawn.timer.is_none() && out.width() < width {
        let plain = push_plain(out, &mut texts.values, drawn)?;
        if let Some(own) = plain {
            return Ok(own);
        }
    }
    let own = push_copy_in_parts(out, texts, drawn)?;
    Ok(own)
}

/// Does what `push_progress` does, part by part, with a copy: what is drawn at once is then never
/// in memory.
#[inline(always)]
fn push_copy_in_parts(
    out: &mut LineWriter,
    texts: &mut RowTexts,
    drawn: &DrawnProgress<'_>,
) -> Result<u16, Refusal>
    ensures drawn { IfOk result (λ own. DrawsProgress drawn.now own out.old out.new) }
    ensures reason { IsOkUnless result Refusal.Memory }
{
    let copy = *drawn;
    push_in_parts(out, texts, &copy)
}

/// Does what `push_progress` does, part by part.
#[inline(never)]
fn push_in_parts(
    out: &mut LineWriter,
    texts: &mut RowTexts,
    drawn: &DrawnProgress<'_>,
) -> Result<u16, Refusal>
    ensures drawn { IfOk result (λ own. DrawsProgress drawn.now own out.old out.new) }
    ensures reason { IsOkUnless result Refusal.Memory }
{
    let (width, _) = drawn.options.terminal_dimensions;
    let own = push_values(out, texts, drawn)?;
    push_time(
        out,
        &mut texts.time,
        drawn.options,
        drawn.timer,
        drawn.at,
        drawn.row,
    )?;
    let left = width.saturating_sub(out.width());
    let columns = bar_columns(drawn.options.bar_columns, left);
    push_bar(out, drawn.options.colored, columns, drawn.value)?;
    Ok(own)
}

/// Does what `push_progress` does without styles and a time, at once, if the progress has a bound,
/// its texts are printable ASCII characters, and the line has room for all of it. Otherwise it appends
/// nothing and returns `None`. `text` is memory for the values and the unit.
#[inline(always)]
fn push_plain(
    out: &mut LineWriter,
    text: &mut String,
    drawn: &DrawnProgress<'_>,
) -> Result<Option<u16>, Refusal>
    requires colored { drawn.now.options.now.colored ≡ false }
    requires timer { drawn.now.timer.now ≡ None }
    ensures drawn { IfOk result (OrNothing out.old out.new (DrawsProgress drawn.now)) }
    ensures reason { IsOkUnless result Refusal.Memory }
{
    let Some(done_at) = drawn.value.done_at else {
        return Ok(None);
    };
    let plain = match &drawn.value.unit {
        None => push_plain_fraction(out, drawn, done_at)?,
        Some(unit) => push_plain_unit(out, text, drawn, unit, done_at)?,
    };
    Ok(plain)
}

/// Does what `push_plain` does for a progress with this bound and without a unit.
#[inline(always)]
fn push_plain_fraction(
    out: &mut LineWriter,
    drawn: &DrawnProgress<'_>,
    done_at: Step,
) -> Result<Option<u16>, AllocError>
    requires { drawn.now.value.now.done_at ≡ Some done_at }
    ensures { IfOk result (OrNothing out.old out.new (DrawsFraction drawn.now)) }
{
    let text = PlainText::Fraction(drawn.value.step, Some(done_at));
    let plain = push_plain_text(out, drawn, done_at, &text)?;
    Ok(plain)
}

/// Does what `push_plain` does for a progress with this bound and this unit.
#[inline(always)]
fn push_plain_unit(
    out: &mut LineWriter,
    text: &mut String,
    drawn: &DrawnProgress<'_>,
    unit: &Unit,
    done_at: Step,
) -> Result<Option<u16>, Refusal>
    requires { drawn.now.value.now.done_at ≡ Some done_at }
    ensures drawn { IfOk result (OrNothing out.old out.new (DrawsInUnit drawn.now unit.now)) }
    ensures reason { IsOkUnless result Refusal.Memory }
{
    let plain = match unit.as_display_value() {
        Kind::Label(label) if shows_nothing_before(unit.mode()) => {
            push_plain_label(out, text, drawn, unit, label, done_at)?
        }
        _ => push_plain_values(out, text, drawn, unit, done_at)?,
    };
    Ok(plain)
}

/// Whether nothing is shown before values in a mode: of the modes that show something, only the one
/// that shows the throughput alone is looked at.
#[inline(always)]
fn shows_nothing_before(mode: Option<Mode>) -> bool
    ensures { result ≡ true → NothingBefore mode }
{
    match mode {
        None => true,
        Some(mode) => mode == Mode::with_throughput(),
    }
}

/// Does what `push_plain_unit` does for a unit of this label that shows nothing before the values.
#[inline(always)]
fn push_plain_label(
    out: &mut LineWriter,
    text: &mut String,
    drawn: &DrawnProgress<'_>,
    unit: &Unit,
    label: &'static str,
    done_at: Step,
) -> Result<Option<u16>, Refusal>
    requires bound { drawn.now.value.now.done_at ≡ Some done_at }
    requires kind { unit.now.kind ≡ Kind.Label label }
    requires nothing { NothingBefore unit.now.mode }
    ensures drawn { IfOk result (OrNothing out.old out.new (DrawsInUnit drawn.now unit.now)) }
    ensures reason { IsOkUnless result Refusal.Memory }
{
    if unit.mode().is_none() {
        let plain = push_labelled(out, drawn, label.as_bytes(), done_at)?;
        return Ok(plain);
    }
    text.clear();
    let value = drawn.value;
    let (kind, mode) = (unit.as_display_value(), unit.mode());
    append_unit(
        text,
        kind,
        mode,
        value.step,
        value.done_at,
        drawn.throughput,
    )?;
    let plain = push_labelled(out, drawn, text.as_bytes(), done_at)?;
    Ok(plain)
}

/// Does what `push_plain` does for a progress with this bound, whose values this label follows.
#[inline(always)]
fn push_labelled(
    out: &mut LineWriter,
    drawn: &DrawnProgress<'_>,
    label: &[u8],
    done_at: Step,
) -> Result<Option<u16>, AllocError>
    requires { drawn.now.value.now.done_at ≡ Some done_at }
    ensures { IfOk result (OrNothing out.old out.new (DrawsLabelled drawn.now label.now)) }
{
    if !is_all_printable(label) {
        return Ok(None);
    }
    let text = PlainText::Labelled(drawn.value.step, Some(done_at), label);
    let plain = push_plain_text(out, drawn, done_at, &text)?;
    Ok(plain)
}

/// Does what `push_plain_unit` does with the values and the unit in one text.
#[inline(always)]
fn push_plain_values(
    out: &mut LineWriter,
    text: &mut String,
    drawn: &DrawnProgress<'_>,
    unit: &Unit,
    done_at: Step,
) -> Result<Option<u16>, Refusal>
    requires { drawn.now.value.now.done_at ≡ Some done_at }
    ensures drawn { IfOk result (OrNothing out.old out.new (DrawsInUnit drawn.now unit.now)) }
    ensures reason { IsOkUnless result Refusal.Memory }
{
    text.clear();
    let value = drawn.value;
    let (kind, mode) = (unit.as_display_value(), unit.mode());
    let (step, bound, throughput) = (value.step, value.done_at, drawn.throughput);
    append_values(text, kind, mode, step, bound, throughput)?;
    text.push(' ')?;
    append_unit(text, kind, mode, step, bound, throughput)?;
    let text = text.as_bytes();
    if !is_all_printable(text) {
        return Ok(None);
    }
    let plain = push_plain_text(out, drawn, done_at, &PlainText::Other(text))?;
    Ok(plain)
}

/// Appends a text, padded as `push_values` says, and the bar of a progress with this bound, without
/// styles, if the line has room for all of it. Returns the column at which the text ends without
/// padding, or `None` if nothing is appended.
#[inline(always)]
fn push_plain_text(
    out: &mut LineWriter,
    drawn: &DrawnProgress<'_>,
    done_at: Step,
    text: &PlainText<'_>,
) -> Result<Option<u16>, AllocError>
    requires bound { drawn.now.value.now.done_at ≡ Some done_at }
    requires printable { is_printable (whole_text text.now) ≡ true }
    ensures { IfOk result (OrNothing out.old out.new (DrawsText drawn.now text.now)) }
{
    let (width, _) = drawn.options.terminal_dimensions;
    let columns = text.columns();
    let own = out.width().saturating_add(1).saturating_add(columns);
    let end = own.max(drawn.midpoint);
    let left = bar_columns(drawn.options.bar_columns, width.saturating_sub(end));
    if left < BRACKETS + ARROW {
        return Ok(None);
    }
    let cells = left - (BRACKETS + ARROW);
    let progress = PlainProgress {
        padding: end - own,
        text: *text,
        columns,
        cells,
        filled: filled_cells(cells, drawn.value.step, done_at),
    };
    let has_room = out.push_progress(&progress)?;
    Ok(has_room.then_some(own))
}

/// Appends a space and the values of a progress, padded so that they end at its midpoint. Returns
/// the column at which they end without padding.
fn push_values(
    out: &mut LineWriter,
    texts: &mut RowTexts,
    drawn: &DrawnProgress<'_>,
) -> Result<u16, Refusal>
    ensures line { OnOk result
        (PadsValues drawn.now (drawn_values drawn.now) out.old out.new) }
    ensures end { IfOk result
        (λ n. n ≡ end_of_values out.old.width (drawn_values drawn.now)) }
    ensures reason { IsOkUnless result Refusal.Memory }
{
    let (options, value) = (drawn.options, drawn.value);
    match &value.unit {
        None => Ok(push_fraction(
            out,
            options.colored,
            drawn.midpoint,
            value.step,
            value.done_at,
        )?),
        Some(unit) => push_in_unit(out, texts, drawn, unit),
    }
}

/// Appends a space and the values of a progress without a unit, padded as `push_values` says.
fn push_fraction(
    out: &mut LineWriter,
    colored: bool,
    midpoint: u16,
    step: Step,
    done_at: Option<Step>,
) -> Result<u16, AllocError>
    ensures line { OnOk result
        (Pads colored midpoint out.old (fraction_values step done_at) out.new) }
    ensures end { IfOk result
        (λ n. n ≡ end_of_values out.old.width (fraction_values step done_at)) }
{
    let values = fraction_columns(step, done_at);
    let own = out.width().saturating_add(1).saturating_add(values);
    let padding = midpoint.saturating_sub(own);
    push_padded_fraction(out, colored, padding, step, done_at, values)?;
    Ok(own)
}

/// Appends a space, padding, and the values of a progress without a unit, which are `values` wide.
#[inline(always)]
fn push_padded_fraction(
    out: &mut LineWriter,
    colored: bool,
    padding: u16,
    step: Step,
    done_at: Option<Step>,
    values: u16,
) -> Result<(), AllocError>
    requires values { values ≡ length (fraction_of step done_at) }
    requires short { 1 + padding + values ≤ 65535 }
    ensures { OnOk result (AppendsIn colored out.old
        (after_padding padding (fraction_values step done_at)) out.new) }
{
    let whole = out.push_whole_fraction(colored, padding, step, done_at, values)?;
    if whole {
        return Ok(());
    }
    out.push_gap(padding)?;
    let count = out.count_printable(values);
    let style = style_of_length(colored.then_some(values_style()), usize::from(count));
    out.open_style(style)?;
    out.push_fraction(step, done_at, values, count)?;
    out.reset_style(style)?;
    Ok(())
}

/// Appends a space, the values of a progress in a unit, a space and the unit, padded as
/// `push_values` says.
fn push_in_unit(
    out: &mut LineWriter,
    texts: &mut RowTexts,
    drawn: &DrawnProgress<'_>,
    unit: &Unit,
) -> Result<u16, Refusal>
    ensures line { OnOk result
        (PadsValues drawn.now (unit_values drawn.now unit.now) out.old out.new) }
    ensures end { IfOk result
        (λ n. n ≡ end_of_values out.old.width (unit_values drawn.now unit.now)) }
    ensures reason { IsOkUnless result Refusal.Memory }
{
    texts.values.clear();
    texts.unit.clear();
    let value = drawn.value;
    let (kind, mode) = (unit.as_display_value(), unit.mode());
    let (step, bound, throughput) = (value.step, value.done_at, drawn.throughput);
    append_values(&mut texts.values, kind, mode, step, bound, throughput)?;
    append_unit(&mut texts.unit, kind, mode, step, bound, throughput)?;
    let own = push_texts(out, texts, drawn)?;
    Ok(own)
}

/// Appends a space, values and a unit as they are drawn, padded as `push_values` says. Returns the
/// column at which they end without padding.
#[inline(always)]
fn push_texts(
    out: &mut LineWriter,
    texts: &mut RowTexts,
    drawn: &DrawnProgress<'_>,
) -> Result<u16, AllocError>
    ensures { IfOk result (DrawsTexts drawn.now texts.old out.old out.new) }
{
    let (values, unit) = (texts.values.as_bytes(), texts.unit.as_bytes());
    let whole = push_short_texts(out, drawn.options.colored, drawn.midpoint, values, unit)?;
    match whole {
        Some(own) => Ok(own),
        None => push_other_texts(out, texts, drawn),
    }
}

/// Appends a space, values and a unit, padded as `push_values` says, if they are short texts of
/// printable ASCII characters and the line has room for all of it. Returns the column at which
/// they end without padding, or `None` if nothing is appended.
#[inline(always)]
fn push_short_texts(
    out: &mut LineWriter,
    colored: bool,
    midpoint: u16,
    values: &[u8],
    unit: &[u8],
) -> Result<Option<u16>, AllocError>
    ensures { IfOk result (OrNothing out.old out.new
        (PadsAsIs colored midpoint values.now unit.now)) }
{
    if values.is_empty() || values.len() > SHORT || unit.len() > SHORT {
        return Ok(None);
    }
    if !is_all_printable(values) || !is_all_printable(unit) {
        return Ok(None);
    }
    let own = out
        .width()
        .saturating_add(2 + values.len() as u16 + unit.len() as u16);
    let padding = midpoint.saturating_sub(own);
    let whole = out.push_whole_pair(colored, padding, values, unit)?;
    Ok(whole.then_some(own))
}

/// Does what `push_texts` does for any texts.
#[inline(never)]
fn push_other_texts(
    out: &mut LineWriter,
    texts: &mut RowTexts,
    drawn: &DrawnProgress<'_>,
) -> Result<u16, AllocError>
    ensures { IfOk result (DrawsTexts drawn.now texts.old out.old out.new) }
{
    let options = drawn.options;
    let (values, name) = (texts.values.as_str(), texts.unit.as_str());
    let values = drawn_text(options.defensive, values, &mut texts.replaced_values)?;
    let name = drawn_text(options.defensive, name, &mut texts.replaced_unit)?;
    let own = out
        .width()
        .saturating_add(1)
        .saturating_add(values.width)
        .saturating_add(1)
        .saturating_add(name.width);
    out.push_gap(drawn.midpoint.saturating_sub(own))?;
    let style = options.colored.then_some(values_style());
    out.push_pair(style, &values, &name)?;
    Ok(own)
}

/// Returns whether the filter of levels, if there is one, lets a row through.
pub(crate) fn is_row_drawn(levels: Option<(Level, Level)>, row: &Row) -> bool
    ensures { result ≡ rows.is_row_drawn levels (row_of row.now) }
{
    let level = row.key.level();
    match levels {
        None => true,
        Some((lowest, highest)) => lowest <= level && level <= highest,
    }
}

/// Appends the name of a row behind as many spaces as its level. Its width is kept for the next
/// frame. If it is drawn with other characters, those are written to `replaced`.
#[inline(always)]
fn push_name(
    out: &mut LineWriter,
    replaced: &mut String,
    options: &Options,
    row: &Row,
) -> Result<(), AllocError>
    ensures { OnOk result (AppendsHead options.now row.now out.old out.new) }
{
    let (level, name) = (u16::from(row.key.level()), row.name.as_str());
    let bytes = name.as_bytes();
    if bytes.len() <= usize::from(u16::MAX) && is_all_printable(bytes) {
        out.push_printable_behind(level, style_of_name(options, row), bytes)?;
        return Ok(());
    }
    out.push_spaces(level)?;
    let name = drawn_name(options.defensive, name, replaced, &mut out.names)?;
    out.push_drawn(style_of_name(options, row), &name)?;
    Ok(())
}

/// Returns the style in which the name of a row is drawn, if it is coloured.
#[inline(always)]
fn style_of_name(options: &Options, row: &Row) -> Option<Style>
    ensures { result
        ≡ then_some options.now.colored (styles.name_style (row_of row.now).1.progress) }
{
    options.colored.then_some(name_style(&row.progress))
}
