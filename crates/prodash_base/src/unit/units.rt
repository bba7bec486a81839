ghost use Rattle.std.specs.Prelude.{◌≡◌, Some, None, OnOk, OnErr, string_bytes, IsOkUnless};
ghost use Rattle.prodash_base.specs.Appending.{Appends};
ghost use Rattle.prodash_base.specs.Displays.{amount};
ghost use Rattle.prodash_base.specs.Units.{display_of, display_text};

use super::Kind;
use super::display::values::{amount, append_part};
use super::display::{Amount, Mode, Part, Throughput};
use crate::progress::Step;
use crate::refusal::Refusal;
use std::alloc::Global;
use std::fmt;

/// A unit of values: a kind, and whether a percentage and a throughput are shown with its values.
#[derive(Debug, Clone, Copy, PartialEq, Eq)]
pub struct Unit {
    pub(super) kind: Kind,
    mode: Option<Mode>,
}

/// Returns a unit that shows plain numbers and a name, without a percentage or a throughput.
pub fn label(name: &'static str) -> Unit
    ensures { result ≡ record { kind = Kind.Label name.entry; mode = None } }
{
    dynamic(Kind::Label(name))
}

/// Returns a unit that shows plain numbers and a name, and what `mode` says.
pub fn label_and_mode(name: &'static str, mode: Mode) -> Unit
    ensures { result ≡ record { kind = Kind.Label name.entry; mode = Some mode } }
{
    dynamic_and_mode(Kind::Label(name), mode)
}

/// Returns a unit of a kind, without a percentage or a throughput.
pub fn dynamic(kind: Kind) -> Unit
    ensures { result ≡ record { kind = kind; mode = None } }
{
    Unit { kind, mode: None }
}

/// Returns a unit of a kind that also shows what `mode` says.
pub fn dynamic_and_mode(kind: Kind, mode: Mode) -> Unit
    ensures { result ≡ record { kind = kind; mode = Some mode } }
{
    Unit {
        kind,
        mode: Some(mode),
    }
}

impl From<&'static str> for Unit {
    ghost use Rattle.prodash_base.specs.declared.unit.kind.Kind.TheVariants.{Label};

    ghost from_gives = { λ name unit. unit ≡ record { kind = Label name; mode = None } };

    fn from(name: &'static str) -> Unit {
        label(name)
    }
}

impl Unit {
    /// Returns a display of a value in this unit, with its bound and its throughput if known. The
    /// throughput is shown only if the unit's mode says so. Only `Display` uses `alloc`.
    pub fn display(
        &self,
        alloc: Global,
        value: Step,
        bound: Option<Step>,
        throughput: Option<Throughput>,
    ) -> UnitDisplay
        ensures { result ≡ display_of self.now alloc (amount value bound throughput) }
    {
        UnitDisplay {
            unit: *self,
            amount: amount(value, bound, throughput),
            part: Part::All,
            alloc,
        }
    }

    /// Returns the kind of this unit.
    pub fn as_display_value(&self) -> &Kind
        ensures { result.now ≡ self.now.kind }
    {
        &self.kind
    }

    /// Returns the mode that says whether a percentage and a throughput are shown, if there is one.
    pub fn mode(&self) -> Option<Mode>
        ensures { result ≡ self.now.mode }
    {
        self.mode
    }
}

/// A value in a unit, as it is displayed.
#[derive(Drop)]
pub struct UnitDisplay {
    unit: Unit,
    amount: Amount,
    part: Part,
    alloc: Global,
}

impl UnitDisplay {
    ghost use Rattle.std.specs.Borrow.{sem};
    ghost use Rattle.prodash_base.specs.Parts.{EndsShowing};

    /// Displays the values and the unit from now on.
    pub fn all(&mut self) -> &Self
        ensures* kept { sem 𝓛 (EndsShowing self.entry Part.All) }
        ensures shown { result.now ≡ record self.old { part = Part.All } }
    {
        self.part = Part::All;
        self
    }

    /// Displays the values alone from now on.
    pub fn values(&mut self) -> &Self
        ensures* kept { sem 𝓛 (EndsShowing self.entry Part.Values) }
        ensures shown { result.now ≡ record self.old { part = Part.Values } }
    {
        self.part = Part::Values;
        self
    }

    /// Displays the unit alone from now on.
    pub fn unit(&mut self) -> &Self
        ensures* kept { sem 𝓛 (EndsShowing self.entry Part.UnitAlone) }
        ensures shown { result.now ≡ record self.old { part = Part.UnitAlone } }
    {
        self.part = Part::UnitAlone;
        self
    }

    /// Appends what is displayed, which is also what `Display` writes.
    ///
    /// # Errors
    ///
    /// `Refusal::Memory` if out of memory. Then `out` is unchanged.
    #[inline(always)]
    pub fn append_to(&self, out: &mut String) -> Result<(), Refusal>
        ensures ok { OnOk result (Appends out.old (display_text self.now) out.new) }
        ensures err { OnErr result (string_bytes out.new ≡ string_bytes out.old) }
        ensures reason { IsOkUnless result Refusal.Memory }
    {
        let Unit { kind, mode } = &self.unit;
        append_part(out, kind, self.part, *mode, self.amount)
    }
}

impl fmt::Display for UnitDisplay {
    ghost output = { λ d. Some (display_text d) };

    /// Writes what [`append_to`](UnitDisplay::append_to) appends. Width and precision are ignored.
    fn fmt<W: fmt::Write>(&self, f: &mut fmt::Formatter<W>) -> fmt::Result {
        let mut text = String::new(self.alloc);
        if self.append_to(&mut text).is_err() {
            return Err(fmt::Error);
        }
        f.write_str(text.as_str())
    }
}
