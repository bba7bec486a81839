//! Texts that contracts can compare.
ghost use Rattle.std.specs.Prelude.{◌≡◌, nat_eq, IfOk, IsOk, OnOk, string_bytes};
ghost use Rattle.std.specs.Cmp.Lexicographic.{pointwise, nat_list_eq_equiv};
ghost use Rattle.std.specs.Cmp.{partial_equiv_from_equiv};
ghost use Rattle.prodash_base.specs.Texts.{IsShort};
ghost use Rattle.prodash_base.specs.plumbing.TextForms.{form_bytes};

mod short;

use short::{Form, LONGEST_SHORT, ShortText};
use std::alloc::{AllocError, Global};
use std::fmt;
use std::marker::Model;

/// An owned text. Contracts see its bytes.
///
/// A text of at most 30 bytes lies in the value, and a longer one on the heap. A text that takes
/// the place of a longer one stays in its memory.
///
/// ```rust
/// let name = Text::from_str(alloc, "task")?;
/// assert_eq!(rt; name.as_str(), "task");
/// ```
#[derive(Drop)]
pub struct Text {
    form: Form,
}

const _: () = prove!(size_of::<Text>() == 32);

impl Model for Text {
    ghost use Rattle.std.specs.Prelude.{List, ℕ};

    ghost Value = { List ℕ };

    ghost use Rattle.prodash_base.specs.plumbing.TextForms.{form_bytes};

    ghost view = { λ t. form_bytes t.form };
}

impl Form {
    /// Returns a text that is short.
    fn short(alloc: Global, text: &str) -> Form
        requires { IsShort text.now }
        ensures { form_bytes result ≡ text.now }
    {
        Form::Short(alloc, ShortText::new(text))
    }

    /// Returns a copy of `text`, or an `AllocError` if out of memory.
    fn from_str(alloc: Global, text: &str) -> Result<Form, AllocError>
        ensures bytes { IfOk result (λ form. form_bytes form ≡ text.now) }
        ensures short { IsShort text.now → IsOk result }
    {
        if text.len() <= LONGEST_SHORT {
            return Ok(Form::short(alloc, text));
        }
        Ok(Form::Long(String::from_str(alloc, text)?))
    }

    /// Replaces the text with a copy of `text`. A long one keeps its memory if that is enough.
    /// Returns an `AllocError` if out of memory.
    fn replace(&mut self, text: &str) -> Result<(), AllocError>
        ensures { OnOk result (form_bytes self.new ≡ text.now) }
    {
        match self {
            Form::Short(alloc, _) => {
                *self = Form::from_str(*alloc, text)?;
                Ok(())
            }
            Form::Long(long) => {
                long.clear();
                long.push_str(text)
            }
        }
    }
}

impl Text {
    /// Returns the text of a string. A long one isn't copied.
    pub fn new(text: String) -> Text
        ensures { result ≡ string_bytes text }
    {
        let form = if text.len() <= LONGEST_SHORT {
            Form::short(*text.allocator(), text.as_str())
        } else {
            Form::Long(text)
        };
        Text { form }
    }

    /// Returns a copy of `text`, or an `AllocError` if out of memory. A text of at most 30 bytes
    /// takes no memory.
    pub fn from_str(alloc: Global, text: &str) -> Result<Text, AllocError>
        ensures bytes { IfOk result (λ t. t ≡ text.now) }
        ensures short { IsShort text.now → IsOk result }
    {
        Ok(Text {
            form: Form::from_str(alloc, text)?,
        })
    }

    /// Replaces the text with a copy of `text`, in the memory that it has if that is enough. Returns
    /// an `AllocError` if out of memory.
    #[inline(always)]
    pub fn replace(&mut self, text: &str) -> Result<(), AllocError>
        ensures { OnOk result (self.new ≡ text.now) }
    {
        if let Form::Short(_, short) = &mut self.form {
            if text.len() <= LONGEST_SHORT {
                short.replace(text);
                return Ok(());
            }
        }
        self.form.replace(text)
    }

    /// Replaces the text with a copy of another, in the memory that it has if that is enough.
    /// Returns an `AllocError` if out of memory.
    #[inline]
    pub fn replace_with(&mut self, other: &Text) -> Result<(), AllocError>
        ensures { OnOk result (self.new ≡ other.now) }
    {
        if let Form::Short(_, short) = &mut self.form {
            if let Form::Short(_, other) = &other.form {
                *short = other.copy();
                return Ok(());
            }
        }
        self.form.replace(other.as_str())
    }

    /// Returns the text as a string slice.
    #[inline]
    pub fn as_str(&self) -> &str
        ensures { result.now ≡ self.now }
    {
        match &self.form {
            Form::Short(_, short) => short.as_str(),
            Form::Long(long) => long.as_str(),
        }
    }

    /// Returns the text as a string, or an `AllocError` if out of memory. A long one isn't copied.
    pub fn into_string(self) -> Result<String, AllocError>
        ensures { IfOk result (λ string. string_bytes string ≡ self) }
    {
        match self.form {
            Form::Short(alloc, short) => String::from_str(alloc, short.as_str()),
            Form::Long(long) => Ok(long),
        }
    }
}

impl Clone for Text {
    ghost is_clone = { λ a b. b ≡ a };

    ghost is_infallible = { IsShort };

    fn clone(&self) -> Result<Text, AllocError> {
        let form = match &self.form {
            Form::Short(alloc, short) => Form::Short(*alloc, short.copy()),
            Form::Long(long) => Form::from_str(*long.allocator(), long.as_str())?,
        };
        Ok(Text { form })
    }
}

impl PartialEq for Text {
    ghost eq = { pointwise nat_eq };

    ghost laws = { partial_equiv_from_equiv nat_list_eq_equiv };

    #[inline]
    fn eq(&self, other: &Text) -> bool {
        match (&self.form, &other.form) {
            (Form::Short(_, short), Form::Short(_, other)) => short.equals(other),
            _ => self.as_str() == other.as_str(),
        }
    }
}

impl Eq for Text {
    ghost laws = { nat_list_eq_equiv };
}

impl fmt::Debug for Text {
    /// Writes the text in quotes, as `"task"`.
    fn fmt<W: fmt::Write>(&self, f: &mut fmt::Formatter<W>) -> fmt::Result {
        write!(f, "{:?}", self.as_str())
    }
}
