//! The names of locales.
ghost use Rattle.std.specs.Prelude.{◌≡◌, ◌<◌, ◌==◌};
ghost use Rattle.std.specs.List.{before_first, after_first};
ghost use Rattle.prodash_line.specs.Environments as environments;

/// Returns whether a locale is one of UTF-8: its codeset is `UTF-8` or `utf8`, in letters of any
/// case. A codeset stands behind a `.`, and a modifier behind an `@` may follow it. A name that is a
/// codeset alone, such as `UTF-8`, counts too.
pub(crate) fn is_utf8_locale(locale: &str) -> bool
    ensures { result ≡ environments.is_utf8_locale locale.now }
{
    let (name, _) = cut(locale, '@');
    let (_, codeset) = cut(name, '.');
    is_utf8(codeset) || is_utf8(name)
}

/// Returns whether a codeset is UTF-8.
fn is_utf8(codeset: &str) -> bool
    ensures { result ≡ environments.is_utf8 codeset.now }
{
    codeset.eq_ignore_ascii_case("utf-8") || codeset.eq_ignore_ascii_case("utf8")
}

/// Returns the texts before and after the first of this ASCII character: all of a text without it,
/// and nothing.
fn cut(text: &str, at: char) -> (&str, &str)
    requires { at < 128 }
    ensures before { result.0.now ≡ before_first (λ c. c == at) text.now }
    ensures after { result.1.now ≡ after_first (λ c. c == at) text.now }
{
    match text.split_once(at) {
        Some((before, after)) => (before, after),
        None => (text, ""),
    }
}
