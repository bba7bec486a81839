//! Progress that may be discarded.
ghost use Rattle.std.specs.Prelude.{◌≡◌, None};
ghost use Rattle.prodash.specs.Wrappers.{held};

use super::discard::Discard;
use super::either::Either;
use std::mem;

/// Progress, or progress that discards all calls, made from an `Option`. A child is discarded if
/// and only if its parent is.
///
/// ```rust
/// let mut progress = DoOrDiscard::from(Some(item));
/// progress.set(3);
/// let item = progress.take();
/// // `progress` discards from now on
/// ```
pub type DoOrDiscard<T> = Either<T, Discard>;

impl<T> From<Option<T>> for Either<T, Discard> {
    ghost from_gives = { λ progress it. held it ≡ progress };

    fn from(progress: Option<T>) -> Either<T, Discard> {
        match progress {
            Some(progress) => Either::Left(progress),
            None => Either::Right(Discard),
        }
    }
}

impl<T> Either<T, Discard> {
    /// Returns the progress, or `None` if it is discarded.
    pub fn into_inner(self) -> Option<T>
        ensures { result ≡ held self }
    {
        match self {
            Either::Left(progress) => Some(progress),
            Either::Right(_) => None,
        }
    }

    /// Takes the progress out, or returns `None` if it is discarded. Later calls are discarded.
    pub fn take(&mut self) -> Option<T>
        ensures taken { result ≡ held self.old }
        ensures after { held self.new ≡ None }
    {
        mem::replace(self, Either::Right(Discard)).into_inner()
    }
}
