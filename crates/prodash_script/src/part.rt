//! A line that comes in parts.
ghost use Rattle.std.specs.Prelude.{◌≤◌, vec_len};
ghost use Rattle.prodash_script.specs.declared.next.TheConstants.{LIMIT};

use crate::next::LIMIT;

/// The part of a line that was read so far. Bytes past the limit are dropped.
#[derive(Drop)]
pub(crate) struct Part {
    pub(crate) bytes: Vec<u8>,
    pub(crate) is_too_long: bool,
    ghost short: { vec_len bytes ≤ LIMIT },
}
