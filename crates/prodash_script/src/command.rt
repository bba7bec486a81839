use crate::change::Change;
use crate::mistake::Mistake;
use prodash_base::Text;
use prodash_core::tree::Handle;

/// What a line of a script asks for.
#[derive(Debug, Drop)]
pub enum Command<'a> {
    /// Nothing: the line is empty, or begins with `#`.
    Comment,
    /// The terminal has this size from now on.
    Size {
        /// Its columns.
        columns: u16,
        /// Its rows.
        rows: u16,
    },
    /// An item is added.
    Add {
        /// The word by which the script names the item from then on, if it names it.
        word: Option<Text>,
        /// The handle of its parent.
        parent: Handle,
        /// Its name.
        name: Text,
    },
    /// The item of this handle is dropped.
    Drop(Handle),
    /// The root is dropped.
    DropRoot,
    /// A line is printed above the rows, which belongs to no item.
    Print(Text),
    /// The item of this handle changes.
    Change(Handle, Change),
    /// Nothing: the line has a mistake.
    Fault(Mistake<'a>),
}
