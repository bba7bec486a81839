/// A word that comes after the first one of a script's line.
#[derive(Clone, Copy, Debug, PartialEq, Eq)]
pub enum Argument {
    /// The word by which a script names an item, after its `@`.
    Word,
    /// An item: a number, or a word after `@`.
    Item,
    /// A number of 1 to 20 digits that fits in 64 bits.
    Number,
    /// The step at which an item is done: a number, or `-` for none.
    Max,
    /// The word of a unit, or `-` for none. It may be left out.
    Unit,
    /// The name of an item, which may be empty.
    Name,
    /// A text, which may be empty.
    Text,
    /// The text of a message, which may be empty, with the moment before it or without.
    Message,
    /// A number of columns, from 1 to 65535.
    Columns,
    /// A number of rows, from 1 to 65535.
    Rows,
}

/// The first mistake in a line of a script.
#[derive(Clone, Copy, Debug, PartialEq, Eq)]
pub enum Mistake<'a> {
    /// No line begins with this word.
    UnknownCommand(&'a str),
    /// A line that begins with this word draws a frame, which no line of a script does.
    DrawsFrame(&'a str),
    /// The line ends before this argument.
    Missing(Argument),
    /// This word is not the argument that it should be.
    Invalid(Argument, &'a str),
    /// No item is named by this word, which begins with `@`.
    UnknownItem(&'a str),
    /// This comes after the last argument.
    Extra(&'a str),
}
