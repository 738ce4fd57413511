//! What an OIL text says, without its comments, descriptions and IMPLEMENTATION part.

use listed::{Listed, ListedNumbers};

/// The bytes of a text.
pub type Bytes = ListedNumbers<u8>;

/// The bytes of a name, or those between the quotes of a text.
pub type Name = ListedNumbers<u8>;

/// The attributes of an object in the order of the text, those of inner blocks too.
pub type Attributes = Listed<Attribute>;

/// The objects of a processor in the order of the text.
pub type Objects = Listed<Object>;

/// The value of an attribute.
#[derive(Debug, Drop)]
pub enum Value {
    /// A name other than `TRUE`, `FALSE` and `AUTO`.
    Name(Name),
    /// A number, as its sign and its size. `-0` keeps its sign.
    Number { negative: bool, size: u64 },
    /// The bytes between two quotes.
    Text(Name),
    /// `TRUE` or `FALSE`.
    Bool(bool),
    /// `AUTO`.
    Auto,
}

/// An attribute. Its block is the attributes directly after it that have a greater level.
#[derive(Debug, Drop)]
pub struct Attribute {
    /// 1 for an object's own attributes, and one more for each further block around the attribute.
    pub level: u8,
    pub name: Name,
    pub value: Value,
    /// Whether a block follows the value, even an empty one.
    pub braces: bool,
}

/// An object: its kind, as `TASK`, its name and all attributes within its braces.
#[derive(Debug, Drop)]
pub struct Object {
    pub kind: Name,
    pub name: Name,
    pub attributes: Attributes,
}

/// The tree of an OIL text: the version's text, the processor's name and its objects.
#[derive(Debug, Drop)]
pub struct Tree {
    pub version: Name,
    pub cpu: Name,
    pub objects: Objects,
}
