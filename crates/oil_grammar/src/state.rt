//! The states of reading, between two tokens.

ghost use Rattle.oil_grammar.specs.declared.fault.Stop.TheVariants.{Fault};
ghost use Rattle.oil_grammar.specs.declared.fault.OilKind.TheVariants.{Expected};
ghost use Rattle.std.specs.Prelude.{◌≡◌, ◌<◌, ◌^◌, ◌+◌, Ok, Err, true, false, Some, is_some};
ghost use Rattle.std.specs.Str.{bytes_eq};
ghost use Rattle.oil_grammar.specs.Working.Reading.{GivesState, Makes, RoomFor};
ghost use Rattle.oil_grammar.specs.Working.States.{tree_at, is_skipping, after_part, after_skipped, after_block, word_value, after_value, plainly, with_attribute, within};
ghost use Rattle.oil_grammar.specs.declared.state.State.TheVariants as state;
ghost use Rattle.oil_grammar.specs.declared.state.Part.TheVariants as part;

use crate::fault::{OilKind, Stop};
use crate::token::Token;
use crate::tree::{Attribute, Attributes, Name, Object, Objects, Tree, Value};
use std::alloc::Global;

/// Blocks nest at most so deep, the block of an object being the first.
const DEPTH_LIMIT: u8 = 16;

/// What surrounds an attribute: the tree and the object so far, and the level of the block, 1 for the
/// object's.
#[derive(Debug, Drop)]
pub(crate) struct Around {
    tree: Tree,
    object: Object,
    level: u8,
}

/// A part of the text that its `;` ends, perhaps after a description.
#[derive(Debug, Drop)]
pub(crate) enum Part {
    Version { version: Name },
    Implementation { version: Name },
    Attribute { around: Around },
    Object { tree: Tree, object: Object },
    Cpu { tree: Tree },
}

/// What has been read, up to a place between two tokens. The tree has all objects before the place,
/// and the object all attributes before it.
#[derive(Debug, Drop)]
pub(crate) enum State {
    /// Before `OIL_VERSION`.
    Start,
    /// Before the `=` of the version.
    VersionEquals,
    /// Before the text of the version.
    VersionText,
    /// Before the `:` or the `;` of a part.
    Ending {
        part: Part,
    },
    /// After the `:` of a description.
    Describing {
        part: Part,
    },
    /// After a description.
    Described {
        part: Part,
    },
    /// Before `IMPLEMENTATION` or `CPU`.
    Head {
        version: Name,
    },
    /// After `IMPLEMENTATION`.
    ImplementationName {
        version: Name,
    },
    /// Before the `{` of the skipped part.
    ImplementationBlock {
        version: Name,
    },
    /// Within the skipped part, and so many braces within it.
    Skipping {
        version: Name,
        depth: usize,
    },
    /// Before `CPU`, after an IMPLEMENTATION part.
    CpuWord {
        version: Name,
    },
    /// After `CPU`.
    CpuName {
        version: Name,
    },
    /// Before the `{` of the processor.
    CpuBlock {
        tree: Tree,
    },
    /// Before an object or the processor's `}`.
    Objects {
        tree: Tree,
    },
    /// After an object's kind.
    ObjectName {
        tree: Tree,
        kind: Name,
    },
    /// After an object's name.
    ObjectBlock {
        tree: Tree,
        object: Object,
    },
    /// Within an object, before an attribute or a `}`.
    Attributes {
        around: Around,
    },
    /// After an attribute's name.
    AttributeEquals {
        around: Around,
        name: Name,
    },
    /// Before an attribute's value.
    AttributeValue {
        around: Around,
        name: Name,
    },
    /// After a value that may have a block.
    AttributeBlock {
        around: Around,
        name: Name,
        value: Value,
    },
    /// After the `;` of the processor.
    Finished {
        tree: Tree,
    },
}

fn is_word(name: &Name, word: &[u8]) -> bool
    ensures { result ≡ bytes_eq name.now word.now }
{
    name.as_slice() == word
}

/// A token that can't stand there.
fn unexpected() -> Result<State, Stop>
    ensures { result ≡ Err (Fault Expected) }
{
    Err(Stop::Fault(OilKind::Expected))
}

impl Part {
    /// What follows the `;` of the part.
    fn after(self) -> Result<State, Stop>
        ensures { Makes result (after_part self) }
    {
        match self {
            Part::Version { version } => Ok(State::Head { version }),
            Part::Implementation { version } => Ok(State::CpuWord { version }),
            Part::Attribute { around } => Ok(State::Attributes { around }),
            Part::Object { mut tree, object } => {
                tree.objects.push(object)?;
                Ok(State::Objects { tree })
            }
            Part::Cpu { tree } => Ok(State::Finished { tree }),
        }
    }
}

#[tactic(auto, unfolding(crate::specs::Working::States::next))]
fn after_start(token: Token) -> Result<State, Stop>
    ensures { GivesState result state.Start token }
{
    match token {
        Token::Name(name) => {
            if is_word(&name, b"OIL_VERSION") {
                Ok(State::VersionEquals)
            } else {
                unexpected()
            }
        }
        _ => unexpected(),
    }
}

#[tactic(auto, unfolding(crate::specs::Working::States::next))]
fn after_version_equals(token: Token) -> Result<State, Stop>
    ensures { GivesState result state.VersionEquals token }
{
    match token {
        Token::Equals => Ok(State::VersionText),
        _ => unexpected(),
    }
}

#[tactic(auto, unfolding(crate::specs::Working::States::next))]
fn after_version_text(token: Token) -> Result<State, Stop>
    ensures { GivesState result state.VersionText token }
{
    match token {
        Token::Text(version) => Ok(State::Ending {
            part: Part::Version { version },
        }),
        _ => unexpected(),
    }
}

#[tactic(auto, unfolding(crate::specs::Working::States::next))]
fn after_ending(part: Part, token: Token) -> Result<State, Stop>
    ensures { GivesState result (state.Ending part) token }
{
    match token {
        Token::Colon => Ok(State::Describing { part }),
        Token::Semicolon => part.after(),
        _ => unexpected(),
    }
}

#[tactic(auto, unfolding(crate::specs::Working::States::next))]
fn after_describing(part: Part, token: Token) -> Result<State, Stop>
    ensures { GivesState result (state.Describing part) token }
{
    match token {
        Token::Text(_description) => Ok(State::Described { part }),
        _ => unexpected(),
    }
}

#[tactic(auto, unfolding(crate::specs::Working::States::next))]
fn after_described(part: Part, token: Token) -> Result<State, Stop>
    ensures { GivesState result (state.Described part) token }
{
    match token {
        Token::Semicolon => part.after(),
        _ => unexpected(),
    }
}

#[tactic(auto, unfolding(crate::specs::Working::States::next))]
fn after_head(version: Name, token: Token) -> Result<State, Stop>
    ensures { GivesState result (state.Head version) token }
{
    match token {
        Token::Name(name) => {
            if is_word(&name, b"IMPLEMENTATION") {
                Ok(State::ImplementationName { version })
            } else if is_word(&name, b"CPU") {
                Ok(State::CpuName { version })
            } else {
                unexpected()
            }
        }
        _ => unexpected(),
    }
}

#[tactic(auto, unfolding(crate::specs::Working::States::next))]
fn after_implementation_name(version: Name, token: Token) -> Result<State, Stop>
    ensures { GivesState result (state.ImplementationName version) token }
{
    match token {
        Token::Name(_name) => Ok(State::ImplementationBlock { version }),
        _ => unexpected(),
    }
}

#[tactic(auto, unfolding(crate::specs::Working::States::next))]
fn after_implementation_block(version: Name, token: Token) -> Result<State, Stop>
    ensures { GivesState result (state.ImplementationBlock version) token }
{
    match token {
        Token::Open => Ok(State::Skipping { version, depth: 0 }),
        _ => unexpected(),
    }
}

#[tactic(auto, unfolding(crate::specs::Working::States::next))]
fn after_skipping(version: Name, depth: usize, token: Token) -> Result<State, Stop>
    requires { depth + 1 < 2 ^ 64 }
    ensures { GivesState result (state.Skipping version depth) token }
{
    match token {
        Token::SkippedOpen => Ok(State::Skipping {
            version,
            depth: depth + 1,
        }),
        Token::SkippedClose => Ok(after_skipped(version, depth)),
        _ => unexpected(),
    }
}

/// The state behind a `}` of the skipped part.
fn after_skipped(version: Name, depth: usize) -> State
    ensures { result ≡ after_skipped version depth }
{
    if depth == 0 {
        State::Ending {
            part: Part::Implementation { version },
        }
    } else {
        State::Skipping {
            version,
            depth: depth - 1,
        }
    }
}

#[tactic(auto, unfolding(crate::specs::Working::States::next))]
fn after_cpu_word(version: Name, token: Token) -> Result<State, Stop>
    ensures { GivesState result (state.CpuWord version) token }
{
    match token {
        Token::Name(name) => {
            if is_word(&name, b"CPU") {
                Ok(State::CpuName { version })
            } else {
                unexpected()
            }
        }
        _ => unexpected(),
    }
}

#[tactic(auto, unfolding(crate::specs::Working::States::next))]
fn after_cpu_name(alloc: Global, version: Name, token: Token) -> Result<State, Stop>
    ensures { GivesState result (state.CpuName version) token }
{
    match token {
        Token::Name(cpu) => Ok(State::CpuBlock {
            tree: Tree {
                version,
                cpu,
                objects: Objects::new(alloc),
            },
        }),
        _ => unexpected(),
    }
}

#[tactic(auto, unfolding(crate::specs::Working::States::next))]
fn after_cpu_block(tree: Tree, token: Token) -> Result<State, Stop>
    ensures { GivesState result (state.CpuBlock tree) token }
{
    match token {
        Token::Open => Ok(State::Objects { tree }),
        _ => unexpected(),
    }
}

#[tactic(auto, unfolding(crate::specs::Working::States::next))]
fn after_objects(tree: Tree, token: Token) -> Result<State, Stop>
    ensures { GivesState result (state.Objects tree) token }
{
    match token {
        Token::Close => Ok(State::Ending {
            part: Part::Cpu { tree },
        }),
        Token::Name(kind) => Ok(State::ObjectName { tree, kind }),
        _ => unexpected(),
    }
}

#[tactic(auto, unfolding(crate::specs::Working::States::next))]
fn after_object_name(alloc: Global, tree: Tree, kind: Name, token: Token) -> Result<State, Stop>
    ensures { GivesState result (state.ObjectName tree kind) token }
{
    match token {
        Token::Name(name) => Ok(State::ObjectBlock {
            tree,
            object: Object {
                kind,
                name,
                attributes: Attributes::new(alloc),
            },
        }),
        _ => unexpected(),
    }
}

#[tactic(auto, unfolding(crate::specs::Working::States::next))]
fn after_object_block(tree: Tree, object: Object, token: Token) -> Result<State, Stop>
    ensures { GivesState result (state.ObjectBlock tree object) token }
{
    match token {
        Token::Open => Ok(State::Attributes {
            around: Around {
                tree,
                object,
                level: 1,
            },
        }),
        Token::Colon => Ok(State::Describing {
            part: Part::Object { tree, object },
        }),
        Token::Semicolon => Part::Object { tree, object }.after(),
        _ => unexpected(),
    }
}

/// The state behind the `}` of the block.
fn after_block(around: Around) -> State
    ensures { result ≡ after_block around }
{
    let Around {
        tree,
        object,
        level,
    } = around;
    if level <= 1 {
        State::Ending {
            part: Part::Object { tree, object },
        }
    } else {
        let around = Around {
            tree,
            object,
            level: level - 1,
        };
        State::Ending {
            part: Part::Attribute { around },
        }
    }
}

#[tactic(auto, unfolding(crate::specs::Working::States::next))]
fn after_attributes(around: Around, token: Token) -> Result<State, Stop>
    ensures { GivesState result (state.Attributes around) token }
{
    match token {
        Token::Close => Ok(after_block(around)),
        Token::Name(name) => Ok(State::AttributeEquals { around, name }),
        _ => unexpected(),
    }
}

#[tactic(auto, unfolding(crate::specs::Working::States::next))]
fn after_attribute_equals(around: Around, name: Name, token: Token) -> Result<State, Stop>
    ensures { GivesState result (state.AttributeEquals around name) token }
{
    match token {
        Token::Equals => Ok(State::AttributeValue { around, name }),
        _ => unexpected(),
    }
}

/// The same with one more attribute of the object.
fn with_attribute(around: Around, name: Name, value: Value, braces: bool) -> Result<Around, Stop>
    ensures { Makes result (with_attribute around name value braces) }
{
    let Around {
        tree,
        mut object,
        level,
    } = around;
    object.attributes.push(Attribute {
        level,
        name,
        value,
        braces,
    })?;
    Ok(Around {
        tree,
        object,
        level,
    })
}

/// The value that a name stands for in the place of a value.
fn word_value(name: Name) -> Value
    ensures { result ≡ word_value name }
{
    if is_word(&name, b"TRUE") {
        Value::Bool(true)
    } else if is_word(&name, b"FALSE") {
        Value::Bool(false)
    } else if is_word(&name, b"AUTO") {
        Value::Auto
    } else {
        Value::Name(name)
    }
}

/// The part that an attribute without a block makes.
fn plain_part(around: Around, name: Name, value: Value) -> Result<Part, Stop>
    ensures { Makes result (part.Attribute (with_attribute around name value false)) }
{
    let around = with_attribute(around, name, value, false)?;
    Ok(Part::Attribute { around })
}

/// The state behind a value that no block may follow.
fn plainly(around: Around, name: Name, value: Value) -> Result<State, Stop>
    ensures { Makes result (plainly around name value) }
{
    let part = plain_part(around, name, value)?;
    Ok(State::Ending { part })
}

/// The state behind a value.
fn after_value(around: Around, name: Name, value: Value) -> Result<State, Stop>
    ensures { Makes result (after_value around name value) }
{
    match value {
        Value::Name(word) => Ok(State::AttributeBlock {
            around,
            name,
            value: Value::Name(word),
        }),
        Value::Bool(b) => Ok(State::AttributeBlock {
            around,
            name,
            value: Value::Bool(b),
        }),
        Value::Number { negative, size } => {
            plainly(around, name, Value::Number { negative, size })
        }
        Value::Text(text) => plainly(around, name, Value::Text(text)),
        Value::Auto => plainly(around, name, Value::Auto),
    }
}

#[tactic(auto, unfolding(crate::specs::Working::States::next))]
fn after_attribute_value(around: Around, name: Name, token: Token) -> Result<State, Stop>
    ensures { GivesState result (state.AttributeValue around name) token }
{
    match token {
        Token::Name(word) => after_value(around, name, word_value(word)),
        Token::Number { negative, size } => {
            plainly(around, name, Value::Number { negative, size })
        }
        Token::Text(text) => plainly(around, name, Value::Text(text)),
        _ => unexpected(),
    }
}

/// The state within the block of an attribute.
fn opened(around: Around, name: Name, value: Value) -> Result<State, Stop>
    requires { around.level < 16 }
    ensures { Makes result (state.Attributes (within (with_attribute around name value true))) }
{
    let inner = with_attribute(around, name, value, true)?;
    Ok(State::Attributes {
        around: Around {
            tree: inner.tree,
            object: inner.object,
            level: inner.level + 1,
        },
    })
}

#[tactic(auto, unfolding(crate::specs::Working::States::next))]
fn after_attribute_block(
    around: Around,
    name: Name,
    value: Value,
    token: Token,
) -> Result<State, Stop>
    ensures { GivesState result (state.AttributeBlock around name value) token }
{
    match token {
        Token::Open => {
            if around.level < DEPTH_LIMIT {
                opened(around, name, value)
            } else {
                Err(Stop::Fault(OilKind::Depth))
            }
        }
        Token::Colon => {
            let part = plain_part(around, name, value)?;
            Ok(State::Describing { part })
        }
        Token::Semicolon => plain_part(around, name, value)?.after(),
        _ => unexpected(),
    }
}

impl State {
    /// Whether what follows is the skipped part of IMPLEMENTATION.
    pub(crate) fn is_skipping(&self) -> bool
        ensures { result ≡ is_skipping self.now }
    {
        match self {
            State::Skipping { .. } => true,
            _ => false,
        }
    }

    /// Whether a whole file has been read.
    pub(crate) fn is_finished(&self) -> bool
        ensures { result ≡ is_some (tree_at self.now) }
    {
        match self {
            State::Finished { .. } => true,
            _ => false,
        }
    }

    /// The tree of the whole file that has been read.
    pub(crate) fn into_tree(self) -> Tree
        requires { is_some (tree_at self) ≡ true }
        ensures { tree_at self ≡ Some result }
    {
        match self {
            State::Finished { tree } => tree,
            _ => unreachable!(),
        }
    }

    /// The state after one more token, or what is wrong with the token.
    #[tactic(auto, unfolding(crate::specs::Working::States::next))]
    pub(crate) fn next(self, alloc: Global, token: Token) -> Result<State, Stop>
        requires { RoomFor self }
        ensures { GivesState result self token }
    {
        match self {
            State::Start => after_start(token),
            State::VersionEquals => after_version_equals(token),
            State::VersionText => after_version_text(token),
            State::Ending { part } => after_ending(part, token),
            State::Describing { part } => after_describing(part, token),
            State::Described { part } => after_described(part, token),
            State::Head { version } => after_head(version, token),
            State::ImplementationName { version } => after_implementation_name(version, token),
            State::ImplementationBlock { version } => after_implementation_block(version, token),
            State::Skipping { version, depth } => after_skipping(version, depth, token),
            State::CpuWord { version } => after_cpu_word(version, token),
            State::CpuName { version } => after_cpu_name(alloc, version, token),
            State::CpuBlock { tree } => after_cpu_block(tree, token),
            State::Objects { tree } => after_objects(tree, token),
            State::ObjectName { tree, kind } => after_object_name(alloc, tree, kind, token),
            State::ObjectBlock { tree, object } => after_object_block(tree, object, token),
            State::Attributes { around } => after_attributes(around, token),
            State::AttributeEquals { around, name } => after_attribute_equals(around, name, token),
            State::AttributeValue { around, name } => after_attribute_value(around, name, token),
            State::AttributeBlock {
                around,
                name,
                value,
            } => after_attribute_block(around, name, value, token),
            State::Finished { tree: _tree } => unexpected(),
        }
    }
}
