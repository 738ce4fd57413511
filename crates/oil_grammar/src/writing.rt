//! Writing the one layout of a tree.

ghost use Rattle.std.specs.Prelude.{◌≡◌, ◌++◌, OnOk, IfOk, decimal};
ghost use Rattle.oil_grammar.specs.Layout.{margin, quoted_layout, sign_layout, bool_layout, value_layout, line_end, attribute_line, closing_line, closing_lines, level_within, attribute_lines, object_lines, objects_lines, version_line, cpu_line, layout_of};
ghost use Rattle.oil_grammar.specs.Grammar.{IsTextOf, IsWellFormed};

use crate::tree::{Attribute, Bytes, Object, Tree, Value};
use listed::Memory;
use std::alloc::Global;

/// Appends the bytes.
fn put(out: &mut Vec<u8>, bytes: &[u8]) -> Result<(), Memory>
    ensures { OnOk result (out.new.items ≡ out.old.items ++ bytes.now) }
{
    out.extend_from_slice(bytes)?;
    Ok(())
}

/// Appends the spaces before what stands so many levels deep.
fn put_margin(out: &mut Vec<u8>, level: u16) -> Result<(), Memory>
    ensures { OnOk result (out.new.items ≡ out.old.items ++ margin level) }
{
    for space in 0..2 * usize::from(level) {
        out.push(b' ')?;
    }
    Ok(())
}

/// Appends a text between two quotes.
fn put_quoted(out: &mut Vec<u8>, text: &[u8]) -> Result<(), Memory>
    ensures { OnOk result (out.new.items ≡ out.old.items ++ quoted_layout text.now) }
{
    put(out, b"\"")?;
    put(out, text)?;
    put(out, b"\"")
}

/// Appends the sign of a number that has one.
fn put_sign(out: &mut Vec<u8>, negative: bool) -> Result<(), Memory>
    ensures { OnOk result (out.new.items ≡ out.old.items ++ sign_layout negative) }
{
    if negative { put(out, b"-") } else { Ok(()) }
}

/// Appends decimal digits.
fn put_decimal(alloc: Global, out: &mut Vec<u8>, size: u64) -> Result<(), Memory>
    ensures { OnOk result (out.new.items ≡ out.old.items ++ decimal size) }
{
    let digits = format!(in alloc; "{size}")?;
    put(out, digits.as_bytes())
}

/// Appends `TRUE` or `FALSE`.
fn put_bool(out: &mut Vec<u8>, b: bool) -> Result<(), Memory>
    ensures { OnOk result (out.new.items ≡ out.old.items ++ bool_layout b) }
{
    if b {
        put(out, b"TRUE")
    } else {
        put(out, b"FALSE")
    }
}

/// Appends a number.
fn put_number(alloc: Global, out: &mut Vec<u8>, negative: bool, size: u64) -> Result<(), Memory>
    ensures { OnOk result
        (out.new.items ≡ out.old.items ++ (sign_layout negative ++ decimal size)) }
{
    put_sign(out, negative)?;
    put_decimal(alloc, out, size)
}

/// Appends a value.
fn put_value(alloc: Global, out: &mut Vec<u8>, value: &Value) -> Result<(), Memory>
    ensures { OnOk result (out.new.items ≡ out.old.items ++ value_layout value.now) }
{
    match value {
        Value::Name(name) => put(out, name.as_slice()),
        Value::Number { negative, size } => put_number(alloc, out, *negative, *size),
        Value::Text(text) => put_quoted(out, text.as_slice()),
        Value::Bool(b) => put_bool(out, *b),
        Value::Auto => put(out, b"AUTO"),
    }
}

/// Appends the end of a line: ` {` or `;`, and a newline.
fn put_line_end(out: &mut Vec<u8>, opens: bool) -> Result<(), Memory>
    ensures { OnOk result (out.new.items ≡ out.old.items ++ line_end opens) }
{
    if opens {
        put(out, b" {\n")
    } else {
        put(out, b";\n")
    }
}

/// Appends the line of an attribute.
fn put_attribute(alloc: Global, out: &mut Vec<u8>, attribute: &Attribute) -> Result<(), Memory>
    ensures { OnOk result (out.new.items ≡ out.old.items ++ attribute_line attribute.now) }
{
    put_margin(out, u16::from(attribute.level) + 1)?;
    put(out, attribute.name.as_slice())?;
    put(out, b" = ")?;
    put_value(alloc, out, &attribute.value)?;
    put_line_end(out, attribute.braces)
}

/// Appends the line that ends a block so many levels deep.
fn put_closing(out: &mut Vec<u8>, level: u16) -> Result<(), Memory>
    ensures { OnOk result (out.new.items ≡ out.old.items ++ closing_line level) }
{
    put_margin(out, level)?;
    put(out, b"};\n")
}

/// Appends the ends of so many blocks, the innermost of which is so many levels deep.
fn put_closings(out: &mut Vec<u8>, count: u16, level: u16) -> Result<(), Memory>
    ensures { OnOk result (out.new.items ≡ out.old.items ++ closing_lines count level) }
{
    for ended in 0..count {
        put_closing(out, level.saturating_sub(ended))?;
    }
    Ok(())
}

/// The level of what follows the attribute's line.
fn level_within(attribute: &Attribute) -> u16
    ensures { result ≡ level_within attribute.now }
{
    let level = u16::from(attribute.level);
    if attribute.braces { level + 1 } else { level }
}

/// Appends the attributes of an object and the ends of all blocks that they stand in.
fn put_attributes(alloc: Global, out: &mut Vec<u8>, attributes: &[Attribute]) -> Result<(), Memory>
    ensures { OnOk result (out.new.items ≡ out.old.items ++ attribute_lines 1 attributes.now) }
{
    let mut level: u16 = 1;
    for attribute in attributes {
        put_closings(out, level.saturating_sub(u16::from(attribute.level)), level)?;
        put_attribute(alloc, out, attribute)?;
        level = level_within(attribute);
    }
    put_closings(out, level, level)
}

/// Appends the lines of an object.
fn put_object(alloc: Global, out: &mut Vec<u8>, object: &Object) -> Result<(), Memory>
    ensures { OnOk result (out.new.items ≡ out.old.items ++ object_lines object.now) }
{
    put_margin(out, 1)?;
    put(out, object.kind.as_slice())?;
    put(out, b" ")?;
    put(out, object.name.as_slice())?;
    put_line_end(out, true)?;
    put_attributes(alloc, out, object.attributes.as_slice())
}

/// Appends the lines of objects.
fn put_objects(alloc: Global, out: &mut Vec<u8>, objects: &[Object]) -> Result<(), Memory>
    ensures { OnOk result (out.new.items ≡ out.old.items ++ objects_lines objects.now) }
{
    for object in objects {
        put_object(alloc, out, object)?;
    }
    Ok(())
}

/// Appends the line of the version.
fn put_version_line(out: &mut Vec<u8>, tree: &Tree) -> Result<(), Memory>
    ensures { OnOk result (out.new.items ≡ out.old.items ++ version_line tree.now) }
{
    put(out, b"OIL_VERSION = ")?;
    put_quoted(out, tree.version.as_slice())?;
    put_line_end(out, false)
}

/// Appends the first line of the processor.
fn put_cpu_line(out: &mut Vec<u8>, tree: &Tree) -> Result<(), Memory>
    ensures { OnOk result (out.new.items ≡ out.old.items ++ cpu_line tree.now) }
{
    put(out, b"CPU ")?;
    put(out, tree.cpu.as_slice())?;
    put_line_end(out, true)
}

/// The layout of the tree, as a vector.
fn layout_of(alloc: Global, tree: &Tree) -> Result<Vec<u8>, Memory>
    ensures { IfOk result (λ out. out.items ≡ layout_of tree.now) }
{
    let mut out = Vec::new(alloc);
    put_version_line(&mut out, tree)?;
    put_cpu_line(&mut out, tree)?;
    put_objects(alloc, &mut out, tree.objects.as_slice())?;
    put_closing(&mut out, 0)?;
    Ok(out)
}

/// The layout of the tree: an attribute on each line, two spaces for each level, braces round every
/// object, and decimal numbers. Where some text has the tree, this text has it too, so that
/// `read_oil` gives the tree again.
pub fn write_oil(alloc: Global, tree: &Tree) -> Result<Bytes, Memory>
    ensures text { IfOk result (λ written. written ≡ layout_of tree.now) }
    ensures again { IsWellFormed tree.now → IfOk result (λ written. IsTextOf tree.now written) }
{
    let out = layout_of(alloc, tree)?;
    Ok(Bytes::from_vec(out))
}
