//! Rows as text: the LP format of CPLEX, which glpsol, esolver, Clp and HiGHS read, and JSON.
use crate::listing::{Entry, Listing, NamedColumn, NamedRow};
use crate::names::{ColumnName, write_column, write_row};
use row_squeeze::Links;
use std::io;
use std::io::Write;

/// How many terms stand on a line of an LP file.
const TERMS: usize = 6;

/// Writes the rows as an LP file; its objective is the cost in cycles.
pub fn write_lp(out: &mut impl Write, listing: &Listing) -> io::Result<()> {
    writeln!(
        out,
        "\\ z: starts of the activation; y: moves after it; x: edges of nodes; p: blocks that are begun; s: nodes at the start"
    )?;
    writeln!(out, "Maximize\n cycles:")?;
    write_costs(out, listing.columns.as_slice())?;
    writeln!(out, "Subject To")?;
    for row in listing.rows.iter() {
        write_constraint(out, row, listing.columns.as_slice())?;
    }
    writeln!(out, "End")
}

fn write_costs(out: &mut impl Write, columns: &[NamedColumn]) -> io::Result<()> {
    for (place, column) in columns.iter().enumerate() {
        write_term(out, column.cost, column.name)?;
        end_line(out, place)?;
    }
    writeln!(out, "")
}

fn write_constraint(
    out: &mut impl Write,
    row: &NamedRow,
    columns: &[NamedColumn],
) -> io::Result<()> {
    write!(out, " ")?;
    write_row(out, row.name)?;
    write!(out, ":")?;
    // An LP file has no row without a term.
    if row.entries.is_empty() {
        if let Some(first) = columns.first() {
            write_term(out, 0, first.name)?;
        }
    }
    for (place, entry) in row.entries.iter().enumerate() {
        write_entry(out, entry, columns)?;
        end_line(out, place)?;
    }
    writeln!(out, " <= {}", row.right)
}

fn write_entry(out: &mut impl Write, entry: &Entry, columns: &[NamedColumn]) -> io::Result<()> {
    match columns.get(entry.column) {
        Some(column) => write_term(out, entry.value, column.name),
        None => Ok(()),
    }
}

fn write_term(out: &mut impl Write, value: i128, name: ColumnName) -> io::Result<()> {
    let sign = if value < 0 { "-" } else { "+" };
    write!(out, " {sign} {} ", value.unsigned_abs())?;
    write_column(out, name)
}

/// Ends the line behind every so many terms.
fn end_line(out: &mut impl Write, place: usize) -> io::Result<()> {
    if place % TERMS == TERMS - 1 {
        writeln!(out, "")?;
    }
    Ok(())
}

/// Writes the rows as JSON: costs by column, for each row its entries that aren't 0 and its right side,
/// and, where there are some, for each row the columns that its link joins, or null.
pub fn write_json(
    out: &mut impl Write,
    listing: &Listing,
    links: Option<&Links>,
) -> io::Result<()> {
    write!(out, "{{\"costs\":[")?;
    for (place, column) in listing.columns.iter().enumerate() {
        write!(out, "{}{}", comma(place), column.cost)?;
    }
    write!(out, "],\"rows\":[")?;
    for (place, row) in listing.rows.iter().enumerate() {
        write!(out, "{}{{\"terms\":[", comma(place))?;
        write_terms(out, row.entries.as_slice())?;
        write!(out, "],\"right\":{}}}", row.right)?;
    }
    write!(out, "]")?;
    if let Some(links) = links {
        write_links(out, links)?;
    }
    writeln!(out, "}}")
}

fn write_terms(out: &mut impl Write, entries: &[Entry]) -> io::Result<()> {
    for (place, entry) in entries.iter().enumerate() {
        write!(out, "{}[{},{}]", comma(place), entry.column, entry.value)?;
    }
    Ok(())
}

fn write_links(out: &mut impl Write, links: &Links) -> io::Result<()> {
    write!(out, ",\"links\":[")?;
    for (place, link) in links.as_slice().iter().enumerate() {
        match link {
            Some(link) => write!(out, "{}[{},{}]", comma(place), link.outgoing, link.incoming)?,
            None => write!(out, "{}null", comma(place))?,
        }
    }
    write!(out, "]")
}

/// What stands before the member at a place.
fn comma(place: usize) -> &'static str {
    if place == 0 { "" } else { "," }
}
