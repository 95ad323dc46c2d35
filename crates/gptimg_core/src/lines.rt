//! Prints the result of a command, or the name of its fault.

ghost use Rattle.std.specs.Prelude.{◌≡◌, ◌++◌, codes, OnOk};
ghost use Rattle.std.specs.Io.KnownBytes.{Appends};
ghost use Rattle.hex.specs.Hex.{encode_lower};
ghost use Rattle.std.specs.Int.{to_be_bytes, w64};
ghost use Rattle.std.specs.List.{enumerate_from};
ghost use Rattle.gptman.specs.Fault.{fault_of};
ghost use Rattle.gptman.specs.Table.{entries_in};
ghost use Rattle.gptimg_core.specs.Prints.{outcome_lines};
ghost use Rattle.gptimg_core.specs.Names.{fault_line, fault_name};
ghost use Rattle.gptimg_core.specs.Lines.{check_lines, copy_line, entry_line, entry_lines};
ghost use Rattle.gptimg_core.specs.Lines.{form_name as form_name_of, report_lines, shown_byte, shown_text};
ghost use Rattle.gptimg_core.specs.Lines.{slot_lines, table_line, table_lines};
ghost use Rattle.gptman.specs.Copy.{copy_of_whole};
ghost use Rattle.gptman.specs.Answers.{answer_of};

use crate::commands::Report;
use gptman::copy::WholeCopy;
use gptman::{BothCopies, Error, GPT, GPTHeader, GPTPartitionEntry, Result};
use std::io;
use std::io::Write;

/// Prints the result of a command, or the name of its fault.
///
/// # Errors
///
/// Only if `out` failed.
pub fn print_outcome<W: Write>(out: &mut W, outcome: &Result<Report>) -> io::Result<()>
    ensures { OnOk result (Appends (W.contents out.old) (W.contents out.new) (outcome_lines outcome.now)) }
{
    match outcome {
        Ok(report) => print_report(out, report),
        Err(fault) => print_fault(out, fault),
    }
}

// Prints the report of a command.
fn print_report<W: Write>(out: &mut W, report: &Report) -> io::Result<()>
    ensures { OnOk result (Appends (W.contents out.old) (W.contents out.new) (report_lines report.now)) }
{
    match report {
        Report::Done => out.write_all(b"ok\n"),
        Report::Table(table) => print_table(out, table),
        Report::Slots(slots) => print_slots(out, slots.as_slice()),
        Report::Added {
            number,
            first,
            last,
        } => writeln!(out, "{number} {first}..{last}"),
        Report::Copies(copies) => print_copies(out, copies),
    }
}

// Prints a line for each free range: its start and its length.
fn print_slots<W: Write>(out: &mut W, slots: &[(u64, u64)]) -> io::Result<()>
    ensures { OnOk result (Appends (W.contents out.old) (W.contents out.new) (slot_lines slots.now)) }
{
    for slot in slots {
        let (start, length) = *slot;
        writeln!(out, "{start} {length}")?;
    }
    Ok(())
}

// Prints a line for each copy, and whether both are one table.
fn print_copies<W: Write>(out: &mut W, copies: &BothCopies) -> io::Result<()>
    ensures { OnOk result (Appends (W.contents out.old) (W.contents out.new)
        (check_lines (answer_of copy_of_whole copies.now.primary)
        (answer_of copy_of_whole copies.now.backup) copies.now.are_same)) }
{
    print_copy(out, "primary", &copies.primary)?;
    print_copy(out, "backup", &copies.backup)?;
    let same = if copies.are_same {
        "same yes\n"
    } else {
        "same no\n"
    };
    out.write_all(same.as_bytes())
}

// Prints whether the copy at this place is good, or its fault.
fn print_copy<W: Write>(out: &mut W, place: &str, copy: &Result<WholeCopy>) -> io::Result<()>
    ensures { OnOk result (Appends
        (W.contents out.old) (W.contents out.new) (copy_line place.now (answer_of copy_of_whole copy.now))) }
{
    out.write_all(place.as_bytes())?;
    let Err(fault) = copy else {
        return out.write_all(b" ok\n");
    };
    out.write_all(b" fault ")?;
    print_name(out, fault)?;
    out.write_all(b"\n")
}

// Prints the line of the table, and a line for each used entry. GUIDs are 32 hexadecimal digits in lower case.
fn print_table<W: Write>(out: &mut W, table: &GPT) -> io::Result<()>
    ensures { OnOk result (Appends (W.contents out.old) (W.contents out.new) (table_lines table.now)) }
{
    print_header(out, table)?;
    print_entries(out, table)
}

// Prints a line for each used entry, in order.
fn print_entries<W: Write>(out: &mut W, table: &GPT) -> io::Result<()>
    ensures { OnOk result (Appends
        (W.contents out.old) (W.contents out.new) (entry_lines (enumerate_from 1 (entries_in table.now)))) }
{
    for (number, entry) in table.iter() {
        if entry.is_used() {
            print_entry(out, number, entry)?;
        }
    }
    Ok(())
}

// Prints the line of an entry.
fn print_entry<W: Write>(out: &mut W, number: u32, entry: &GPTPartitionEntry) -> io::Result<()>
    ensures { OnOk result (Appends
        (W.contents out.old) (W.contents out.new) (entry_line (number, entry.now))) }
{
    write!(out, "{number} ")?;
    print_guids(out, entry)?;
    let first = entry.starting_lba;
    let last = entry.ending_lba;
    write!(out, " {first}..{last} ")?;
    out.write_all(&number_text(entry.attribute_bits))?;
    out.write_all(b" ")?;
    print_text(out, entry.partition_name.as_str())?;
    out.write_all(b"\n")
}

// Prints the type GUID and the unique GUID of an entry.
fn print_guids<W: Write>(out: &mut W, entry: &GPTPartitionEntry) -> io::Result<()>
    ensures { OnOk result (Appends (W.contents out.old) (W.contents out.new)
        (encode_lower entry.now.partition_type_guid ++
        (codes " " ++ encode_lower entry.now.unique_partition_guid))) }
{
    out.write_all(&guid_text(&entry.partition_type_guid))?;
    out.write_all(b" ")?;
    out.write_all(&guid_text(&entry.unique_partition_guid))
}

// Prints a name.
fn print_text<W: Write>(out: &mut W, text: &str) -> io::Result<()>
    ensures { OnOk result (Appends (W.contents out.old) (W.contents out.new) (shown_text text.now)) }
{
    for byte in text.as_bytes() {
        out.write_all(&[shown(*byte)])?;
    }
    Ok(())
}

// Returns a byte of a name for printing: a question mark for a control character, which is one byte in UTF-8.
fn shown(byte: u8) -> u8
    ensures { result ≡ shown_byte byte }
{
    if byte < 0x20 || byte == 0x7f {
        b'?'
    } else {
        byte
    }
}

// Returns the number as 16 hexadecimal digits, the highest first.
fn number_text(number: u64) -> [u8; 16]
    ensures { result ≡ encode_lower (to_be_bytes w64 number) }
{
    let mut text = [0; 16];
    hex::encode_to_slice(number.to_be_bytes().as_slice(), &mut text).unwrap();
    text
}

// Prints the line of the table.
fn print_header<W: Write>(out: &mut W, table: &GPT) -> io::Result<()>
    ensures { OnOk result (Appends (W.contents out.old) (W.contents out.new) (table_line table.now)) }
{
    let header = &table.header;
    let form = form_name(header);
    let sector_size = table.sector_size;
    write!(out, "sector {sector_size} form {form} disk ")?;
    out.write_all(&guid_text(&header.disk_guid))?;
    let first = header.first_usable_lba;
    let last = header.last_usable_lba;
    let count = header.number_of_partition_entries;
    let align = table.align;
    writeln!(out, " usable {first}..{last} entries {count} align {align}")
}

// Returns the form of the header.
fn form_name(header: &GPTHeader) -> &'static str
    ensures { result.now ≡ form_name_of header.now }
{
    if header.is_primary() {
        "primary"
    } else {
        "backup"
    }
}

// Returns the 16 bytes as hexadecimal digits.
fn guid_text(guid: &[u8; 16]) -> [u8; 32]
    ensures { result ≡ encode_lower guid.now }
{
    let mut text = [0; 32];
    hex::encode_to_slice(guid.as_slice(), &mut text).unwrap();
    text
}

// Prints the line of a failed command.
fn print_fault<W: Write>(out: &mut W, fault: &Error) -> io::Result<()>
    ensures { OnOk result (Appends
        (W.contents out.old) (W.contents out.new) (fault_line (fault_of fault.now))) }
{
    out.write_all(b"fault: ")?;
    print_name(out, fault)?;
    out.write_all(b"\n")
}

// Prints the name of the error without its numbers, and for `ReadError` the faults of both copies.
fn print_name<W: Write>(out: &mut W, fault: &Error) -> io::Result<()>
    ensures { OnOk result (Appends
        (W.contents out.old) (W.contents out.new) (fault_name (fault_of fault.now))) }
{
    let Error::ReadError(primary, backup) = fault else {
        return out.write_all(fault.name().as_bytes());
    };
    out.write_all(b"ReadError(")?;
    print_name(out, primary)?;
    out.write_all(b", ")?;
    print_name(out, backup)?;
    out.write_all(b")")
}
