//! The findings of `check`, for people and as JSON.

use crate::copies::CopiesState;
use crate::findings::Finding;
use crate::json::{print_json, put_copies};
use crate::members::Members;
use crate::way::WayOut;
use gptedit_values::Escaped;
use serde_json::Value;
use std::alloc::{AllocError, Global};
use std::io;
use std::io::Write;

/// Reports whether all findings are notes.
pub fn is_nothing_wrong(findings: &[Finding<'_>]) -> bool {
    findings.iter().all(|finding| finding.wrong.is_note())
}

/// Prints a line for each finding, with the first of its commands. If there is none, a line says so. A line for each
/// note follows.
///
/// # Errors
/// Those of `out`, and `OutOfMemory`.
pub fn print_check<W: Write>(out: &mut W, image: &str, findings: &[Finding<'_>]) -> io::Result<()> {
    if is_nothing_wrong(findings) {
        writeln!(out, "{}: nothing is wrong", Escaped(image))?;
    }
    for finding in findings {
        if !finding.wrong.is_note() {
            writeln!(out, "{}: {}", finding.wrong, way_out(finding, image))?;
        }
    }
    for finding in findings {
        if finding.wrong.is_note() {
            writeln!(out, "note: {}", finding.wrong)?;
        }
    }
    Ok(())
}

// Returns the command or advice for a finding.
fn way_out<'a>(finding: &'a Finding<'_>, image: &'a str) -> WayOut<'a> {
    WayOut {
        way: finding.ways.first(),
        otherwise: finding.otherwise,
        image,
    }
}

/// Returns the findings as JSON: `good` if nothing is wrong, the state of both copies (as in `table_json`), `findings`,
/// each with its text (`finding`), the remedy (`mend`) and the command of `gptedit` (`command`) or null, and the texts
/// of the `notes`.
pub fn check_json(
    alloc: Global,
    image: &str,
    state: &CopiesState<'_>,
    findings: &[Finding<'_>],
) -> Result<String, AllocError> {
    let mut values = Vec::new(alloc);
    let mut notes = Vec::new(alloc);
    for finding in findings {
        if finding.wrong.is_note() {
            let text = format!(in alloc; "{}", finding.wrong)?;
            notes.push(Value::try_from_str(alloc, text.as_str())?)?;
        } else {
            values.push(finding_value(alloc, finding, image)?)?;
        }
    }
    let mut members = Members::new(alloc);
    members.put_text("device", image)?;
    members.put("good", Value::Bool(is_nothing_wrong(findings)))?;
    put_copies(&mut members, state)?;
    members.put_list("findings", values)?;
    members.put_list("notes", notes)?;
    print_json(alloc, &members.into_value())
}

fn finding_value(alloc: Global, finding: &Finding<'_>, image: &str) -> Result<Value, AllocError> {
    let wrong = format!(in alloc; "{}", finding.wrong)?;
    let way_out = format!(in alloc; "{}", way_out(finding, image))?;
    let mut members = Members::new(alloc);
    members.put_text("finding", wrong.as_str())?;
    members.put_text("mend", way_out.as_str())?;
    match finding.ways.first() {
        Some(way) => members.put_text("command", way.command())?,
        None => members.put("command", Value::Null)?,
    }
    Ok(members.into_value())
}
