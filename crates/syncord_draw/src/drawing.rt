//! From bytes to the picture of the report that they are, or to the first bad line.
ghost use Rattle.std.specs.Prelude.{◌≡◌, ◌≤◌, length, IfOk, IfErr};
ghost use Rattle.syncord_endings.specs.Endings.{Due, most_bytes};
ghost use Rattle.line_picture.specs.Reports.{report_said};
ghost use Rattle.syncord_draw.specs.Pictures.{Shows, Draws, Refuses};

use crate::commands::Command;
use line_page::page_of;
use line_picture::{Report, ReportError, read_report, svg_picture, text_picture};
use std::alloc::{AllocError, Global};
use syncord_endings::Refusal;

fn picture_of(
    alloc: Global,
    command: Command,
    bytes: &[u8],
    report: &Report<'_>,
) -> Result<Vec<u8>, AllocError>
    ensures { IfOk result (λ picture.
        Shows command bytes.now (report_said report.now) picture.items) }
{
    match command {
        Command::Svg { all } => svg_picture(alloc, report, all),
        Command::Text { all } => text_picture(alloc, report, all),
        Command::Page => page_of(alloc, bytes),
    }
}

/// The picture of a report, or why the bytes are none.
pub fn drawn(alloc: Global, command: Command, bytes: &[u8]) -> Result<Vec<u8>, Refusal>
    requires { length bytes.now ≤ most_bytes }
    ensures report { IfOk result (λ picture. Draws command bytes.now picture.items) }
    ensures refusal { IfErr result (Due (Refuses bytes.now)) }
{
    let report = match read_report(alloc, bytes) {
        Ok(report) => report,
        Err(ReportError::Format { line, what }) => return Err(Refusal::Line { line, what }),
        Err(ReportError::NoMemory) => return Err(Refusal::NoMemory),
    };
    match picture_of(alloc, command, bytes, &report) {
        Ok(picture) => Ok(picture),
        Err(AllocError) => Err(Refusal::NoMemory),
    }
}
