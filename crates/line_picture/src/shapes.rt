//! The parts of an SVG picture.
use doc_text::push_decimal;
use std::alloc::AllocError;

/// Writes a number between two texts.
fn push_between(out: &mut Vec<u8>, front: &[u8], n: u64, back: &[u8]) -> Result<(), AllocError> {
    out.extend_from_slice(front)?;
    push_decimal(out, n)?;
    out.extend_from_slice(back)
}

/// A text at a place, of a class.
pub fn push_label(
    out: &mut Vec<u8>,
    class: &[u8],
    x: u64,
    y: u64,
    text: &[u8],
) -> Result<(), AllocError> {
    out.extend_from_slice(b"<text class=\"")?;
    out.extend_from_slice(class)?;
    push_between(out, b"\" x=\"", x, b"\"")?;
    push_between(out, b" y=\"", y.saturating_add(13), b"\">")?;
    out.extend_from_slice(text)?;
    out.extend_from_slice(b"</text>")
}

/// A frame of a class, round for a reader.
pub fn push_frame(
    out: &mut Vec<u8>,
    class: &[u8],
    x: u64,
    y: u64,
    round: bool,
) -> Result<(), AllocError> {
    out.extend_from_slice(b"<rect class=\"")?;
    out.extend_from_slice(class)?;
    push_between(out, b"\" x=\"", x, b"\"")?;
    push_between(out, b" y=\"", y, b"\"")?;
    let corner: &[u8] = if round { b"9" } else { b"1" };
    out.extend_from_slice(b" rx=\"")?;
    out.extend_from_slice(corner)?;
    out.extend_from_slice(b"\" width=\"26\" height=\"18\"/>")
}

/// A pass in its box.
pub fn push_box(
    out: &mut Vec<u8>,
    class: &[u8],
    x: u64,
    y: u64,
    round: bool,
    pass: &[u8],
) -> Result<(), AllocError> {
    push_frame(out, class, x, y, round)?;
    push_label(out, b"n", x.saturating_add(13), y, pass)
}

/// The beginning of a picture of this size.
pub fn push_head(out: &mut Vec<u8>, width: u64, height: u64) -> Result<(), AllocError> {
    push_between(
        out,
        b"<svg xmlns=\"http://www.w3.org/2000/svg\" width=\"",
        width,
        b"\"",
    )?;
    push_between(out, b" height=\"", height, b"\">\n")?;
    out.extend_from_slice(
        b"<style>text{font:12px monospace;fill:#222}.n{text-anchor:middle}.c{fill:#777}.h{fill:#fff;stroke:#222;stroke-width:2}",
    )?;
    out.extend_from_slice(
        b".b0{fill:#e4e4e4}.b1{fill:#f6c177}.b2{fill:#9ccfd8}.b3{fill:#b5d67d}.b4{fill:#e8a2c0}.b5{fill:#c4a7e7}.b6{fill:#f1e07a}",
    )?;
    out.extend_from_slice(
        b".walk,.rest{fill:none;stroke:#b00020;stroke-width:2}.rest{stroke-dasharray:3 2}.z{fill:#fff;fill-opacity:.65;stroke:#777}</style>\n",
    )?;
    out.extend_from_slice(b"<rect width=\"100%\" height=\"100%\" fill=\"#fff\"/>\n")
}
