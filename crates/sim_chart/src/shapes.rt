//! The parts of a picture in SVG.
ghost use Rattle.std.specs.Prelude.{◌≡◌, ◌++◌, OnOk};
ghost use Rattle.sim_chart.specs.Shapes as shapes;

use sim_report::push_figure;
use std::alloc::AllocError;

/// The beginning of a text that stands there.
#[tactic(auto, unfolding(crate::specs::Shapes::text_at))]
pub fn push_text_at(out: &mut Vec<u8>, x: u64, y: u64) -> Result<(), AllocError>
    ensures { OnOk result (out.new.items ≡ out.old.items ++ shapes.text_at x y) }
{
    push_figure(out, b"<text x=\"", x)?;
    push_figure(out, b"\" y=\"", y)?;
    out.extend_from_slice(b"\">")
}

/// The end of a text.
pub fn push_text_end(out: &mut Vec<u8>) -> Result<(), AllocError>
    ensures { OnOk result (out.new.items ≡ out.old.items ++ shapes.text_end) }
{
    out.extend_from_slice(b"</text>\n")
}

#[tactic(auto, unfolding(crate::specs::Shapes::class_text))]
fn push_class(out: &mut Vec<u8>, kind: &[u8]) -> Result<(), AllocError>
    ensures { OnOk result (out.new.items ≡ out.old.items ++ shapes.class_text kind.now) }
{
    out.extend_from_slice(b"<rect class=\"")?;
    out.extend_from_slice(kind)?;
    out.extend_from_slice(b"\"")
}

#[tactic(auto, unfolding(crate::specs::Shapes::place_text))]
fn push_place(out: &mut Vec<u8>, x: u64, y: u64) -> Result<(), AllocError>
    ensures { OnOk result (out.new.items ≡ out.old.items ++ shapes.place_text x y) }
{
    push_figure(out, b" x=\"", x)?;
    push_figure(out, b"\" y=\"", y)?;
    out.extend_from_slice(b"\"")
}

#[tactic(auto, unfolding(crate::specs::Shapes::height_text))]
fn height() -> &'static [u8]
    ensures { result.now ≡ shapes.height_text }
{
    b"\" height=\"14\"/>\n"
}

#[tactic(auto, unfolding(crate::specs::Shapes::size_text))]
fn push_size(out: &mut Vec<u8>, width: u64) -> Result<(), AllocError>
    ensures { OnOk result (out.new.items ≡ out.old.items ++ shapes.size_text width) }
{
    push_figure(out, b" width=\"", width)?;
    out.extend_from_slice(height())
}

/// A bar of a kind that begins there.
#[tactic(auto, unfolding(crate::specs::Shapes::rect_text))]
pub fn push_rect(
    out: &mut Vec<u8>,
    kind: &[u8],
    x: u64,
    y: u64,
    width: u64,
) -> Result<(), AllocError>
    ensures { OnOk result (out.new.items ≡ out.old.items ++ shapes.rect_text kind.now x y width) }
{
    push_class(out, kind)?;
    push_place(out, x, y)?;
    push_size(out, width)
}
