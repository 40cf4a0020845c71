//! A report between the texts that make a page of it.
ghost use Rattle.std.specs.Prelude.{◌≡◌, ◌++◌, OnOk, IfOk};
ghost use Rattle.line_page.specs.Pages.{front_text, script_text, page_text};

use crate::body::body;
use crate::choosing::choosing;
use crate::drawing::drawing;
use crate::head::head;
use crate::reading::reading;
use crate::style::style;
use crate::telling::telling;
use markup_text::push_escaped;
use std::alloc::{AllocError, Global};

/// What stands before the report.
#[tactic(auto, unfolding(crate::specs::Pages::front_text))]
fn push_front(out: &mut Vec<u8>) -> Result<(), AllocError>
    ensures { OnOk result (out.new.items ≡ out.old.items ++ front_text) }
{
    out.extend_from_slice(head())?;
    out.extend_from_slice(style())?;
    out.extend_from_slice(body())
}

#[tactic(auto, unfolding(crate::specs::Pages::script_text))]
fn push_script(out: &mut Vec<u8>) -> Result<(), AllocError>
    ensures { OnOk result (out.new.items ≡ out.old.items ++ script_text) }
{
    out.extend_from_slice(reading())?;
    out.extend_from_slice(telling())?;
    out.extend_from_slice(drawing())?;
    out.extend_from_slice(choosing())
}

/// The page of a report: one file, which a browser opens without a network and which holds the report as it was.
#[tactic(auto, unfolding(crate::specs::Pages::page_text))]
pub fn page_of(alloc: Global, report: &[u8]) -> Result<Vec<u8>, AllocError>
    ensures { IfOk result (λ page. page.items ≡ page_text report.now) }
{
    let mut out = Vec::new(alloc);
    push_front(&mut out)?;
    out.extend_from_slice(b"<pre id=\"report\">\n")?;
    push_escaped(&mut out, report)?;
    out.extend_from_slice(b"</pre>\n<script>\n")?;
    push_script(&mut out)?;
    out.extend_from_slice(b"</script>\n</body>\n</html>\n")?;
    Ok(out)
}
