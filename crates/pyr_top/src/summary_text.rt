// The figures of a verified graph as text.
ghost use Rattle.std.specs.Prelude.{◌≡◌, IfOk};
ghost use Rattle.pyr_top.specs.SummaryText.{summary_text};

use crate::figures::put_figure;
use pyr_verify::Summary;
use std::alloc::{AllocError, Global};

/// Each figure on a line, behind its name.
pub fn summary_text(alloc: Global, summary: &Summary) -> Result<Vec<u8>, AllocError>
    ensures { IfOk result (λ text. text.items ≡ summary_text summary.now) }
{
    let mut text = Vec::new(alloc);
    put_figure(&mut text, b"tasks", u64::from(summary.tasks))?;
    put_figure(&mut text, b"\nprocessors", u64::from(summary.processors))?;
    put_figure(&mut text, b"\nmessages", summary.messages)?;
    put_figure(&mut text, b"\nsteps", summary.steps)?;
    put_figure(&mut text, b"\ntime", summary.time)?;
    put_figure(&mut text, b"\nsum", summary.sum)?;
    text.extend_from_slice(b"\n")?;
    Ok(text)
}
