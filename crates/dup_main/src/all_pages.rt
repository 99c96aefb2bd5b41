// The pages of a content, each shown from scratch.
ghost use Rattle.std.specs.Prelude.{◌≡◌, ◌≢◌, ◌⊎◌, IfErr, IfOk, IsErrOf, OnOk, Err};
ghost use Rattle.std.specs.Io.KnownBytes.{Appends};
ghost use Rattle.dup_io.specs.Causes.{Rose};
ghost use Rattle.dup_main.specs.Breaks.{BreaksPages};
ghost use Rattle.dup_main.specs.Faults.{FaultHasCause};
ghost use Rattle.dup_model.specs.Jobs.{IsJob, JobsFit};
ghost use Rattle.dup_transcript.specs.RenderedPages.{rendered_page, rendered_pages};

use crate::stop::Stop;
use dup_io::{Sink, put_all};
use dup_names::{NoMemory, Obj, Path};
use dup_pages::pages;
use dup_records::Content;
use dup_render::show_plain;
use std::alloc::Global;

/// What is written of a page: a line of its path and its length, and then its bytes.
fn rendered_page(alloc: Global, content: &Content, page: &(Path, Obj)) -> Result<Vec<u8>, NoMemory>
    requires { IsJob content.now.frame page.now.1 }
    ensures { IfOk result (λ text. text.items ≡ rendered_page content.now page.now) }
{
    let bytes = show_plain(alloc, content, &page.1)?;
    let length = bytes.len();
    let counted = format!(in alloc; " {length}\n")?;
    let mut text = Vec::new(alloc);
    text.extend_from_slice(b"page ")?;
    text.extend_from_slice(page.0.bytes())?;
    text.extend_from_slice(counted.as_bytes())?;
    text.extend_from_slice(&bytes)?;
    text.push(b'\n')?;
    Ok(text)
}

/// Writes each page in the order of the paths. Each is shown from scratch, and only one is in memory at a
/// time.
pub(crate) fn put_pages<K: Sink>(alloc: Global, content: &Content, out: &mut K) -> Result<(), Stop>
    requires { JobsFit content.now }
    ensures written { OnOk result (Appends (K.written out.old) (K.written out.new)
        (rendered_pages content.now)) }
    ensures stopped { IfErr result (λ stop. (stop ≡ Stop.NoMemory) ⊎ (stop ≡ Stop.WriteFault)) }
    ensures breaks { IfErr result (λ stop.
        BreaksPages stop content.now (K.written out.old) (K.written out.new)) }
    ensures writes { FaultHasCause result Stop.WriteFault (K.faults out.old) (K.faults out.new) }
{
    let made = pages(alloc, content)?;
    for page in &made {
        let text = rendered_page(alloc, content, page)?;
        put_all(out, &text)?;
    }
    Ok(())
}
