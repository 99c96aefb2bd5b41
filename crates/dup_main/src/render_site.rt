ghost use Rattle.std.specs.Prelude.{◌≡◌, ◌≢◌, OnOk, IfErr, IsErrOf, Err};
ghost use Rattle.std.specs.Io.KnownBytes.{IsAtEnd};
ghost use Rattle.dup_io.specs.Causes.{Rose};
ghost use Rattle.dup_transcript.specs.declared.task.Task.TheVariants.{Render};
ghost use Rattle.dup_main.specs.Breaks.{Breaks};
ghost use Rattle.dup_main.specs.Faults.{FaultHasCause};
ghost use Rattle.dup_main.specs.Stops.{StopsAt};
ghost use Rattle.dup_main.specs.Transcript.{WritesTranscript};

use crate::all_pages::put_pages;
use crate::render_lines::{first_content, render_lines};
use crate::site_part::{good_site, read_site_text};
use crate::stop::Stop;
use dup_io::{Lines, Sink, Source};
use std::alloc::Global;

/// Reads a site and the commits behind it, and writes each page of the last content.
pub(crate) fn render_site<S: Source, K: Sink>(
    alloc: Global,
    input: &mut S,
    out: &mut K,
) -> Result<(), Stop>
    ensures written { OnOk result (WritesTranscript Render (S.left input.old) (K.written out.old)
        (K.written out.new) 0) }
    ensures at_end { OnOk result (IsAtEnd (S.left input.new)) }
    ensures stopped { IfErr result (λ stop. StopsAt Render stop (S.left input.old) (K.written out.old)
        (K.written out.new)) }
    ensures breaks { IfErr result (λ stop. Breaks Render stop (S.left input.old) (S.left input.new)
        (K.written out.old) (K.written out.new)) }
    ensures reads { FaultHasCause result Stop.ReadFault (S.faults input.old) (S.faults input.new) }
    ensures writes { FaultHasCause result Stop.WriteFault (K.faults out.old) (K.faults out.new) }
{
    let mut lines = Lines::new(input);
    let read = read_site_text(alloc, &mut lines)?;
    let site = good_site(alloc, &read.text)?;
    if read.has_script {
        return render_lines(alloc, site, &mut lines, out);
    }
    let content = first_content(alloc, site)?;
    put_pages(alloc, &content, out)
}
