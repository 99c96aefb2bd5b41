ghost use Rattle.std.specs.Prelude.{◌≡◌, ◌≢◌, OnOk, IfErr, IsErrOf, Err};
ghost use Rattle.std.specs.Io.KnownBytes.{IsAtEnd};
ghost use Rattle.dup_io.specs.Causes.{Rose};
ghost use Rattle.dup_transcript.specs.declared.task.Task.TheVariants.{Play};
ghost use Rattle.dup_main.specs.Breaks.{Breaks};
ghost use Rattle.dup_main.specs.Faults.{FaultHasCause};
ghost use Rattle.dup_main.specs.Stops.{StopsAt};
ghost use Rattle.dup_main.specs.Transcript.{WritesTranscript};

use crate::script::play_script;
use crate::site_part::{good_site, read_site_text};
use crate::stop::Stop;
use dup_io::{Lines, Sink, Source, put_all};
use std::alloc::Global;
use std::marker::Sync;
use std::thread::Threads;

/// Reads a site, says that it is good, and plays the script behind it.
pub(crate) fn play<R: Threads + Sync, S: Source, K: Sink>(
    rt: &R,
    alloc: Global,
    input: &mut S,
    out: &mut K,
) -> Result<(), Stop>
    ensures written { OnOk result (WritesTranscript Play (S.left input.old) (K.written out.old)
        (K.written out.new) 0) }
    ensures at_end { OnOk result (IsAtEnd (S.left input.new)) }
    ensures stopped { IfErr result (λ stop. StopsAt Play stop (S.left input.old) (K.written out.old)
        (K.written out.new)) }
    ensures breaks { IfErr result (λ stop. Breaks Play stop (S.left input.old) (S.left input.new)
        (K.written out.old) (K.written out.new)) }
    ensures reads { FaultHasCause result Stop.ReadFault (S.faults input.old) (S.faults input.new) }
    ensures writes { FaultHasCause result Stop.WriteFault (K.faults out.old) (K.faults out.new) }
{
    let mut lines = Lines::new(input);
    let read = read_site_text(alloc, &mut lines)?;
    let site = good_site(alloc, &read.text)?;
    put_all(out, b"site ok\n")?;
    if !read.has_script {
        return Ok(());
    }
    play_script(rt, alloc, site, &mut lines, out)
}
