ghost use Rattle.std.specs.Prelude.{◌≡◌, ◌≢◌, OnOk, IfErr, IsErrOf, Err};
ghost use Rattle.dup_io.specs.Causes.{Rose};
ghost use Rattle.dup_transcript.specs.declared.task.Task.TheVariants.{Check};
ghost use Rattle.dup_main.specs.Breaks.{Breaks};
ghost use Rattle.dup_main.specs.Faults.{FaultHasCause};
ghost use Rattle.dup_main.specs.Reach.{ReadsNoFurther};
ghost use Rattle.dup_main.specs.Stops.{StopsAt};
ghost use Rattle.dup_main.specs.Transcript.{WritesTranscript};

use crate::site_part::{good_site, read_site_text};
use crate::stop::Stop;
use dup_io::{Lines, Sink, Source, put_all};
use dup_site::site_text;
use std::alloc::Global;

/// Reads a site text, and writes the canonical text of its site. Of what stands behind `---` it reads a piece
/// of 4,096 bytes at most.
pub(crate) fn check_site<S: Source, K: Sink>(
    alloc: Global,
    input: &mut S,
    out: &mut K,
) -> Result<(), Stop>
    ensures written { OnOk result (WritesTranscript Check (S.left input.old) (K.written out.old)
        (K.written out.new) 0) }
    ensures no_further { OnOk result (ReadsNoFurther (S.left input.old) (S.left input.new)) }
    ensures stopped { IfErr result (λ stop. StopsAt Check stop (S.left input.old) (K.written out.old)
        (K.written out.new)) }
    ensures breaks { IfErr result (λ stop. Breaks Check stop (S.left input.old) (S.left input.new)
        (K.written out.old) (K.written out.new)) }
    ensures reads { FaultHasCause result Stop.ReadFault (S.faults input.old) (S.faults input.new) }
    ensures writes { FaultHasCause result Stop.WriteFault (K.faults out.old) (K.faults out.new) }
{
    let mut lines = Lines::new(input);
    let read = read_site_text(alloc, &mut lines)?;
    let site = good_site(alloc, &read.text)?;
    let text = site_text(alloc, &site)?;
    put_all(out, &text)?;
    Ok(())
}
