ghost use Rattle.std.specs.Prelude.{◌≡◌, ◌≢◌, ◌+◌, OnOk, IfErr, IfOk, IsErrOf, Err, None};
ghost use Rattle.std.specs.Io.KnownBytes.{IsAtEnd};
ghost use Rattle.dup_io.specs.Causes.{Rose};
ghost use Rattle.dup_io.specs.Lines.{to_read, source_of, reference_of, number_of, fault_of};
ghost use Rattle.dup_main.specs.Faults.{FaultHasCause};
ghost use Rattle.dup_script.specs.Commands.{command_of};
ghost use Rattle.dup_hall.specs.Kept.{IsSound, limits_of, site_of, standing};
ghost use Rattle.dup_main.specs.Breaks.{BreaksScript, Nothing, PlayBegins};
ghost use Rattle.dup_model.specs.Journal.{usual_limits};
ghost use Rattle.dup_main.specs.Stops.{StopsInScript, WritesScript};
ghost use Rattle.dup_transcript.specs.Turns.{Writes, first_standing};

use crate::stop::Stop;
use dup_hall::Hall;
use dup_io::{Lines, Sink, Source, put_all};
use dup_names::NoMemory;
use dup_records::Limits;
use dup_script::read_command;
use dup_template::Site;
use std::alloc::Global;
use std::marker::Sync;
use std::sync::Arc;
use std::thread::Threads;

// Does each line of the script, and writes its answer before it reads the next.
fn play_lines<'s, R: Threads + Sync, S: Source, K: Sink>(
    rt: &R,
    alloc: Global,
    hall: &mut Hall,
    lines: &mut Lines<'s, S>,
    out: &mut K,
) -> Result<(), Stop>
    requires no_fault { fault_of lines.old ≡ None }
    requires sound { IsSound hall.old }
    requires usual { limits_of hall.old ≡ usual_limits }
    requires first { standing hall.old ≡ first_standing }
    ensures same_reference { reference_of lines.new ≡ reference_of lines.old }
    ensures written { OnOk result (WritesScript
        (Writes command_of (site_of hall.old) first_standing (number_of lines.old))
        (to_read S.left lines.old) (K.written out.old) (K.written out.new)) }
    ensures at_end { OnOk result (IsAtEnd (S.left (source_of lines.new))) }
    ensures stopped { IfErr result (λ stop. StopsInScript stop
        (Writes command_of (site_of hall.old) first_standing (number_of lines.old))
        (to_read S.left lines.old) (K.written out.old) (K.written out.new)) }
    ensures breaks { IfErr result (λ stop. BreaksScript stop
        (PlayBegins (site_of hall.old) (number_of lines.old)) Nothing Nothing (to_read S.left lines.old)
        (S.left (source_of lines.new)) (K.written out.old) (K.written out.new)) }
    ensures reads { FaultHasCause result Stop.ReadFault (S.faults (source_of lines.old)) (S.faults (source_of lines.new)) }
    ensures writes { FaultHasCause result Stop.WriteFault (K.faults out.old) (K.faults out.new) }
{
    'lines: loop {
        let Some(line) = lines.next(alloc)? else {
            return Ok(());
        };
        let command = read_command(alloc, &line.bytes)?;
        let mut text = Vec::new(alloc);
        hall.act(rt, alloc, line.number, command, &mut text)?;
        put_all(out, &text)?;
    }
}

// The hall of a site, within the usual limits.
fn hall_of(alloc: Global, site: Site) -> Result<Hall, NoMemory>
    ensures site { IfOk result (λ made. site_of made ≡ site) }
    ensures usual { IfOk result (λ made. limits_of made ≡ usual_limits) }
    ensures sound { IfOk result IsSound }
    ensures first { IfOk result (λ made. standing made ≡ first_standing) }
{
    let site = Arc::new(alloc, site)?;
    let hall = Hall::new(alloc, site, Limits::default())?;
    Ok(hall)
}

/// Plays the script over a new hall of the site.
pub(crate) fn play_script<'s, R: Threads + Sync, S: Source, K: Sink>(
    rt: &R,
    alloc: Global,
    site: Site,
    lines: &mut Lines<'s, S>,
    out: &mut K,
) -> Result<(), Stop>
    requires no_fault { fault_of lines.old ≡ None }
    ensures same_reference { reference_of lines.new ≡ reference_of lines.old }
    ensures written { OnOk result (WritesScript
        (Writes command_of site first_standing (number_of lines.old)) (to_read S.left lines.old)
        (K.written out.old) (K.written out.new)) }
    ensures at_end { OnOk result (IsAtEnd (S.left (source_of lines.new))) }
    ensures stopped { IfErr result (λ stop. StopsInScript stop
        (Writes command_of site first_standing (number_of lines.old)) (to_read S.left lines.old)
        (K.written out.old) (K.written out.new)) }
    ensures breaks { IfErr result (λ stop. BreaksScript stop (PlayBegins site (number_of lines.old)) Nothing
        Nothing (to_read S.left lines.old) (S.left (source_of lines.new)) (K.written out.old)
        (K.written out.new)) }
    ensures reads { FaultHasCause result Stop.ReadFault (S.faults (source_of lines.old)) (S.faults (source_of lines.new)) }
    ensures writes { FaultHasCause result Stop.WriteFault (K.faults out.old) (K.faults out.new) }
{
    let mut hall = hall_of(alloc, site)?;
    play_lines(rt, alloc, &mut hall, lines, out)
}
