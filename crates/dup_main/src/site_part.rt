ghost use Rattle.std.specs.Prelude.{◌≡◌, ◌≢◌, ◌++◌, IfOk, IfErr, Ok, OnOk, IsErrOf, Err, None, Some, if◌then◌else◌};
ghost use Rattle.std.specs.Bool.{OnFalse, OnTrue};
ghost use Rattle.dup_names.specs.Lines.{Whole};
ghost use Rattle.std.specs.Io.KnownBytes.{IsAtEnd};
ghost use Rattle.dup_io.specs.Causes.{Rose};
ghost use Rattle.dup_io.specs.Lines.{to_read, source_of, reference_of, number_of, fault_of};
ghost use Rattle.dup_names.specs.Lines.{line as line_text};
ghost use Rattle.dup_main.specs.Faults.{FaultHasCause};
ghost use Rattle.dup_main.specs.Breaks.{BreaksSite, EndsSite};
ghost use Rattle.dup_main.specs.Stops.{BarsSite, CountsSite, ReadsSite, StopsInSite};
ghost use Rattle.dup_site.specs.Reads.{site_says};
ghost use Rattle.dup_transcript.specs.BadSites.{or_cause};
ghost use Rattle.dup_transcript.specs.Inputs.{is_end};

use crate::stop::Stop;
use dup_io::{Lines, Source};
use dup_names::NoMemory;
use dup_site::read_site;
use dup_template::Site;
use std::alloc::Global;

/// A site text, and whether a script follows it.
#[derive(Drop)]
pub(crate) struct SiteText {
    pub(crate) text: Vec<u8>,
    pub(crate) has_script: bool,
}

/// Whether a line ends the site text.
fn is_end(line: &[u8]) -> bool
    ensures { result ≡ is_end line.now }
{
    line == b"---".as_slice()
}

fn put_line(line: &[u8], text: &mut Vec<u8>) -> Result<(), NoMemory>
    ensures { OnOk result (text.new.items ≡ text.old.items ++ line_text line.now) }
{
    text.extend_from_slice(line)?;
    text.push(b'\n')?;
    Ok(())
}

/// Reads the lines of the site text, up to a line `---` or the end of the input.
pub(crate) fn read_site_text<'s, S: Source>(
    alloc: Global,
    lines: &mut Lines<'s, S>,
) -> Result<SiteText, Stop>
    requires { fault_of lines.old ≡ None }
    ensures same_reference { reference_of lines.new ≡ reference_of lines.old }
    ensures text { IfOk result (λ read. ReadsSite (to_read S.left lines.old)
        (if read.has_script then to_read S.left lines.new else Some Whole) read.text.items) }
    ensures lines { IfOk result (λ read. OnTrue read.has_script
        (CountsSite (to_read S.left lines.old) (number_of lines.old) (number_of lines.new))) }
    ensures ends { IfOk result (λ read. OnTrue read.has_script (EndsSite (to_read S.left lines.old))) }
    ensures at_end { IfOk result (λ read. OnFalse read.has_script (IsAtEnd (S.left (source_of lines.new)))) }
    ensures no_stop { OnOk result (fault_of lines.new ≡ None) }
    ensures stopped { IfErr result (λ stop. StopsInSite stop (to_read S.left lines.old)) }
    ensures breaks { IfErr result (λ stop.
        BreaksSite stop (to_read S.left lines.old) (S.left (source_of lines.new))) }
    ensures reads { FaultHasCause result Stop.ReadFault (S.faults (source_of lines.old)) (S.faults (source_of lines.new)) }
{
    let mut text = Vec::new(alloc);
    'lines: loop {
        let Some(line) = lines.next(alloc)? else {
            return Ok(SiteText {
                text,
                has_script: false,
            });
        };
        if is_end(&line.bytes) {
            return Ok(SiteText {
                text,
                has_script: true,
            });
        }
        put_line(&line.bytes, &mut text)?;
    }
}

/// The good site that a text says.
pub(crate) fn good_site(alloc: Global, text: &[u8]) -> Result<Site, Stop>
    ensures site { IfOk result (λ site. or_cause (site_says text.now) ≡ Ok site) }
    ensures stopped { IfErr result (λ stop. BarsSite stop (or_cause (site_says text.now))) }
{
    Ok(read_site(alloc, text)?)
}
