// The lines behind a site text, as a render takes them.
ghost use Rattle.std.specs.Prelude.{◌≡◌, ◌≢◌, OnOk, IfOk, IfErr, IsErrOf, Err, None};
ghost use Rattle.std.specs.Io.KnownBytes.{IsAtEnd};
ghost use Rattle.dup_io.specs.Causes.{Rose};
ghost use Rattle.dup_io.specs.Lines.{to_read, source_of, reference_of, number_of, fault_of};
ghost use Rattle.dup_template.specs.Good.{IsGood};
ghost use Rattle.dup_model.specs.Content.{start};
ghost use Rattle.dup_model.specs.GoodSites.{IsGoodContent};
ghost use Rattle.dup_transcript.specs.declared.command.Command.TheVariants as command;
ghost use Rattle.dup_main.specs.Breaks.{BreaksScript, RenderBegins, RenderBreaks};
ghost use Rattle.dup_main.specs.Faults.{FaultHasCause};
ghost use Rattle.dup_main.specs.Taken.{Takes};
ghost use Rattle.dup_script.specs.Commands.{command_of};
ghost use Rattle.dup_main.specs.Stops.{StopsInScript, WritesScript};
ghost use Rattle.dup_transcript.specs.Transcript.{RendersLines};

use crate::all_pages::put_pages;
use crate::answer::{bad_feed_text, refusal_text, text_of};
use crate::stop::Stop;
use dup_io::{Lines, Sink, Source, put_all};
use dup_names::NoMemory;
use dup_records::{Commit, CommitRefusal, Content, JournalSize, Limits, apply};
use dup_script::{Said, read_command};
use dup_template::Site;
use dup_transcript::Command;
use std::alloc::Global;
use std::sync::Arc;

/// The content of a site before any commit.
pub(crate) fn first_content(alloc: Global, site: Site) -> Result<Content, NoMemory>
    ensures { IfOk result (λ made. made ≡ start site) }
{
    let site = Arc::new(alloc, site)?;
    Content::start(alloc, site)
}

/// What a render keeps of the commits that it took: the content that they make, and how much they are.
#[derive(Drop)]
pub(crate) struct Rendering {
    pub(crate) content: Content,
    pub(crate) size: JournalSize,
}

/// Takes a commit where it is accepted. Gives the line of its refusal, or nothing.
fn take_commit(alloc: Global, taken: &mut Rendering, commit: &Commit) -> Result<Vec<u8>, NoMemory>
    ensures good { IsGoodContent taken.old.content → IsGoodContent taken.new.content }
    ensures takes { IfOk result (λ text. Takes taken.old taken.new 0
        (command.Commit commit.now) text.items) }
{
    let limits = Limits::default();
    let Some(size) = taken.size.with(&limits, commit) else {
        let JournalSize { commits, bytes } = taken.size;
        return refusal_text(alloc, CommitRefusal::JournalFull { commits, bytes });
    };
    match apply(alloc, &taken.content, commit, limits.rows) {
        Ok(content) => {
            *taken = Rendering { content, size };
            Ok(Vec::new(alloc))
        }
        Err(CommitRefusal::NoMemory) => Err(NoMemory),
        Err(why) => refusal_text(alloc, why),
    }
}

/// Does a command and gives its answer. What is no commit changes nothing.
fn take(
    alloc: Global,
    taken: &mut Rendering,
    number: u64,
    command: Command<Commit>,
) -> Result<Vec<u8>, NoMemory>
    ensures good { IsGoodContent taken.old.content → IsGoodContent taken.new.content }
    ensures takes { IfOk result (λ text. Takes taken.old taken.new number command text.items) }
{
    match command {
        Command::Blank => Ok(Vec::new(alloc)),
        Command::Commit(commit) => take_commit(alloc, taken, &commit),
        Command::BadFeed(why) => bad_feed_text(alloc, why),
        _ => text_of(alloc, &Said::BadLine(number)),
    }
}

/// Does each line and writes its answer before it reads the next; at the end of input, it writes each page.
pub(crate) fn render_lines<'s, S: Source, K: Sink>(
    alloc: Global,
    site: Site,
    lines: &mut Lines<'s, S>,
    out: &mut K,
) -> Result<(), Stop>
    requires no_fault { fault_of lines.old ≡ None }
    requires good { IsGood site }
    ensures same_reference { reference_of lines.new ≡ reference_of lines.old }
    ensures written { OnOk result (WritesScript (RendersLines command_of site (number_of lines.old))
        (to_read S.left lines.old) (K.written out.old) (K.written out.new)) }
    ensures at_end { OnOk result (IsAtEnd (S.left (source_of lines.new))) }
    ensures stopped { IfErr result (λ stop. StopsInScript stop
        (RendersLines command_of site (number_of lines.old)) (to_read S.left lines.old)
        (K.written out.old) (K.written out.new)) }
    ensures breaks { IfErr result (λ stop. BreaksScript stop (RenderBegins site (number_of lines.old))
        (RenderBreaks site (number_of lines.old)) (RendersLines command_of site (number_of lines.old))
        (to_read S.left lines.old) (S.left (source_of lines.new)) (K.written out.old) (K.written out.new)) }
    ensures reads { FaultHasCause result Stop.ReadFault (S.faults (source_of lines.old)) (S.faults (source_of lines.new)) }
    ensures writes { FaultHasCause result Stop.WriteFault (K.faults out.old) (K.faults out.new) }
{
    let content = first_content(alloc, site)?;
    let size = JournalSize::empty();
    let mut taken = Rendering { content, size };
    'lines: loop {
        let Some(line) = lines.next(alloc)? else {
            return put_pages(alloc, &taken.content, out);
        };
        let command = read_command(alloc, &line.bytes)?;
        let text = take(alloc, &mut taken, line.number, command)?;
        put_all(out, &text)?;
    }
}
