ghost use Rattle.std.specs.Prelude.{◌≡◌, ◌≢◌, ◌⊎◌, IfErr, IfOk, IsErrOf, IsSome, IsSomeAnd, None, OnOk, Some, Err, string_bytes, true};
ghost use Rattle.std.specs.Io.KnownBytes.{Appends, IsAtEnd};
ghost use Rattle.dup_io.specs.Causes.{AppendsPrefix, Rose};
ghost use Rattle.dup_main.specs.Breaks.{Breaks, IsGoodInput, WritesBroken, WritesPartOf, WritesReadFault, last_line, read_fault};
ghost use Rattle.dup_main.specs.Faults.{FaultHasCause};
ghost use Rattle.dup_main.specs.Reach.{ReadsNoFurther};
ghost use Rattle.dup_main.specs.Stops.{StopsAt, stop_status, stop_text, writes};
ghost use Rattle.dup_main.specs.Tasks.{task_of};
ghost use Rattle.dup_main.specs.Transcript.{WritesRun, WritesTranscript, usage};
ghost use Rattle.dup_machine.specs.Headline.{Headline};
ghost use Rattle.dup_transcript.specs.BadSites.{bad_site_text};
ghost use Rattle.dup_transcript.specs.Transcript.{too_long_line};

use crate::check::check_site;
use crate::play::play;
use crate::render_site::render_site;
use crate::stop::Stop;
use crate::task::task_of;
use dup_io::{Sink, Source, put_all};
use dup_machine::headline;
use dup_names::NoMemory;
use dup_script::bad_site_text;
use dup_site::SiteTextRefusal;
use dup_transcript::Task;
use std::alloc::{AllocError, Global};
use std::marker::Sync;
use std::thread::Threads;

const USAGE: &[u8] =
    b"usage: dup_top play | check | render | games N | serve PORT NODES CAPACITY MODE WORKERS\n";

fn too_long_line(alloc: Global, number: u64) -> Result<String, AllocError>
    ensures { IfOk result (λ text. string_bytes text ≡ too_long_line number) }
{
    format!(in alloc; "too long: line {number}\n")
}

fn bad_site_line(alloc: Global, why: SiteTextRefusal) -> Result<Vec<u8>, NoMemory>
    ensures { IfOk result (λ text. text.items ≡ bad_site_text why) }
{
    let mut text = Vec::new(alloc);
    bad_site_text(why, &mut text)?;
    Ok(text)
}

/// Writes a last text and gives the status, or 4 where the sink fails.
fn end<K: Sink>(out: &mut K, status: u8, text: &[u8]) -> u8
    requires { status ≢ 4 }
    ensures done { result ≢ 4 → (result ≡ status) × (K.faults out.new ≡ K.faults out.old)
        × Appends (K.written out.old) (K.written out.new) text.now }
    ensures fault { result ≡ 4 → Rose (K.faults out.old) (K.faults out.new) }
    ensures part { result ≡ 4 → AppendsPrefix (K.written out.old) (K.written out.new) text.now }
    ensures either { (result ≡ 4) ⊎ (result ≡ status) }
{
    match put_all(out, text) {
        Ok(()) => status,
        Err(_) => 4,
    }
}

/// Writes the line that is due at a stop, and gives the status.
fn finish<K: Sink>(alloc: Global, out: &mut K, stop: Stop) -> u8
    ensures read { result ≡ 3 → stop ≡ Stop.ReadFault }
    ensures memory { result ≡ 6 → stop ≢ Stop.ReadFault × stop ≢ Stop.WriteFault }
    ensures written { (result ≡ 5) ⊎ (result ≡ 7) → (writes stop ≡ true) × (result ≡ stop_status stop)
        × Appends (K.written out.old) (K.written out.new) (stop_text stop) }
    ensures fault { result ≡ 4 → (stop ≡ Stop.WriteFault) ⊎ Rose (K.faults out.old) (K.faults out.new) }
    ensures write { stop ≡ Stop.WriteFault → (result ≡ 4) × (K.faults out.new ≡ K.faults out.old) }
    ensures no_fault { result ≢ 4 → K.faults out.new ≡ K.faults out.old }
    ensures reading { result ≡ 3 → Appends (K.written out.old) (K.written out.new) read_fault }
    ensures part { result ≡ 4 → stop ≢ Stop.NoMemory
        × AppendsPrefix (K.written out.old) (K.written out.new) (last_line stop) }
    ensures nothing { result ≡ 6 → K.written out.new ≡ K.written out.old }
    ensures others { (result ≡ 3) ⊎ (result ≡ 4) ⊎ (result ≡ 5) ⊎ (result ≡ 6) ⊎ (result ≡ 7) }
{
    match stop {
        Stop::ReadFault => end(out, 3, b"read fault\n"),
        Stop::WriteFault => 4,
        Stop::BadSite(why) => match bad_site_line(alloc, why) {
            Ok(text) => end(out, 5, &text),
            Err(_) => 6,
        },
        Stop::NoMemory => 6,
        Stop::LineTooLong(number) => match too_long_line(alloc, number) {
            Ok(text) => end(out, 7, text.as_bytes()),
            Err(_) => 6,
        },
        Stop::InputTooLong => end(out, 7, b"too long: input\n"),
    }
}

/// Does what a task is.
fn perform<R: Threads + Sync, S: Source, K: Sink>(
    rt: &R,
    alloc: Global,
    task: Task,
    input: &mut S,
    out: &mut K,
) -> Result<(), Stop>
    ensures written { OnOk result (WritesTranscript task (S.left input.old) (K.written out.old)
        (K.written out.new) 0) }
    ensures at_end { OnOk result ((task ≡ Task.Play) ⊎ (task ≡ Task.Render) → IsAtEnd (S.left input.new)) }
    ensures no_further { OnOk result (task ≡ Task.Check →
        ReadsNoFurther (S.left input.old) (S.left input.new)) }
    ensures stopped { IfErr result (λ stop. StopsAt task stop (S.left input.old) (K.written out.old)
        (K.written out.new)) }
    ensures breaks { IfErr result (λ stop. Breaks task stop (S.left input.old) (S.left input.new)
        (K.written out.old) (K.written out.new)) }
    ensures reads { FaultHasCause result Stop.ReadFault (S.faults input.old) (S.faults input.new) }
    ensures writes { FaultHasCause result Stop.WriteFault (K.faults out.old) (K.faults out.new) }
{
    match task {
        Task::Play => play(rt, alloc, input, out),
        Task::Check => check_site(alloc, input, out),
        Task::Render => render_site(alloc, input, out),
    }
}

/// Does what the words say, and gives the status. The words are those after the program's own name.
///
/// - 0: `play` read its input to the end and wrote its transcript; `check` read a good site text, up to `---`
///   or the end and at most 4,096 bytes further, and wrote its canonical text; `render` read its input to the
///   end and wrote each page of the last content.
/// - 2: the words are no command line that is known; nothing was read, and the usage line was written.
/// - 3: the source failed; 4: the sink failed, whatever else was found.
/// - 5: the site text was read whole, and is no good site: the line says why.
/// - 6: want of memory.
/// - 7: a line of over 262,144 bytes was read, or over 2^30 bytes of input.
///
/// A commit, a settle and a request cost what they cost the press; a render ends with each page from scratch.
/// A settle joins in as many threads as there are processors.
pub fn desk_main<R: Threads + Sync, S: Source, K: Sink>(
    rt: &R,
    alloc: Global,
    words: &[String],
    input: &mut S,
    out: &mut K,
) -> u8
    // Wrong words: nothing is read, and the usage line is written.
    ensures bad_words { task_of words.now ≡ None → (result ≡ 2) ⊎ (result ≡ 4) }
    ensures nothing_read { task_of words.now ≡ None → input.new ≡ input.old }
    ensures usage { result ≡ 2 → (task_of words.now ≡ None)
        × Appends (K.written out.old) (K.written out.new) usage }
    // What is written is the task's transcript of the bytes read, and the status is its own.
    ensures whole { result ≡ 0 →
        IsSomeAnd (task_of words.now)
        (λ task. WritesTranscript task (S.left input.old) (K.written out.old) (K.written out.new) 0) }
    ensures at_end { result ≡ 0 → (task_of words.now ≡ Some Task.Play)
        ⊎ (task_of words.now ≡ Some Task.Render) → IsAtEnd (S.left input.new) }
    ensures no_further { result ≡ 0 → task_of words.now ≡ Some Task.Check →
        ReadsNoFurther (S.left input.old) (S.left input.new) }
    ensures bad_site { result ≡ 5 →
        IsSomeAnd (task_of words.now)
        (λ task. WritesTranscript task (S.left input.old) (K.written out.old) (K.written out.new) 5) }
    ensures too_long { result ≡ 7 →
        IsSomeAnd (task_of words.now)
        (λ task. WritesTranscript task (S.left input.old) (K.written out.old) (K.written out.new) 7) }
    // A fault is answered only where it happened, and none is passed over.
    ensures read_fault { result ≡ 3 → IsSome (task_of words.now)
        × Rose (S.faults input.old) (S.faults input.new) }
    ensures write_fault { result ≡ 4 → Rose (K.faults out.old) (K.faults out.new) }
    ensures no_read_fault { result ≢ 3 → result ≢ 4 → S.faults input.new ≡ S.faults input.old }
    ensures no_write_fault { result ≢ 4 → K.faults out.new ≡ K.faults out.old }
    ensures memory { result ≡ 6 → IsSome (task_of words.now) }
    // At a fault of reading what was read in whole lines is answered before the line on the fault. At a fault of
    // writing a part stands of what the same input gives without it. Where memory ran out, the output for some
    // first lines stands, each answer whole.
    ensures read_fault_line { result ≡ 3 →
        IsSomeAnd (task_of words.now)
        (λ task. WritesReadFault task (S.left input.old) (S.left input.new) (K.written out.old)
        (K.written out.new)) }
    ensures part { result ≡ 4 → WritesPartOf (task_of words.now) (S.left input.old) (S.left input.new)
        (K.written out.old) (K.written out.new) }
    ensures broken { result ≡ 6 →
        IsSomeAnd (task_of words.now)
        (λ task. WritesBroken task (S.left input.old) (K.written out.old) (K.written out.new)) }
    // With a good site, and lines and input within the limits, the status is 0, if nothing fails and memory
    // suffices.
    ensures complete { IsSomeAnd (task_of words.now) (λ task. IsGoodInput task (S.left input.old)) →
        (result ≢ 2) × (result ≢ 5) × (result ≢ 7) }
    // The headline: what `play` writes for a script is what the machine replies to some events. Of their run
    // its four clauses hold, and behind each settle nothing is pending. They hold of every list of events,
    // too.
    ensures run { (result ≡ 0) ⊎ (result ≡ 7) → task_of words.now ≡ Some Task.Play →
        WritesRun (S.left input.old) (K.written out.old) (K.written out.new) }
    ensures headline { Headline }
    ensures others { (result ≡ 0) ⊎ (result ≡ 2) ⊎ (result ≡ 3) ⊎ (result ≡ 4) ⊎ (result ≡ 5) ⊎ (result ≡ 6)
        ⊎ (result ≡ 7) }
{
    headline();
    let Some(task) = task_of(words) else {
        return end(out, 2, USAGE);
    };
    match perform(rt, alloc, task, input, out) {
        Ok(()) => 0,
        Err(stop) => finish(alloc, out, stop),
    }
}
