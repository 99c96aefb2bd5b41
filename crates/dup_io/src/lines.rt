// The lines of a source. A line ends with an LF or with the end of input; a CR before the LF is taken off.
ghost use Rattle.std.specs.Prelude.{◌≡◌, ◌≢◌, ◌≤◌, ◌∷◌, [], ℕ, ◌+◌, length, OnOk, OnErr, IfOk, IfErr, IfSome};
ghost use Rattle.std.specs.Prelude.{IsErrOf, IsNone, Err};
ghost use Rattle.std.specs.Io.KnownBytes.{Consumes, IsAtEnd, Keeps};
ghost use Rattle.dup_io.specs.Causes.{HasCause, Rose};
ghost use Rattle.dup_io.specs.Readings.{GivesLine, IsReading, StopsInLine};
ghost use Rattle.dup_names.specs.Lines.{LongInput, LongLine, Whole, max_input};
ghost use Rattle.std.specs.Str.Lines.{strip_carriage_return};
ghost use Rattle.dup_io.specs.declared.lines.LineFault.TheVariants.{NoMemory, ReadFault};
ghost use Rattle.dup_io.specs.declared.lines.TheConstants.{PIECE_BYTES};

use crate::ends::{Failed, Source};
use dup_names::{MAX_INPUT_BYTES, MAX_LINE_BYTES};
use std::alloc::{AllocFailed, Global};
use thiserror::Error;

/// The most bytes that `Lines` reads of its source at once.
pub const PIECE_BYTES: usize = 4096;

/// A line of a source, without what ended it.
#[derive(Drop)]
pub struct Line {
    /// Its number, counted from 1.
    pub number: u64,
    /// Its bytes, at most 262,144.
    pub bytes: Vec<u8>,
}

/// Why there is no further line.
#[derive(Clone, Copy, Debug, PartialEq, Eq, Error)]
pub enum LineFault {
    /// The source failed.
    #[error("a read failed")]
    ReadFault,
    /// Byte 262,145 of the line with this number was read.
    #[error("line {0} is too long")]
    LineTooLong(u64),
    /// The input's byte 2^30 + 1 was read.
    #[error("the input is too long")]
    InputTooLong,
    /// Want of memory.
    #[error("out of memory")]
    NoMemory,
}

impl From<Failed> for LineFault {
    ghost from_gives = { λ _ e. e ≡ ReadFault };

    fn from(_: Failed) -> Self {
        LineFault::ReadFault
    }
}

impl<T: Drop> From<AllocFailed<T>> for LineFault {
    ghost from_gives = { λ _ e. e ≡ NoMemory };

    fn from(_: AllocFailed<T>) -> Self {
        LineFault::NoMemory
    }
}

// Takes the CR off that stands before an LF.
fn strip_carriage_return(bytes: &mut Vec<u8>)
    ensures { bytes.new.items ≡ strip_carriage_return bytes.old.items }
{
    let count = bytes.len();
    if count > 0 && bytes[count - 1] == 13 {
        bytes.truncate(count - 1);
    }
}

/// The lines of a source. It reads the source in pieces of `PIECE_BYTES` at most, and keeps one line in memory at most.
#[derive(Drop)]
pub struct Lines<'s, S> {
    source: &'s mut S,
    buffer: [u8; PIECE_BYTES],
    start: usize,
    end: usize,
    number: u64,
    taken: u64,
    fault: Option<LineFault>,
    ghost in_range: { (start ≤ end) × (end ≤ PIECE_BYTES) × (number ≤ taken) × (taken ≤ max_input) },
}

impl<'s, S: Source> Lines<'s, S> {
    ghost use Rattle.dup_io.specs.Lines.{ahead, to_read, source_of, reference_of, number_of, taken_of};
    ghost use Rattle.dup_io.specs.Lines.{fault_of};

    /// A reader at the front of what this source has left. It takes no memory.
    pub fn new(source: &'s mut S) -> Lines<'s, S>
        ensures same_reference { reference_of result ≡ source.entry.ghost_name }
        ensures ahead { ahead S.left result ≡ S.left source.old }
        ensures source { source_of result ≡ source.old }
        ensures first { number_of result ≡ 0 }
        ensures taken { taken_of result ≡ 0 }
        ensures fault { fault_of result ≡ None }
    {
        Lines {
            source,
            buffer: [0; PIECE_BYTES],
            start: 0,
            end: 0,
            number: 0,
            taken: 0,
            fault: None,
        }
    }

    /// Reads on where the buffer is used up.
    fn fill(&mut self) -> Result<(), Failed>
        ensures same_reference { self.new.source.ghost_name ≡ self.old.source.ghost_name }
        ensures kept { Keeps (ahead S.left self.old) (ahead S.left self.new) }
        ensures some { OnOk result (self.new.start ≡ self.new.end → IsAtEnd (ahead S.left self.new)) }
        ensures at_end { OnOk result (self.new.start ≡ self.new.end → IsAtEnd (S.left self.new.source.now)) }
        ensures empty { OnErr result (ahead S.left self.new ≡ S.left self.new.source.now) }
        ensures cause { HasCause (S.faults self.old.source.now) (S.faults self.new.source.now) result }
        ensures beside { S.beside self.old.source.now self.new.source.now }
        ensures number { self.new.number ≡ self.old.number }
        ensures taken { self.new.taken ≡ self.old.taken }
        ensures fault { self.new.fault ≡ self.old.fault }
    {
        if self.start < self.end {
            return Ok(());
        }
        let count = self.source.read(&mut self.buffer)?;
        self.start = 0;
        self.end = count;
        Ok(())
    }

    /// The next byte, or `None` at the end of input.
    fn byte(&mut self) -> Result<Option<u8>, Failed>
        ensures same_reference { self.new.source.ghost_name ≡ self.old.source.ghost_name }
        ensures some { IfOk result (λ o.
            IfSome o (λ b. Consumes (ahead S.left self.old) (ahead S.left self.new) (b ∷ []))) }
        ensures none { IfOk result (λ o.
            IsNone o → Keeps (ahead S.left self.old) (ahead S.left self.new)
            × IsAtEnd (ahead S.left self.new)) }
        ensures at_end { IfOk result (λ o. IsNone o → IsAtEnd (S.left self.new.source.now)) }
        ensures kept { OnErr result (Keeps (ahead S.left self.old) (ahead S.left self.new)) }
        ensures empty { OnErr result (ahead S.left self.new ≡ S.left self.new.source.now) }
        ensures cause { HasCause (S.faults self.old.source.now) (S.faults self.new.source.now) result }
        ensures beside { S.beside self.old.source.now self.new.source.now }
        ensures number { self.new.number ≡ self.old.number }
        ensures taken { self.new.taken ≡ self.old.taken }
        ensures fault { self.new.fault ≡ self.old.fault }
    {
        self.fill()?;
        if self.start == self.end {
            return Ok(None);
        }
        let byte = self.buffer[self.start];
        self.start += 1;
        Ok(Some(byte))
    }

    /// Takes the next line off the input, or says that there is none.
    fn read_line(&mut self, alloc: Global) -> Result<Option<Line>, LineFault>
        ensures same_reference { self.new.source.ghost_name ≡ self.old.source.ghost_name }
        ensures line { IfOk result (λ o.
            IfSome o (λ line.
            GivesLine (to_read S.left self.old) (to_read S.left self.new) line.bytes.items)) }
        ensures number { IfOk result (λ o.
            IfSome o (λ line. (line.number ≡ self.old.number + 1) × (self.new.number ≡ line.number))) }
        ensures end { IfOk result (λ o. IsNone o → IsReading (to_read S.left self.old) Whole) }
        ensures at_end { IfOk result (λ o. IsNone o → IsAtEnd (S.left self.new.source.now)) }
        ensures line_too_long { IfErr result
            (λ e. (n : ℕ) → e ≡ LineFault.LineTooLong n
            → (n ≡ self.old.number + 1) × IsReading (to_read S.left self.old) (LongLine n)) }
        ensures input_too_long { IsErrOf result LineFault.InputTooLong
            → IsReading (to_read S.left self.old) LongInput }
        ensures read_fault { IsErrOf result LineFault.ReadFault
            → Rose (S.faults self.old.source.now) (S.faults self.new.source.now) }
        ensures read_within { IsErrOf result LineFault.ReadFault
            → StopsInLine (to_read S.left self.old) (S.left self.new.source.now) }
        ensures faults { S.faults self.old.source.now ≤ S.faults self.new.source.now }
        ensures no_fault { result ≢ Err LineFault.ReadFault
            → S.faults self.new.source.now ≡ S.faults self.old.source.now }
        ensures beside { S.beside self.old.source.now self.new.source.now }
        ensures fault { self.new.fault ≡ self.old.fault }
    {
        let mut bytes = Vec::new(alloc);
        'bytes: loop {
            let Some(byte) = self.byte()? else {
                if bytes.is_empty() {
                    return Ok(None);
                }
                self.number += 1;
                self.taken += bytes.len() as u64;
                let number = self.number;
                return Ok(Some(Line { number, bytes }));
            };
            if byte != 10 && bytes.len() == MAX_LINE_BYTES {
                return Err(LineFault::LineTooLong(self.number + 1));
            }
            if self.taken + bytes.len() as u64 == MAX_INPUT_BYTES {
                return Err(LineFault::InputTooLong);
            }
            if byte == 10 {
                self.number += 1;
                self.taken += bytes.len() as u64 + 1;
                strip_carriage_return(&mut bytes);
                let number = self.number;
                return Ok(Some(Line { number, bytes }));
            }
            bytes.push(byte)?;
        }
    }

    /// The next line, or `None` at the end of input. After a fault it is the same fault again.
    pub fn next(&mut self, alloc: Global) -> Result<Option<Line>, LineFault>
        ensures same_reference { reference_of self.new ≡ reference_of self.old }
        ensures ok { OnOk result ((fault_of self.old ≡ None) × (fault_of self.new ≡ None)) }
        ensures sticks { IfErr result (λ e. fault_of self.new ≡ Some e) }
        ensures again { IfSome (fault_of self.old)
            (λ e. (result ≡ Err e) × (S.faults (source_of self.new) ≡ S.faults (source_of self.old))) }
        ensures line { IfOk result (λ o.
            IfSome o (λ line.
            GivesLine (to_read S.left self.old) (to_read S.left self.new) line.bytes.items)) }
        ensures number { IfOk result (λ o.
            IfSome o (λ line. (line.number ≡ number_of self.old + 1) × (number_of self.new ≡ line.number))) }
        ensures end { IfOk result (λ o. IsNone o → IsReading (to_read S.left self.old) Whole) }
        ensures at_end { IfOk result (λ o. IsNone o → IsAtEnd (S.left (source_of self.new))) }
        ensures line_too_long { fault_of self.old ≡ None
            → IfErr result
            (λ e. (n : ℕ) → e ≡ LineFault.LineTooLong n
            → (n ≡ number_of self.old + 1) × IsReading (to_read S.left self.old) (LongLine n)) }
        ensures input_too_long { fault_of self.old ≡ None → IsErrOf result LineFault.InputTooLong
            → IsReading (to_read S.left self.old) LongInput }
        ensures read_fault { fault_of self.old ≡ None → IsErrOf result LineFault.ReadFault
            → Rose (S.faults (source_of self.old)) (S.faults (source_of self.new)) }
        ensures read_within { fault_of self.old ≡ None → IsErrOf result LineFault.ReadFault
            → StopsInLine (to_read S.left self.old) (S.left (source_of self.new)) }
        ensures faults { S.faults (source_of self.old) ≤ S.faults (source_of self.new) }
        ensures no_fault { result ≢ Err LineFault.ReadFault
            → S.faults (source_of self.new) ≡ S.faults (source_of self.old) }
        ensures beside { S.beside (source_of self.old) (source_of self.new) }
    {
        if let Some(fault) = self.fault {
            return Err(fault);
        }
        match self.read_line(alloc) {
            Ok(line) => Ok(line),
            Err(fault) => {
                self.fault = Some(fault);
                Err(fault)
            }
        }
    }
}
