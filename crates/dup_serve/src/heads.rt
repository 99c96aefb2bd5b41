// Reading the head of a request off a line.
ghost use Rattle.std.specs.Prelude.{◌≡◌, ◌≢◌, ◌≤◌, [], length, IfOk, OnOk, IsErrOf, Err};
ghost use Rattle.std.specs.Io.KnownBytes.{Consumes, IsAtEnd};
ghost use Rattle.dup_io.specs.Causes.{Rose};
ghost use Rattle.dup_http.specs.Readings.{Reads, IsInBounds, window};
ghost use Rattle.dup_serve.specs.Heads.{IsNoLonger, TakesMore};
ghost use Rattle.dup_serve.specs.declared.heads.HeadFault.TheVariants.{NoMemory as WantsMemory, ReadFault};

use dup_http::{Reading, read_ask};
use dup_io::{Failed, Source};
use dup_names::NoMemory;
use std::alloc::{AllocError, Global};
use thiserror::Error;

/// Why no head was read.
#[derive(Clone, Copy, Debug, PartialEq, Eq, Error)]
pub enum HeadFault {
    /// The line failed, and has counted it.
    #[error("a read failed")]
    ReadFault,
    /// Want of memory.
    #[error("out of memory")]
    NoMemory,
}

impl From<Failed> for HeadFault {
    ghost from_gives = { λ _ e. e ≡ ReadFault };

    fn from(_: Failed) -> Self {
        HeadFault::ReadFault
    }
}

impl From<NoMemory> for HeadFault {
    ghost from_gives = { λ _ e. e ≡ WantsMemory };

    fn from(_: NoMemory) -> Self {
        HeadFault::NoMemory
    }
}

impl From<AllocError> for HeadFault {
    ghost from_gives = { λ _ e. e ≡ WantsMemory };

    fn from(_: AllocError) -> Self {
        HeadFault::NoMemory
    }
}

/// Takes a piece of the line behind the bytes that were read before, and says whether any came.
fn take_more<S: Source>(line: &mut S, bytes: &mut Vec<u8>) -> Result<bool, HeadFault>
    ensures taken { IfOk result
        (TakesMore (S.left line.old) (S.left line.new) bytes.old.items bytes.new.items) }
    ensures read_fault { IsErrOf result HeadFault.ReadFault → Rose (S.faults line.old) (S.faults line.new) }
    ensures faults { S.faults line.old ≤ S.faults line.new }
    ensures no_fault { result ≢ Err HeadFault.ReadFault → S.faults line.new ≡ S.faults line.old }
    ensures beside { S.beside line.old line.new }
{
    let mut piece = [0; 1024];
    let count = line.read(&mut piece)?;
    bytes.extend_from_slice(&piece[..count])?;
    Ok(count > 0)
}

/// Reads a line until its head is whole or refused, or the input ends, where the answer is `More`. Where no
/// byte came before that, `bytes` is empty.
///
/// `bytes` gets what was read: the head, and behind it what came in the piece that it ends in, of at most
/// 1,024 bytes. Each piece costs one reading of all the bytes so far. After a failure nothing is said of
/// `bytes`, nor of what is left of the line.
pub fn read_head<S: Source>(
    alloc: Global,
    line: &mut S,
    bytes: &mut Vec<u8>,
) -> Result<Reading, HeadFault>
    requires { bytes.old.items ≡ [] }
    ensures taken { OnOk result (Consumes (S.left line.old) (S.left line.new) bytes.new.items) }
    ensures reads { IfOk result (Reads (window bytes.new.items)) }
    ensures bounds { IfOk result (IsInBounds (length bytes.new.items)) }
    ensures ended { IfOk result (λ reading. reading ≡ Reading.More → IsAtEnd (S.left line.new)) }
    ensures no_longer { OnOk result (IsNoLonger bytes.new.items) }

    // The causes of the failures, and what else stays.
    ensures read_fault { IsErrOf result HeadFault.ReadFault → Rose (S.faults line.old) (S.faults line.new) }
    ensures no_fault { result ≢ Err HeadFault.ReadFault → S.faults line.new ≡ S.faults line.old }
    ensures faults { S.faults line.old ≤ S.faults line.new }
    ensures beside { S.beside line.old line.new }
{
    'pieces: loop {
        match read_ask(alloc, bytes.as_slice())? {
            Reading::More => {
                if !take_more(line, bytes)? {
                    return Ok(Reading::More);
                }
            }
            reading => return Ok(reading),
        }
    }
}
