// Where bytes come from and go to. A fault is answered only where the object's count of faults rose.
ghost use Rattle.std.specs.Prelude.{◌≡◌, ◌≤◌, List, ℕ, length, OnOk, OnErr, IfOk};
ghost use Rattle.std.specs.declared.option.Option.{Option};
ghost use Rattle.std.specs.Io.{ReadsAtMost};
ghost use Rattle.std.specs.Io.KnownBytes.{Appends, ReadConsumes, WriteAppends};
ghost use Rattle.dup_io.specs.Causes.{AppendsPrefix, HasCause, TakesSome};

use thiserror::Error;

/// A read or a write that failed. The object that answers it has counted it.
#[derive(Clone, Copy, Debug, PartialEq, Eq, Error)]
#[error("a read or a write failed")]
pub struct Failed;

/// Where bytes come from.
pub trait Source {
    /// The bytes that are left, where the source tells.
    ghost left: { Self → Option (List ℕ) };

    /// How often it has failed. The count never falls.
    ghost faults: { Self → ℕ };

    /// All that a read leaves as it was.
    ghost beside: { Self → Self → Type 0 };

    /// Reads some bytes into the front of the place, and gives their number. Into a place that isn't
    /// empty, 0 is the end of input.
    fn read(&mut self, into: &mut [u8]) -> Result<usize, Failed>
        ensures bound { ReadsAtMost result into.new }
        ensures bytes { ReadConsumes (left self.old) (left self.new) result into.new }
        ensures cause { HasCause (faults self.old) (faults self.new) result }
        ensures beside { beside self.old self.new };

    ghost stays: { (x : Self) → beside x x };

    ghost joins: { (x y z : Self) → beside x y → beside y z → beside x z };
}

/// Where bytes go to.
pub trait Sink {
    /// The bytes that were written, where the sink tells.
    ghost written: { Self → Option (List ℕ) };

    /// How often it has failed. The count never falls.
    ghost faults: { Self → ℕ };

    /// All that a write leaves as it was.
    ghost beside: { Self → Self → Type 0 };

    /// Writes the first of these bytes, and gives their number. It takes at least one where there is one.
    fn write(&mut self, from: &[u8]) -> Result<usize, Failed>
        ensures count { TakesSome result from.now }
        ensures bytes { WriteAppends (written self.old) (written self.new) result from.now }
        ensures cause { HasCause (faults self.old) (faults self.new) result }
        ensures beside { beside self.old self.new };

    ghost stays: { (x : Self) → beside x x };

    ghost joins: { (x y z : Self) → beside x y → beside y z → beside x z };
}

/// An object that is both: a read keeps what it means as a sink, a write what it means as a source.
pub trait Duplex: Source + Sink {
    ghost read_keeps_written: { (x y : Self) → Self.Source.beside x y
        → Self.Sink.written y ≡ Self.Sink.written x };

    ghost read_keeps_faults: { (x y : Self) → Self.Source.beside x y
        → Self.Sink.faults y ≡ Self.Sink.faults x };

    ghost write_keeps_left: { (x y : Self) → Self.Sink.beside x y → Self.Source.left y ≡ Self.Source.left x };

    ghost write_keeps_faults: { (x y : Self) → Self.Sink.beside x y
        → Self.Source.faults y ≡ Self.Source.faults x };
}

/// Writes all the bytes, or the first of them before a fault of the sink.
pub fn put_all<K: Sink>(sink: &mut K, bytes: &[u8]) -> Result<(), Failed>
    ensures all { OnOk result (Appends (K.written sink.old) (K.written sink.new) bytes.now) }
    ensures part { OnErr result (AppendsPrefix (K.written sink.old) (K.written sink.new) bytes.now) }
    ensures cause { HasCause (K.faults sink.old) (K.faults sink.new) result }
    ensures beside { K.beside sink.old sink.new }
{
    let mut at = 0;
    while at < bytes.len() {
        at += sink.write(&bytes[at..])?;
    }
    Ok(())
}
