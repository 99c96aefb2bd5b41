// Readers with two counts.
ghost use Rattle.std.specs.Prelude.{◌≡◌, [], IfOk, IfSome, IsTrue, MatchOption, MatchResult};
ghost use Rattle.left_right.specs.Sides.{view};
ghost use Rattle.dup_cache.specs.Holding.{BeginsWith};
ghost use Rattle.dup_live.specs.Deeds.{published};
ghost use Rattle.dup_live.specs.Kept.{IsOf, Reads};
ghost use Rattle.dup_live.specs.Windows.{Enters, IsHandedOut, Misses, new_sight};

use crate::book::{Front, Naming};
use crate::deed::Log;
use crate::notice::Notice;
use crate::rule::{Kept, Sees};
use crate::shown::Shown;
use core::mem::replace_with;
use dup_edition::Edition;
use dup_names::NoMemory;
use left_right::reader::Reader;
use std::alloc::Global;
use std::marker::Model;
use std::sync::Arc;

pub(crate) type LiveReader<J> = Reader<Shown, Log, Kept<J>>;

/// A reader of what is published. It takes no lock and waits for nobody. It counts its entries: those that
/// gave it what is published, and those that gave it nothing.
#[derive(Drop)]
pub struct Eye<J: Naming> {
    reader: LiveReader<J>,
    told: Front,
    entries: u64,
    blanks: u64,
}

impl<J: Naming> Model for Eye<J> {
    ghost use Rattle.std.specs.Prelude.{◌≡◌};
    ghost use Rattle.std.specs.Coded.{codes};
    ghost use Rattle.dup_template.specs.contracts.statement.Statement as statement;
    ghost use Rattle.dup_live.specs.declared.sight.Sight.{Sight};
    ghost use Rattle.dup_live.specs.Deeds.{published};

    ghost Value = { Sight };

    ghost coded = { Prim.hlevel (codes, statement.the_row.coded) };

    ghost view = { λ e. record {
      seen = e.reader.place.me.0.client;
      told = published e.told.deeds;
      entries = e.entries;
      blanks = e.blanks;
    } };

    ghost invariant = { λ e. e.told.which ≡ J.book };
}

// One entry.
fn looked<J: Naming>(reader: LiveReader<J>) -> (LiveReader<J>, Result<Option<Shown>, NoMemory>)
    ensures later { BeginsWith (view result.0.place) (view reader.place) }
    ensures shown { IfOk result.1 (λ found. IfSome found (λ s. IsOf J.book J.site s
        × Reads J.site (view reader.place) s.edition.log (view result.0.place))) }
{
    match reader.enter_as::<Sees<J>>() {
        Ok(reading) => {
            let shown = reading.get().again();
            (reading.leave(), shown.map(Some))
        }
        Err(reader) => (reader, Ok(None)),
    }
}

// One entry, in place.
fn entered<J: Naming>(reader: &mut LiveReader<J>) -> Result<Option<Shown>, NoMemory>
    ensures later { BeginsWith (view reader.new.place) (view reader.old.place) }
    ensures shown { IfOk result (λ found. IfSome found (λ s. IsOf J.book J.site s
        × Reads J.site (view reader.old.place) s.edition.log (view reader.new.place))) }
{
    replace_with(reader, (), |reader, _| looked(reader))
}

impl<J: Naming> Eye<J> {
    /// An eye that has seen nothing, and was told of what the front has published.
    pub(crate) fn new(reader: LiveReader<J>, told: Front) -> Eye<J>
        requires seen { view reader.place ≡ [] }
        requires told { told.which ≡ J.book }
        ensures { result ≡ new_sight (published told.deeds) }
    {
        Eye {
            reader,
            told,
            entries: 0,
            blanks: 0,
        }
    }

    /// The edition that is published now, at one entry: it begins with all that this eye has seen and was
    /// told of. None where the entry gives nothing. After want of memory the eye may have seen what is
    /// published. It costs an entry, a comparison and one more owner, whatever the edition's size.
    pub fn look(&mut self) -> Result<Option<Arc<Edition, Global>>, NoMemory>
        ensures told { self.new.told ≡ self.old.told }
        ensures later { BeginsWith self.new.seen self.old.seen }
        ensures edition { IfOk result (λ found. IfSome found (λ e.
            IsHandedOut J.site self.old self.new e.value)) }
        ensures counts { MatchResult result
            (λ found. MatchOption found (Misses self.old self.new) (λ _. Enters self.old self.new))
            (λ _. Enters self.old self.new) }
    {
        match entered(&mut self.reader) {
            Ok(Some(shown)) if shown.is_past(&self.told) => {
                self.entries = self.entries.saturating_add(1);
                Ok(Some(shown.into_edition()))
            }
            Ok(_) => {
                self.blanks = self.blanks.saturating_add(1);
                Ok(None)
            }
            Err(_) => {
                self.entries = self.entries.saturating_add(1);
                Err(NoMemory)
            }
        }
    }

    /// One more eye, which has seen nothing and was told the same.
    pub fn another(&self) -> Result<Eye<J>, NoMemory>
        ensures { IfOk result (λ made. made ≡ new_sight self.now.told) }
    {
        let reader = self.reader.factory().reader()?;
        Ok(Eye::new(reader, self.told.again()))
    }

    /// Is told of a published log. Each edition that is looked at from now on begins with it. It takes no
    /// memory.
    pub fn hear(&mut self, notice: Notice<J>)
        ensures seen { self.new.seen ≡ self.old.seen }
        ensures told { BeginsWith self.new.told self.old.told }
        ensures heard { BeginsWith self.new.told notice }
        ensures counts { (self.new.entries ≡ self.old.entries) × (self.new.blanks ≡ self.old.blanks) }
    {
        let heard = notice.into_front();
        self.told = self.told.longer(&heard);
    }
}
