// What is kept of objects.
ghost use Rattle.std.specs.Prelude.{◌≡◌, ◌-◌, ◌∷◌, [], None, Some, IfOk, OnOk, OnErr, length, if◌then◌else◌};
ghost use Rattle.std.specs.Option.{option_copied, option_map};
ghost use Rattle.dup_names.specs.Order.{obj_cmp};
ghost use Rattle.dup_names.specs.Words.{in_order};
ghost use Rattle.dup_names.specs.declared.object.Obj.{Obj};
ghost use Rattle.dup_names.specs.Objects.{is_in, same_obj};
ghost use Rattle.dup_model.specs.Touched.{without};
ghost use Rattle.dup_sets.specs.Entries.{at, objs};

use dup_names::{NoMemory, Obj};
use indexmap::IndexMap;
use std::alloc::Global;
use std::marker::Model;

/// Objects, each with what is kept of it. Clauses see the entries in object order; the map has them in no
/// order that counts. A search, an entry that comes and one that goes cost the same, on average, however
/// many there are.
#[derive(Drop)]
pub struct Table<T> {
    entries: IndexMap<Obj, T>,
}

impl<T> Model for Table<T> {
    ghost use Rattle.std.specs.Prelude.{List};
    ghost use Rattle.std.specs.Coded.{codes};
    ghost use Rattle.dup_names.specs.declared.object.Obj.{Obj};
    ghost use Rattle.dup_sets.specs.Entries.{by_object};

    ghost Value = { List (Obj × T) };

    ghost coded = { Prim.hlevel (codes, T.code) };

    ghost view = { λ t. by_object t.entries.entries };
}

impl<T> Table<T> {
    /// Nothing is kept. It takes no memory.
    pub fn new(alloc: Global) -> Table<T>
        ensures { result ≡ [] }
    {
        Table {
            entries: IndexMap::new(alloc),
        }
    }

    /// Of how many objects something is kept.
    pub fn len(&self) -> usize
        ensures value { result ≡ length (objs self.now) }
        ensures rising { in_order obj_cmp (objs self.now) ≡ objs self.now }
    {
        self.entries.len()
    }

    /// What is kept of an object.
    pub fn get(&self, obj: &Obj) -> Option<&T>
        ensures { option_copied result ≡ at self.now obj.now }
    {
        self.entries.get(obj)
    }

    /// Whether something is kept of an object.
    pub fn has(&self, obj: &Obj) -> bool
        ensures { result ≡ is_in (objs self.now) obj.now }
    {
        self.get(obj).is_some()
    }

    /// Keeps this of an object.
    pub fn add(&mut self, obj: Obj, kept: T) -> Result<(), NoMemory>
    where
        T: Drop,
        ensures at { OnOk result ((q : Obj) → at self.new q
            ≡ (if same_obj q obj then Some kept else at self.old q)) }
        ensures objs { OnOk result (objs self.new ≡ in_order obj_cmp (obj ∷ objs self.old)) }
        ensures err { OnErr result (self.new ≡ self.old) }
        ensures rising { in_order obj_cmp (objs self.old) ≡ objs self.old }
    {
        self.entries.insert(obj, kept)?;
        Ok(())
    }

    /// Forgets an object.
    pub fn remove(&mut self, obj: &Obj)
    where
        T: Drop,
        ensures at { (q : Obj) → at self.new q ≡ (if same_obj q obj.now then None else at self.old q) }
        ensures objs { objs self.new ≡ without (same_obj obj.now) (objs self.old) }
    {
        self.entries.swap_remove(obj);
    }

    /// Forgets these objects.
    pub fn remove_all(&mut self, gone: &[Obj])
    where
        T: Drop,
        ensures at { (q : Obj) → at self.new q ≡ (if is_in gone.now q then None else at self.old q) }
        ensures objs { objs self.new ≡ without (is_in gone.now) (objs self.old) }
    {
        for obj in gone {
            self.remove(obj);
        }
    }
}

impl Table<u64> {
    /// Lowers the number of an object by one, where there is one above 0.
    pub fn lower(&mut self, obj: &Obj)
        ensures { (q : Obj) → at self.new q ≡ (if same_obj q obj.now
            then option_map (λ n. n - 1) (at self.old q) else at self.old q) }
    {
        if let Some(number) = self.entries.get_mut(obj) {
            *number = number.saturating_sub(1);
        }
    }
}
