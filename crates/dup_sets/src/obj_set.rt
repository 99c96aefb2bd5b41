// Sets of objects.
ghost use Rattle.std.specs.Prelude.{◌≡◌, ◌∷◌, ◌++◌, false, [], IsTrue, IfOk, OnOk, OnErr, length};
ghost use Rattle.dup_names.specs.Order.{obj_cmp};
ghost use Rattle.dup_names.specs.Words.{in_order};
ghost use Rattle.dup_names.specs.declared.object.Obj.{Obj};
ghost use Rattle.dup_names.specs.Objects.{is_in, same_obj};
ghost use Rattle.dup_model.specs.Touched.{without};
ghost use Rattle.dup_machine.specs.Works.{next_of, first_of};

use dup_names::{NoMemory, Obj};
use std::alloc::Global;
use std::collections::BTreeSet;
use std::marker::Model;
use std::ops::Bound;

/// Objects in their order, each once.
#[derive(Drop)]
pub struct ObjSet {
    objs: BTreeSet<Obj>,
}

impl Model for ObjSet {
    ghost use Rattle.std.specs.Prelude.{◌≡◌, List};
    ghost use Rattle.dup_names.specs.Order.{obj_cmp};
    ghost use Rattle.dup_names.specs.Words.{in_order};
    ghost use Rattle.dup_names.specs.declared.object.Obj.{Obj};

    ghost Value = { List Obj };

    ghost view = { λ s. s.objs.keys };

    ghost invariant = { λ s. in_order obj_cmp s.objs.keys ≡ s.objs.keys };
}

impl ObjSet {
    /// No objects. It takes no memory.
    pub fn new(alloc: Global) -> ObjSet
        ensures { result ≡ [] }
    {
        ObjSet {
            objs: BTreeSet::new(alloc),
        }
    }

    /// These objects.
    pub fn of(alloc: Global, objs: &[Obj]) -> Result<ObjSet, NoMemory>
        ensures { IfOk result (λ made. made ≡ in_order obj_cmp objs.now) }
    {
        let mut made = ObjSet::new(alloc);
        for obj in objs {
            made.add(*obj)?;
        }
        Ok(made)
    }

    pub fn len(&self) -> usize
        ensures value { result ≡ length self.now }
        ensures rising { in_order obj_cmp self.now ≡ self.now }
    {
        self.objs.len()
    }

    pub fn contains(&self, obj: &Obj) -> bool
        ensures { result ≡ is_in self.now obj.now }
    {
        self.objs.contains(obj)
    }

    /// Puts an object in, where it isn't there.
    pub fn add(&mut self, obj: Obj) -> Result<(), NoMemory>
        ensures ok { OnOk result (self.new ≡ in_order obj_cmp (obj ∷ self.old)) }
        ensures err { OnErr result (self.new ≡ self.old) }
    {
        let Obj { template, key } = obj;
        self.objs.insert(Obj { template, key })?;
        Ok(())
    }

    /// Takes an object out, where it is there.
    pub fn remove(&mut self, obj: &Obj)
        ensures { self.new ≡ without (same_obj obj.now) self.old }
    {
        self.objs.remove(obj);
    }

    /// The least object.
    pub fn first(&self) -> Option<Obj>
        ensures { result ≡ first_of self.now }
    {
        self.objs.first().copied()
    }

    /// The least object after this one, or the least of all.
    pub fn next(&self, last: &Option<Obj>) -> Option<Obj>
        ensures { result ≡ next_of last.now self.now }
    {
        match last {
            None => self.first(),
            Some(last) => {
                match self
                    .objs
                    .range((Bound::Excluded(*last), Bound::Unbounded))
                    .next()
                {
                    None => self.first(),
                    Some(obj) => Some(*obj),
                }
            }
        }
    }

    /// The objects, in order.
    pub fn list(&self, alloc: Global) -> Result<Vec<Obj>, NoMemory>
        ensures { IfOk result (λ made. made.items ≡ self.now) }
    {
        Ok(self.objs.iter().copied().collect(alloc)?)
    }

    /// Those of these objects that aren't in.
    pub fn lacking(&self, alloc: Global, objs: &[Obj]) -> Result<Vec<Obj>, NoMemory>
        ensures { IfOk result (λ made. made.items ≡ without (is_in self.now) objs.now) }
    {
        let mut out = Vec::new(alloc);
        for obj in objs {
            if !self.contains(obj) {
                out.push(*obj)?;
            }
        }
        Ok(out)
    }

    /// Takes these objects out.
    pub fn remove_all(&mut self, objs: &[Obj])
        ensures { self.new ≡ without (is_in objs.now) self.old }
    {
        for obj in objs {
            self.remove(obj);
        }
    }

    /// Puts in these objects, none of which is there: all of them, or none.
    pub fn add_all(&mut self, objs: &[Obj]) -> Result<(), NoMemory>
        requires { (x : Obj) → IsTrue (is_in objs.now x) → is_in self.old x ≡ false }
        ensures ok { OnOk result (self.new ≡ in_order obj_cmp (objs.now ++ self.old)) }
        ensures err { OnErr result (self.new ≡ self.old) }
    {
        let _ = &self.objs;
        for obj in objs {
            let Err(refused) = self.add(*obj) else {
                continue;
            };
            self.remove_all(objs);
            return Err(refused);
        }
        Ok(())
    }
}
