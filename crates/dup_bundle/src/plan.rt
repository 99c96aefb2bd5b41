// What a bundle puts and drops.
ghost use Rattle.std.specs.Prelude.{◌≡◌, ◌++◌, ◌∷◌, [], map, IfOk, OnOk};
ghost use Rattle.dup_bundle.specs.Plans.{plan_of as plan_between};

use crate::sorted::SortedTarget;
use dup_edition::Page;
use dup_lists::Listed;
use dup_names::{NoMemory, Path};
use std::alloc::Global;
use std::collections::BTreeSet;
use std::marker::Model;
use std::sync::Arc;

/// The pages that a bundle puts and the paths that it drops, both in path order.
#[derive(Drop)]
pub struct Plan {
    puts: Vec<Arc<Page, Global>>,
    drops: Vec<Path>,
}

impl Model for Plan {
    ghost use Rattle.std.specs.Prelude.{map};
    ghost use Rattle.dup_bundle.specs.Plans.{Puts};

    ghost Value = { Puts };

    ghost view = { λ p. record { puts = map (λ page. page.value) p.puts.items; drops = p.drops.items } };
}

impl Plan {
    /// The pages put.
    pub fn puts(&self) -> &[Arc<Page, Global>]
        ensures { map (λ p. p.value) result.now ≡ self.now.puts }
    {
        &self.puts
    }

    /// The paths dropped.
    pub fn drops(&self) -> &[Path]
        ensures { result.now ≡ self.now.drops }
    {
        &self.drops
    }

    /// The pages put and the paths dropped. It takes no memory.
    pub fn into_parts(self) -> (Vec<Arc<Page, Global>>, Vec<Path>)
        ensures puts { map (λ p. p.value) result.0.items ≡ self.puts }
        ensures drops { result.1.items ≡ self.drops }
    {
        (self.puts, self.drops)
    }

    // Puts the path as the target has it, or drops it where the target lacks it.
    fn add(&mut self, alloc: Global, target: &SortedTarget<'_>, path: &Path) -> Result<(), NoMemory>
        ensures puts { OnOk result (self.new.puts ≡
            self.old.puts ++ (plan_between target.now (path.now ∷ [])).puts) }
        ensures drops { OnOk result (self.new.drops ≡
            self.old.drops ++ (plan_between target.now (path.now ∷ [])).drops) }
    {
        match target.look(path) {
            None => self.drops.push(*path)?,
            Some(look) => {
                let look = Arc::try_clone(look)?;
                let page = Arc::new(alloc, Page::new(*path, target.version(), look))?;
                self.puts.push(page)?
            }
        }
        Ok(())
    }
}

/// These paths as the target has them.
pub(crate) fn plan_of(
    alloc: Global,
    target: &SortedTarget<'_>,
    paths: &BTreeSet<Path>,
) -> Result<Plan, NoMemory>
    ensures { IfOk result (λ plan. plan ≡ plan_between target.now paths.now.keys) }
{
    let mut plan = Plan {
        puts: Vec::new(alloc),
        drops: Vec::new(alloc),
    };
    for path in paths {
        plan.add(alloc, target, path)?;
    }
    Ok(plan)
}
