// Settling.
ghost use Rattle.std.specs.Prelude.{◌≡◌, ◌-◌, IfOk, None, OnErr, OnOk, Some, length};
ghost use Rattle.dup_machine.specs.Presses.{put_step};
ghost use Rattle.dup_machine.specs.World as machine;
ghost use Rattle.dup_machine.specs.World.Joined.{Done};
ghost use Rattle.dup_model.specs.Embeddings.{EmbedsEarlier};
ghost use Rattle.dup_model.specs.Expansions.{notes};
ghost use Rattle.dup_template.specs.Frame.{frame_of};
ghost use Rattle.dup_press.specs.Pressed.{IsSamePlace, pressed};
ghost use Rattle.dup_press.specs.Reached.{IsReached};
ghost use Rattle.dup_press.specs.Settled.{PublishesLast, counts_to_last, left_to_expand};
ghost use Rattle.dup_press.specs.Told.{IsSettled, summary_of};
ghost use Rattle.dup_press.specs.Turns.{
  HasExpanded,
  HasPublished,
  HasWorked,
  IsCalm,
  IsJoined,
  IsWorking,
  UntilTold,
  join_on,
  publish_on,
  ticked,
};

use crate::answers::{Published, Summary};
use crate::press::Press;
use dup_build::{Begun, Finish, Job, Joined};
use dup_edition::Outlet;
use dup_names::{Meter, NoMemory};
use dup_records::Content;
use dup_render::expand;
use std::alloc::Global;
use std::sync::Arc;
use std::thread::Threads;

// Templates embed earlier ones, as in each content of a good site.
fn content_known(content: &Content)
    ensures { EmbedsEarlier content.now }
{
    content.site().parts();
}

impl<O: Outlet + Drop> Press<O>
where
    O::Notice: Drop,
{
    // Expands an object that was handed, and takes it back.
    fn bring(&mut self, alloc: Global, job: &Job, meter: &mut Meter) -> Result<(), NoMemory>
        requires { job.now.content.frame ≡ frame_of self.old.works.journal.site }
        ensures put { OnOk result ((put_step self.old.works.journal.site job.now.obj
            (notes job.now.content job.now.obj) self.old.works.work self.old.works.target
            (pressed self.old)).1 ≡ pressed self.new) }
        ensures counted { OnOk result (meter.new ≡ ticked meter.old 1) }
        ensures place { IsSamePlace self.old self.new }
        ensures err { OnErr result (self.new ≡ self.old) }
    {
        let expanded = expand(alloc, &job.content, &job.obj, meter)?;
        self.put(alloc, Arc::new(alloc, expanded)?)?;
        Ok(())
    }

    // Hands out, expands and takes back until none waits.
    fn expand_all(&mut self, alloc: Global, meter: &mut Meter) -> Result<(), NoMemory>
        requires { IsWorking self.old.works.journal.site (pressed self.old) }
        ensures handed { OnOk result (HasExpanded self.old.works.journal.site (pressed self.old)
            meter.old (pressed self.new) meter.new) }
        ensures calm { OnOk result (IsCalm self.old.works.journal.site (pressed self.new)) }
        ensures place { IsSamePlace self.old self.new }
        ensures err { OnErr result (IsReached self.old self.new) }
    {
        while let Some(job) = self.hand(alloc)? {
            self.bring(alloc, &job, meter)?;
        }
        Ok(())
    }

    // Joins until all that is found has a look.
    fn join_all(&mut self, rt: &(impl Threads + Sync), alloc: Global) -> Result<(), NoMemory>
        requires { IsCalm self.old.works.journal.site (pressed self.old) }
        ensures joined { OnOk result (UntilTold (join_on self.old.works.journal.site)
            (machine.Told.Joins Done) (pressed self.old) (pressed self.new)) }
        ensures all { OnOk result (IsJoined self.old.works.journal.site (pressed self.new)) }
        ensures place { IsSamePlace self.old self.new }
        ensures err { OnErr result (IsReached self.old self.new) }
    {
        while let Joined::Level(_) = self.join(rt, alloc)? {}
        Ok(())
    }

    // Publishes until nothing is changed, and tells how many bundles went out.
    fn publish_all(&mut self, alloc: Global) -> Result<u64, NoMemory>
        ensures published { OnOk result (UntilTold (publish_on self.old.works.journal.site)
            machine.Told.NothingChanged (pressed self.old) (pressed self.new)) }
        ensures bundles { IfOk result (λ bundles. bundles ≡ length self.new.log - length self.old.log) }
        ensures place { IsSamePlace self.old self.new }
        ensures err { OnErr result (IsReached self.old self.new) }
    {
        let before = self.edition();
        while let Published::Bundle { .. } = self.publish(alloc)? {}
        Ok(self.edition().saturating_sub(before))
    }

    // Does the open work, which is at the last version, closes it, and publishes.
    fn work_off(
        &mut self,
        rt: &(impl Threads + Sync),
        alloc: Global,
        meter: &mut Meter,
    ) -> Result<Summary, NoMemory>
        requires { IsWorking self.old.works.journal.site (pressed self.old) }
        ensures worked { IfOk result (λ summary. HasWorked self.old meter.old summary self.new meter.new) }
        ensures place { IsSamePlace self.old self.new }
        ensures err { OnErr result (IsReached self.old self.new) }
    {
        self.expand_all(alloc, meter)?;
        self.join_all(rt, alloc)?;
        let Finish::Report {
            version,
            expanded,
            joined,
            kept,
            ..
        } = self.finish(alloc)?
        else {
            unreachable!()
        };
        let bundles = self.publish_all(alloc)?;
        Ok(Summary {
            version,
            edition: self.edition(),
            bundles,
            expanded,
            joined,
            kept,
        })
    }

    // Publishes what is left, where the target is of the last version.
    fn publish_left(&mut self, alloc: Global) -> Result<Summary, NoMemory>
        requires idle { self.old.works.work ≡ None }
        requires made { self.old.works.target ≡ Some (length self.old.works.journal.commits) }
        ensures published { IfOk result (λ summary. HasPublished self.old summary self.new) }
        ensures place { IsSamePlace self.old self.new }
        ensures err { OnErr result (IsReached self.old self.new) }
    {
        let version = self.version();
        let kept = self.live();
        let bundles = self.publish_all(alloc)?;
        Ok(Summary {
            version,
            edition: self.edition(),
            bundles,
            expanded: 0,
            joined: 0,
            kept,
        })
    }

    /// Publishes the last version: begins a work, expands all that waits, joins level by level, finishes,
    /// and publishes bundle by bundle until nothing is changed. The meter counts the expansions. Once it
    /// answers, nothing is pending. After want of memory some of these calls are done, and the press is as
    /// these leave it: no commit came, and the log begins with the old one.
    ///
    /// The cost is that of these calls: it grows with what changed and what this affects.
    pub fn settle(
        &mut self,
        rt: &(impl Threads + Sync),
        alloc: Global,
        meter: &mut Meter,
    ) -> Result<Summary, NoMemory>
        ensures settled { IfOk result (λ summary. IsSettled self.old summary self.new) }
        ensures published { OnOk result (PublishesLast self.old self.new) }

        // Each expansion is one of an object that is left to expand.
        ensures meter { OnOk result (meter.new ≡ ticked meter.old (left_to_expand self.old)) }
        ensures counts { IfOk result (λ summary. self.old.works.work ≡ None →
            summary ≡ summary_of self.old (counts_to_last self.old) self.new) }
        ensures place { IsSamePlace self.old self.new }

        // Where it gave up, the press is one that events of a settle reach.
        ensures err { OnErr result (IsReached self.old self.new) }
    {
        content_known(self.content());
        match self.begin(alloc)? {
            Begun::Nothing(_) => {
                let summary = self.publish_left(alloc)?;
                Ok(summary)
            }
            _ => {
                let summary = self.work_off(rt, alloc, meter)?;
                Ok(summary)
            }
        }
    }
}
