// The looks of a level.
ghost use Rattle.std.specs.Prelude.{◌≡◌, IfOk, map};
ghost use Rattle.dup_join.specs.Jobs.{look_of};

use crate::filling::fill;
use crate::uses::{links_with, uses_with};
use dup_lists::Listed;
use dup_names::{Bytes, Look, NoMemory, Obj, Skeleton};
use rayon::prelude::*;
use std::alloc::Global;
use std::sync::Arc;
use std::thread::Threads;

/// An object to join: its skeleton, and the looks of what it embeds.
#[derive(Drop)]
pub struct JoinJob {
    pub obj: Obj,
    pub skeleton: Arc<Skeleton, Global>,
    pub parts: Listed<Arc<Look, Global>>,
}

// The look of a job.
fn join_one(alloc: Global, job: &JoinJob) -> Result<Look, NoMemory>
    ensures { IfOk result (λ made. made ≡ look_of job.now) }
{
    let parts = job.parts.items();
    let bytes = Bytes::of(alloc, fill(alloc, job.skeleton.pieces.items(), parts)?)?;
    let uses = Listed::of(uses_with(alloc, &job.obj, &bytes, parts)?);
    let links = Listed::of(links_with(alloc, job.skeleton.links.items(), parts)?);
    let Obj { template, key } = job.obj;
    Ok(Look {
        obj: Obj { template, key },
        bytes,
        uses,
        links,
    })
}

/// The look of each job: its bytes are the pieces with the holes filled, its uses and links are the
/// unions of those of its parts with the object's own. Where two parts use an object, the last one
/// tells its bytes. It is the same for any number of threads. Only want of memory is refused.
///
/// The cost of a job is that of its bytes, of a search in its parts for each hole, and of n log n in
/// what its parts use and where they link.
pub fn join_level(
    rt: &(impl Threads + Sync),
    alloc: Global,
    jobs: &[JoinJob],
) -> Result<Vec<Look>, NoMemory>
    ensures { IfOk result (λ looks. looks.items ≡ map look_of jobs.now) }
{
    let looks: Result<Vec<Look>, NoMemory> = jobs
        .par_iter()
        .map(
            |job: &JoinJob| -> Result<Look, NoMemory>
                ensures { IfOk result (λ made. made ≡ look_of job.now) }
            { join_one(alloc, job) },
        )
        .collect(rt, alloc)?;
    looks
}
