// How rows are played as calls of a build.
ghost use Rattle.std.specs.Prelude.{◌≡◌, IfOk, OnOk};

use crate::answers::{begun_text, finish_text, joined_text, obj_text, owned, paths_text, put_text};
use crate::notation::{commit_of, path_of};
use crate::presses::{expanded, first_held, handed_text};
use crate::sites::site_of;
use dup_build::{Begun, Build, Finish};
use dup_names::{Meter, Path};
use dup_records::{Content, apply};
use dup_render::{Expanded, Target};
use std::alloc::Global;
use std::marker::Sync;
use std::process::Abort;
use std::str;
use std::sync::Arc;
use std::test::Fail;
use std::thread::Threads;

/// A call of a build, or a look at its target.
#[derive(Clone, Copy)]
pub(crate) enum Call<'a> {
    /// A commit, as rows write it, and a work over the content that it makes.
    Begin(&'a str),
    /// A work over the same content.
    Again,
    /// What is handed is expanded at once, over the content that comes with it.
    Hand,
    /// Of the expansions that were made and not put, the first.
    Put,
    /// Hands, expansions and puts, until none waits.
    Expand,
    Join,
    /// Tells the paths that the work touched besides.
    Finish,
    /// The bytes of a path in the target.
    Look(&'a str),
}

/// The calls of a row, each with its answer.
pub(crate) type Row<'a> = &'a [(Call<'a>, &'a str)];

/// A build, the content of its last `begin`, and the version of this.
#[derive(Drop)]
pub(crate) struct Works {
    pub(crate) build: Build,
    content: Content,
    version: u64,
}

/// The works of a site, before any commit.
pub(crate) fn works_of(alloc: Global, site: &[u8]) -> Result<Works, Fail>
    ensures { IfOk result (λ made. made.build.works.content ≡ made.content) }
{
    let site = site_of(alloc, site)?;
    let content = Content::start(alloc, Arc::try_clone(&site)?)?;
    let build = Build::new(alloc, site)?;
    Ok(Works {
        build,
        content,
        version: 0,
    })
}

/// Begins a work after one more commit.
pub(crate) fn begin(alloc: Global, works: &mut Works, row: &str) -> Result<String, Fail>
    requires { works.old.build.works.content ≡ works.old.content }
    ensures { OnOk result (works.new.build.works.content ≡ works.new.content) }
{
    let commit = commit_of(alloc, row)?;
    let content = apply(alloc, &works.content, &commit, 100)?;
    let mut commits = Vec::new(alloc);
    commits.push(Arc::new(alloc, commit)?)?;
    let version = works.version.saturating_add(1);
    let begun = works.build.begin(alloc, version, &content, &commits)?;
    let Begun::Work { .. } = begun else {
        return Err(Fail::from("no work"));
    };
    works.content = content;
    works.version = version;
    begun_text(alloc, &begun)
}

fn begin_again(alloc: Global, works: &mut Works) -> Result<String, Fail>
    requires { works.old.build.works.content ≡ works.old.content }
    ensures { OnOk result (works.new.build.works.content ≡ works.new.content) }
{
    let commits = Vec::new(alloc);
    let begun = works
        .build
        .begin(alloc, works.version, &works.content, &commits)?;
    begun_text(alloc, &begun)
}

/// An expansion of what is handed next, where an object waits.
pub(crate) fn next_expanded(
    alloc: Global,
    build: &mut Build,
) -> Result<Option<Arc<Expanded, Global>>, Fail>
    ensures { OnOk result (build.new.works.content ≡ build.old.works.content) }
{
    let Some(job) = build.hand(alloc)? else {
        return Ok(None);
    };
    let made = expanded(alloc, &job, &mut Meter::new())?;
    Ok(Some(made))
}

fn hand(
    alloc: Global,
    build: &mut Build,
    held: &mut Vec<Arc<Expanded, Global>>,
) -> Result<String, Fail>
    ensures { OnOk result (build.new.works.content ≡ build.old.works.content) }
{
    match next_expanded(alloc, build)? {
        None => owned(alloc, "none"),
        Some(made) => {
            let text = handed_text(alloc, &made)?;
            held.push(made)?;
            Ok(text)
        }
    }
}

/// What a put of this expansion is answered.
pub(crate) fn put(
    alloc: Global,
    build: &mut Build,
    made: Arc<Expanded, Global>,
) -> Result<String, Fail>
    ensures { OnOk result (build.new.works.content ≡ build.old.works.content) }
{
    let site = Arc::try_clone(made.site())?;
    let obj = obj_text(alloc, &site, made.obj())?;
    let told = build.put(alloc, made)?;
    let text = put_text(alloc, &site, &obj, &told)?;
    Ok(text)
}

// Whether one more object was expanded.
fn expand_one(alloc: Global, build: &mut Build) -> Result<bool, Fail>
    ensures { OnOk result (build.new.works.content ≡ build.old.works.content) }
{
    match next_expanded(alloc, build)? {
        None => Ok(false),
        Some(made) => {
            put(alloc, build, made)?;
            Ok(true)
        }
    }
}

fn expand_all(alloc: Global, build: &mut Build) -> Result<String, Fail>
    ensures { OnOk result (build.new.works.content ≡ build.old.works.content) }
{
    let mut count: u64 = 0;
    for _turn in 0..20 {
        if expand_one(alloc, build)? {
            count = count.saturating_add(1);
        }
    }
    Ok(format!(in alloc; "expanded {count}")?)
}

fn join(rt: &(impl Threads + Sync), alloc: Global, build: &mut Build) -> Result<String, Fail>
    ensures { OnOk result (build.new.works.content ≡ build.old.works.content) }
{
    let joined = build.join(rt, alloc)?;
    joined_text(alloc, &joined)
}

fn touched_text(alloc: Global, finish: &Finish) -> Result<String, Fail> {
    let text = finish_text(alloc, finish)?;
    match finish {
        Finish::Report { touched, .. } => {
            let touched = paths_text(alloc, touched.items())?;
            Ok(format!(in alloc; "{text} touched {touched}")?)
        }
        _ => Ok(text),
    }
}

fn finish(alloc: Global, build: &mut Build) -> Result<String, Fail>
    ensures { OnOk result (build.new.works.content ≡ build.old.works.content) }
{
    let finish = build.finish(alloc)?;
    touched_text(alloc, &finish)
}

fn look_text(alloc: Global, target: Option<&Target>, wanted: &Path) -> Result<String, Fail> {
    let Some(target) = target else {
        return owned(alloc, "no target");
    };
    for (path, look) in target.pages.items() {
        if path == wanted {
            return owned(alloc, str::from_utf8(look.bytes.bytes())?);
        }
    }
    owned(alloc, "-")
}

// What a call is answered, in words.
fn answer(
    rt: &(impl Threads + Sync),
    alloc: Global,
    works: &mut Works,
    held: &mut Vec<Arc<Expanded, Global>>,
    call: Call<'_>,
) -> Result<String, Fail>
    requires { works.old.build.works.content ≡ works.old.content }
    ensures { OnOk result (works.new.build.works.content ≡ works.new.content) }
{
    match call {
        Call::Begin(row) => begin(alloc, works, row),
        Call::Again => begin_again(alloc, works),
        Call::Hand => hand(alloc, &mut works.build, held),
        Call::Put => {
            let made = first_held(held)?;
            put(alloc, &mut works.build, made)
        }
        Call::Expand => expand_all(alloc, &mut works.build),
        Call::Join => join(rt, alloc, &mut works.build),
        Call::Finish => finish(alloc, &mut works.build),
        Call::Look(path) => look_text(alloc, works.build.target(), &path_of(path)?),
    }
}

fn play(
    rt: &(impl Abort + Alloc<A = Global> + Threads + Sync),
    works: &mut Works,
    name: &str,
    row: Row,
) -> Result<(), Fail>
    requires { works.old.build.works.content ≡ works.old.content }
{
    let alloc = rt.alloc();
    let mut held = Vec::new(alloc);
    let mut number: usize = 0;
    for step in row {
        let (call, wanted) = step;
        number = number.saturating_add(1);
        let told = answer(rt, alloc, works, &mut held, *call)?;
        assert_eq!(rt; told.as_str(), *wanted, "{name}: call {number}");
    }
    Ok(())
}

/// Over this site, each call has the answer beside it.
pub(crate) fn plays(
    rt: &(impl Abort + Alloc<A = Global> + Threads + Sync),
    name: &str,
    site: &[u8],
    row: Row,
) -> Result<(), Fail> {
    let mut works = works_of(rt.alloc(), site)?;
    play(rt, &mut works, name, row)
}
