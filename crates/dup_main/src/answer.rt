// What is written of an answer.
ghost use Rattle.std.specs.Prelude.{◌≡◌, IfOk, Some};
ghost use Rattle.dup_model.specs.Commits.{Refusal};
ghost use Rattle.dup_records.specs.Refusals.{Names};
ghost use Rattle.dup_script.specs.Answers.{said_text};
ghost use Rattle.dup_transcript.specs.Texts.{bad_feed_text, refusal_text};

use dup_model::FeedRefusal;
use dup_names::NoMemory;
use dup_records::CommitRefusal;
use dup_script::{Said, said_text};
use std::alloc::Global;

/// The text of an answer.
pub(crate) fn text_of(alloc: Global, said: &Said) -> Result<Vec<u8>, NoMemory>
    ensures { IfOk result (λ text. text.items ≡ said_text said.now) }
{
    let mut text = Vec::new(alloc);
    said_text(said, &mut text)?;
    Ok(text)
}

/// The line that says why a commit is refused. Want of memory stays what it is.
pub(crate) fn refusal_text(alloc: Global, why: CommitRefusal) -> Result<Vec<u8>, NoMemory>
    ensures { IfOk result (λ text. (due : Refusal) → Names why (Some due) →
        text.items ≡ refusal_text due) }
{
    match why {
        CommitRefusal::NoMemory => Err(NoMemory),
        why => text_of(alloc, &Said::Refused(why)),
    }
}

/// The line that says why a feed message says no commit. Want of memory stays what it is.
pub(crate) fn bad_feed_text(alloc: Global, why: FeedRefusal) -> Result<Vec<u8>, NoMemory>
    ensures { IfOk result (λ text. text.items ≡ bad_feed_text why) }
{
    match why {
        FeedRefusal::NoMemory => Err(NoMemory),
        why => text_of(alloc, &Said::BadFeed(why)),
    }
}
