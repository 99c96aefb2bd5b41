ghost use Rattle.std.specs.Prelude.{◌≡◌};
ghost use Rattle.dup_main.specs.Tasks.{task_named, task_of};

use dup_transcript::Task;

fn task_named(word: &[u8]) -> Option<Task>
    ensures { result ≡ task_named word.now }
{
    if word == b"play".as_slice() {
        Some(Task::Play)
    } else if word == b"check".as_slice() {
        Some(Task::Check)
    } else if word == b"render".as_slice() {
        Some(Task::Render)
    } else {
        None
    }
}

/// What these words ask for, where they are a command line that is known.
pub(crate) fn task_of(words: &[String]) -> Option<Task>
    ensures { result ≡ task_of words.now }
{
    match words {
        [word] => task_named(word.as_bytes()),
        _ => None,
    }
}
