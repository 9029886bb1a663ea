ghost use Rattle.std.specs.Prelude.{◌≡◌, map, string_bytes};
ghost use Rattle.ax_top.specs.Run.{task_named, task_of};

/// What the program is asked for.
#[derive(Clone, Copy, Debug, PartialEq, Eq)]
pub(crate) enum Task {
    /// The text of each step.
    Run,
    /// The rows that the log alone gives after the last step.
    Rebuild,
}

/// The task of the program's words, each of which is a single word.
pub(crate) fn task_of(words: &[String]) -> Option<Task>
    ensures { result ≡ task_of (map string_bytes words.now) }
{
    match words {
        [word] => task_named(word.as_bytes()),
        _ => None,
    }
}

fn task_named(word: &[u8]) -> Option<Task>
    ensures { result ≡ task_named word.now }
{
    if word == b"run".as_slice() {
        return Some(Task::Run);
    }
    if word == b"rebuild".as_slice() {
        return Some(Task::Rebuild);
    }
    None
}
