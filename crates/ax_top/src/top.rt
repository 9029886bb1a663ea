ghost use Rattle.std.specs.Prelude.{◌≡◌, ◌↔◌, None, map, string_bytes, IfOk, MatchResult};
ghost use Rattle.std.specs.Io.KnownBytes.{Keeps};
ghost use Rattle.ax_top.specs.Run.{Answer, task_of, usage_text};
ghost use Rattle.ax_top.specs.Answered.{answer_of};
ghost use Rattle.ax_top.specs.Headline.{Call, IsOutcomeOf, IsAnswered, IsTold, IsDelivered, IsBuilt, LeavesReads, LeavesWrites};

use crate::answer::{Answered, answer, refusal};
use crate::status::Status;
use crate::task::{Task, task_of};
use ax_ports::{Keeper, ReadFault, Sink, Source, read_all, write_all};
use ax_script::ScriptKind;
use ax_values::NoMemory;
use std::alloc::Global;

const MOST_BYTES: usize = 8388608;

const USAGE: &[u8] =
    b"usage: axrun run [--threads] [--brief] [--keep PATH] | rebuild [--keep PATH] | gen N\n";

fn deliver<W: Sink>(sink: &mut W, status: Status, text: &[u8]) -> Status
    requires { IsTold status }
    ensures outcome { IsOutcomeOf (record { status = status; text = text.now }) result (W.taken sink.old) (W.taken sink.new) (W.faults sink.old) (W.faults sink.new) }
    ensures delivered { IsDelivered result }
    ensures write { LeavesWrites result (W.faults sink.old) (W.faults sink.new) }
{
    match write_all(sink, text) {
        Ok(()) => status,
        Err(_) => match status {
            Status::Done => Status::WriteFault,
            other => other,
        },
    }
}

fn give<W: Sink>(sink: &mut W, answered: Result<Answered, NoMemory>) -> Status
    requires { IfOk answered (λ a. IsTold a.status) }
    ensures outcome { MatchResult answered
        (λ a. IsOutcomeOf (answer_of a) result (W.taken sink.old) (W.taken sink.new) (W.faults sink.old) (W.faults sink.new))
        (λ _. (result ≡ Status.Memory) × Keeps (W.taken sink.old) (W.taken sink.new)) }
    ensures delivered { MatchResult answered (λ _. IsDelivered result) (λ _. result ≡ Status.Memory) }
    ensures write { LeavesWrites result (W.faults sink.old) (W.faults sink.new) }
{
    match answered {
        Ok(answered) => deliver(sink, answered.status, &answered.text),
        Err(_) => Status::Memory,
    }
}

fn run_words<S: Source, W: Sink>(
    alloc: Global,
    words: &[String],
    source: &mut S,
    sink: &mut W,
) -> Status
    ensures answer { IsAnswered (record {
      words = map string_bytes words.now;
      left = S.left source.old;
      status = result;
      old = W.taken sink.old;
      new = W.taken sink.new;
      reads_before = S.faults source.old;
      reads_now = S.faults source.new;
      writes_before = W.faults sink.old;
      writes_now = W.faults sink.new;
    }) }
    ensures usage { (result ≡ Status.Usage) ↔ (task_of (map string_bytes words.now) ≡ None) }
    ensures read { LeavesReads result (S.faults source.old) (S.faults source.new) }
    ensures write { LeavesWrites result (W.faults sink.old) (W.faults sink.new) }
    ensures unread { result ≡ Status.Usage → (S.left source.new ≡ S.left source.old) × (S.faults source.new ≡ S.faults source.old) }
    ensures built { IsBuilt result }
{
    let Some(task) = task_of(words) else {
        return deliver(sink, Status::Usage, USAGE);
    };
    match read_all(alloc, source, MOST_BYTES) {
        Ok(Some(bytes)) => give(sink, answer(alloc, task, &bytes)),
        Ok(None) => give(sink, refusal(alloc, 0, ScriptKind::Long)),
        Err(ReadFault::Failed) => Status::ReadFault,
        Err(ReadFault::Memory) => Status::Memory,
    }
}

/// Reads the script of the source, performs it on one thread, and writes the text of its run into the sink; or, at the word
/// `rebuild`, the rows that its log alone gives.
/// It serves the single words `run` and `rebuild`; any other words are `Usage`. The keeper is handed back as it was given.
/// All steps come before the first written byte. A failed write of a message leaves its status.
pub fn run_script<S: Source, W: Sink, K: Keeper>(
    alloc: Global,
    words: &[String],
    source: &mut S,
    sink: &mut W,
    keeper: K,
) -> (Status, K)
    // There are bytes, those that the source had left where it shows them, such that the status and what is written
    // are what is asked of the script that they are, whole, or a front of it where the sink's count rose;
    // or the message of the script's first fault; or that of the usage. And after each number of orders of that script, every
    // row that a projection shows is the fold, each item once, of a prefix of its aggregate's items in order; where a
    // projection is at the head, its rows are those that the log alone gives; and each report of rows that is printed has the
    // lines of that state's rows. Where the words and the script are in their grammars and neither count rose, the
    // status is Done or Memory.
    ensures answer { IsAnswered (record {
      words = map string_bytes words.now;
      left = S.left source.old;
      status = result.0;
      old = W.taken sink.old;
      new = W.taken sink.new;
      reads_before = S.faults source.old;
      reads_now = S.faults source.new;
      writes_before = W.faults sink.old;
      writes_now = W.faults sink.new;
    }) }

    // When each status comes, also where source and sink show nothing of their bytes.
    ensures usage { (result.0 ≡ Status.Usage) ↔ (task_of (map string_bytes words.now) ≡ None) }
    ensures read { LeavesReads result.0 (S.faults source.old) (S.faults source.new) }
    ensures write { LeavesWrites result.0 (W.faults sink.old) (W.faults sink.new) }
    ensures unread { result.0 ≡ Status.Usage → (S.left source.new ≡ S.left source.old) × (S.faults source.new ≡ S.faults source.old) }
    ensures built { IsBuilt result.0 }
    ensures keeper { result.1 ≡ keeper }
{
    let status = run_words(alloc, words, source, sink);
    (status, keeper)
}
