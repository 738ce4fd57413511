//! What a run shows of a task.
ghost use Rattle.std.specs.Prelude.{◌≡◌};
ghost use Rattle.demo_command.specs.Seen.{is_ended_of, seen_of};
ghost use Rattle.demo_command.specs.Working.Seeing.{seen_with};

use replay::Response;

/// The greatest cycles of the task's activations that ended, 0 where none did.
pub(crate) fn seen_of(responses: &[Response], task: usize) -> u64
    ensures { result ≡ seen_of task responses.now }
{
    let mut seen = 0;
    for response in responses {
        seen = seen_with(seen, response, task);
    }
    seen
}

/// The greatest so far, with the response where that is one of the task's that ended.
fn seen_with(seen: u64, response: &Response, task: usize) -> u64
    ensures { result ≡ seen_with (is_ended_of task response.now) seen response.now.cycles }
{
    if response.ended && response.task == task {
        seen.max(response.cycles)
    } else {
        seen
    }
}
