ghost use Rattle.std.specs.Prelude.{◌≡◌, ℕ, IfOk, OnOk};
ghost use Rattle.frames.specs.Runs.{called_of, run, HeldAsTold};

use super::Policy;
use super::calls::{Answer, Call};
use std::alloc::{AllocError, Global};

/// Makes one call.
pub fn make<P: Policy>(policy: &mut P, keys: &mut [u8; 256], call: Call) -> Answer
    ensures answer { result ≡ (called_of P.Policy.rules call (P.Policy.model policy.old) keys.old).answer }
    ensures keys { keys.new ≡ (called_of P.Policy.rules call (P.Policy.model policy.old) keys.old).keys }
    ensures after { P.Policy.model policy.new ≡ (called_of P.Policy.rules call (P.Policy.model policy.old) keys.old).left }
{
    match call {
        Call::Enter { frame } => Answer::Said {
            yes: policy.enter(frame),
        },
        Call::Return { frame, bits } => Answer::Said {
            yes: policy.return_frame(frame, bits),
        },
        Call::Leave { frame } => Answer::Said {
            yes: policy.leave(frame),
        },
        Call::Touch { frame } => {
            policy.touch(frame);
            Answer::Done
        }
        Call::Empty => {
            policy.clear();
            Answer::Done
        }
        Call::Take => Answer::Took {
            frame: policy.take(keys),
        },
    }
}

/// Makes the calls of a list, one after another, and gives their answers. Afterwards each frame is held at most once, and
/// it is held exactly if the answers say so.
pub fn play<P: Policy>(
    policy: &mut P,
    keys: &mut [u8; 256],
    calls: &[Call],
    heap: Global,
) -> Result<Vec<Answer>, AllocError>
    ensures answers { IfOk result (λ v. v.items ≡ (run P.Policy.rules calls.now (P.Policy.model policy.old) keys.old).answers) }
    ensures after { OnOk result (P.Policy.model policy.new ≡ (run P.Policy.rules calls.now (P.Policy.model policy.old) keys.old).left) }
    ensures held { IfOk result (λ v. HeldAsTold P.Policy.rules (P.Policy.model policy.old) calls.now v.items (P.Policy.model policy.new)) }
{
    let mut answers = Vec::new(heap);
    // Not `map` and `collect`: what `collect` promises does not say what its closure leaves of policy and keys.
    for call in calls {
        let answer = make(policy, keys, *call);
        answers.push(answer)?;
    }
    Ok(answers)
}
