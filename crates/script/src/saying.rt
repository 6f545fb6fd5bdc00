//! What a call gave is said in words.
ghost use Rattle.std.specs.Prelude.{◌≡◌, IfOk, string_bytes};
ghost use Rattle.script.specs.Saying.{refusal_said, said};

use crate::answers::Answer;
use promises::refusals::Refusal;
use std::alloc::{AllocError, Global};

// No `Display`: a refusal's own is its words, a part of this line. A type for the line is no plainer.
fn say_refusal(alloc: Global, refusal: Refusal) -> Result<String, AllocError>
    ensures bytes { IfOk result (λ s. string_bytes s ≡ refusal_said refusal) }
{
    let number = refusal.number();
    match refusal.value() {
        Some(place) => format!(in alloc; "refused {number} at {place}: {refusal}"),
        None => format!(in alloc; "refused {number}: {refusal}"),
    }
}

/// The answer in words, or why there is none.
pub fn say(alloc: Global, answer: &Result<Answer, Refusal>) -> Result<String, AllocError>
    ensures bytes { IfOk result (λ s. string_bytes s ≡ said answer.now) }
{
    match answer {
        Ok(answer) => answer.to_string(alloc),
        Err(refusal) => say_refusal(alloc, *refusal),
    }
}
