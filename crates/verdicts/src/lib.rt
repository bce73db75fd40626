// Verdicts on rules: one step of a list, which the next follows by `?` where it is kept.
#![tactic(auto)]

ghost use Rattle.std.specs.Prelude.{◌≡◌, cond, Ok, Err};

use rules::Refusal;

// The rule's refusal where it is broken. The bool is a test's answer.
pub fn rule(kept: bool, refusal: Refusal) -> Result<(), Refusal>
    ensures { result ≡ cond kept (Ok tt) (Err refusal) }
{
    if kept { Ok(()) } else { Err(refusal) }
}
