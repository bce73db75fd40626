// The calls for the length of a listing: a request's bytes in; out the answer's number, and how many bytes its listing takes. Nothing is
// written: a host reserves so much paper, or lends a page of that length.
#![tactic(auto)]

ghost use Rattle.std.specs.Prelude.{◌≡◌, ◌≤◌, [], Ok, IfOk};
ghost use Rattle.rules.specs.Listing.{longest_listing};
ghost use Rattle.putting.specs.Replies.{replied};
ghost use Rattle.measuring.specs.Lengths.{measured, examined_length, ChoosingLength, LineLength};

use putting::Reply;
use request::Fault;
use rules::Answer;

// An answer's number, and the length of its listing as the count.
fn measure(answer: Answer) -> Reply
    ensures value { replied (Ok result) [] ≡ measured answer [] }
    ensures most { result.written ≤ longest_listing }
{
    Reply {
        number: listing::answer_number(answer) as u32,
        written: pewgull::length(answer) as u64,
    }
}

// The length of the listing for the candidate of a request, or what is wrong with a malformed one.
#[tactic(auto, unfolding(crate::specs::Lengths::examined_length, putting::specs::Outcomes::on_data))]
pub fn examine(request: &[u8]) -> Result<Reply, Fault>
    ensures value { replied result [] ≡ examined_length request.now }
    ensures most { IfOk result (λ reply. reply.written ≤ longest_listing) }
{
    let data = request::decode(request, request::CANDIDATE_WORDS)?;
    let candidate = request::candidate(request);
    Ok(measure(pewgull::examine(data.plant, data.readings, candidate)))
}

// The length of the listing of the design chosen, or of the refusal.
pub fn choose(request: &[u8]) -> Result<Reply, Fault>
    ensures value { ChoosingLength request.now (replied result []) }
    ensures most { IfOk result (λ reply. reply.written ≤ longest_listing) }
{
    let data = request::decode(request, 0)?;
    Ok(measure(pewgull::choose(data.plant, data.readings)))
}

// The length of the listing of one line's own answer.
pub fn line(request: &[u8]) -> Result<Reply, Fault>
    ensures value { LineLength request.now (replied result []) }
    ensures most { IfOk result (λ reply. reply.written ≤ longest_listing) }
{
    let data = request::decode(request, request::LINE_WORDS)?;
    let split = request::split(request);
    let number = request::line_number(request);
    Ok(measure(pewgull::line(data.plant, data.readings, split, number)))
}
