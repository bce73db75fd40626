// The call on the existing tanks of a standing works: a request's bytes in; out the answer's number, and on the page the smallest
// sludge volume index that is lost, or 0. The layout is C's: each figure is read by the number of its word.
#![tactic(auto)]

ghost use Rattle.std.specs.Prelude.{◌≡◌, ◌≤◌, length, Ok};
ghost use Rattle.request.specs.Frames.{request_length};
ghost use Rattle.putting.specs.Replies.{replied};
ghost use Rattle.standing.specs.Tanks.{existing_words, asked_existing, asked_span, BuiltOn};

use putting::Reply;
use request::Fault;
use rules::{Existing, IndexSpan};

// Own words of the call: five of the tanks and two of the span.
const EXISTING_WORDS: usize = 7;

// The existing tanks of a request.
fn existing_of(bytes: &[u8]) -> Existing
    requires { request_length existing_words ≤ length bytes.now }
    ensures { result ≡ asked_existing bytes.now }
{
    Existing {
        reactor: words::word(bytes, request::DATA_WORDS),
        surface: words::word(bytes, request::DATA_WORDS + 1),
        depth: words::word(bytes, request::DATA_WORDS + 2),
        fraction: words::word(bytes, request::DATA_WORDS + 3),
        thickening: words::word(bytes, request::DATA_WORDS + 4),
    }
}

// The span of indices of a request.
fn span_of(bytes: &[u8]) -> IndexSpan
    requires { request_length existing_words ≤ length bytes.now }
    ensures { result ≡ asked_span bytes.now }
{
    IndexSpan {
        least: words::word(bytes, request::DATA_WORDS + 5),
        most: words::word(bytes, request::DATA_WORDS + 6),
    }
}

// Whether the existing tanks of a request hold, or what is wrong with a malformed request.
pub fn built(request: &[u8], page: &mut [u8]) -> Result<Reply, Fault>
    ensures { BuiltOn request.now page.old (replied result page.new) }
{
    let data = request::decode(request, EXISTING_WORDS)?;
    let existing = existing_of(request);
    let span = span_of(request);
    let answer = existing::built(data.plant, data.readings, existing, span);
    Ok(putting::put_value(answer, page))
}
