// What every call for C ends in: an answer's listing or figures put on the page that the caller lends, the number of bytes written
// there, and the number that goes with them.
#![tactic(auto)]

ghost use Rattle.std.specs.Prelude.{◌≡◌, ℕ, List, Ok};
ghost use Rattle.rules.specs.Answers.{refusal_number, answer_number};
ghost use Rattle.words.specs.Bytes.{number_bytes};
ghost use Rattle.putting.specs.Outcomes.{outcome, put_on, answered, value_put};
ghost use Rattle.putting.specs.Replies.{replied};

use request::Fault;
use rules::{Answer, Refusal};

// What a call gives back besides its page: its number, and how many bytes it wrote. Both numbers are what C is given.
#[derive(Clone, Copy)]
pub struct Reply {
    pub number: u32,
    pub written: u64,
}

// A refusal's number, and nothing written: 11 where the page is too short for what would be put on it.
pub fn refused(refusal: Refusal) -> Reply
    ensures { (result.number ≡ refusal_number refusal) × (result.written ≡ 0) }
{
    Reply {
        number: refusal as u32,
        written: 0,
    }
}

// Writes an answer's listing on the page. The number is the answer's.
#[tactic(auto, unfolding(crate::specs::Outcomes::put_on, crate::specs::Outcomes::number_of, rules::specs::Answers::written_count))]
pub fn put(answer: Answer, page: &mut [u8]) -> Reply
    ensures { replied (Ok result) page.new ≡ answered answer page.old }
{
    match listing::write(answer, page) {
        Ok(count) => Reply {
            number: listing::answer_number(answer) as u32,
            written: count as u64,
        },
        Err(refusal) => refused(refusal),
    }
}

// Writes figures on the page, eight bytes each, with whatever number goes with them.
#[tactic(auto, using(crate::proofs::Outcomes::short_page, crate::proofs::Outcomes::long_page, words::proofs::Stores::sets_start, words::proofs::Stores::length_numbers))]
pub fn put_numbered(number: u32, figures: &[u64], page: &mut [u8]) -> Reply
    ensures { replied (Ok result) page.new ≡ put_on number (number_bytes figures.now) page.old }
{
    if page.len() / 8 < figures.len() {
        return refused(Refusal::ShortPage);
    }
    words::put_numbers(page, figures);
    Reply {
        number,
        written: 8 * figures.len() as u64,
    }
}

// The same with the number of the answer that the figures are of.
pub fn put_figures<T: Copy>(answer: Result<T, Refusal>, figures: &[u64], page: &mut [u8]) -> Reply
    ensures { replied (Ok result) page.new ≡ put_on (answer_number answer) (number_bytes figures.now) page.old }
{
    put_numbered(listing::answer_number(answer) as u32, figures, page)
}

// Writes the number that an answer gives on the page, or 0 where it gives none.
#[tactic(auto, unfolding(rules::specs::Answers::value_or_zero))]
pub fn put_value(answer: Result<Option<u32>, Refusal>, page: &mut [u8]) -> Reply
    ensures { replied (Ok result) page.new ≡ value_put answer page.old }
{
    let value = answer.unwrap_or(None).unwrap_or(0);
    put_figures(answer, &[u64::from(value)], page)
}

// Gives a reply's number, and the number of its bytes in `written`, as C takes them. A malformed request has a number of its own, and no
// bytes.
pub fn finish(reply: Result<Reply, Fault>, written: &mut u64) -> u32
    ensures { (page : List ℕ) → outcome result page written.new ≡ replied reply page }
{
    match reply {
        Ok(reply) => {
            *written = reply.written;
            reply.number
        }
        Err(fault) => {
            *written = 0;
            request::fault_number(fault)
        }
    }
}
