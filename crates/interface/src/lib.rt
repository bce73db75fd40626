// The calls that `interface_c` exports: a request's bytes in; out the answer's number, its listing or its figures on a page that the
// caller lends, and the number of bytes written there; or what is wrong with a malformed request, and nothing is written.
#![tactic(auto)]

ghost use Rattle.std.specs.Prelude.{◌≡◌, Ok};
ghost use Rattle.rules.specs.Explanations.{explained_figures, explanation_figures};
ghost use Rattle.rules.specs.DayLog.{load_of};
ghost use Rattle.putting.specs.Replies.{replied};
ghost use Rattle.interface.specs.Calls.{examined, Choosing, works_put, WorksAsked, LineAsked, figured, explained, counts_put, censused, targeted, loaded};

use putting::Reply;
use request::Fault;
use rules::{ANSWER_NUMBERS, Explained, Refusal, Works};

// How many figures an explanation has: nine, and five for each of four terms.
const EXPLAINED_FIGURES: usize = 29;

// Examines the candidate of a request.
#[tactic(auto, unfolding(crate::specs::Calls::examined, putting::specs::Outcomes::on_data))]
pub fn examine(request: &[u8], page: &mut [u8]) -> Result<Reply, Fault>
    ensures { replied result page.new ≡ examined request.now page.old }
{
    let data = request::decode(request, request::CANDIDATE_WORDS)?;
    let candidate = request::candidate(request);
    let answer = pewgull::examine(data.plant, data.readings, candidate);
    Ok(putting::put(answer, page))
}

// Chooses for the data of a request.
pub fn choose(request: &[u8], page: &mut [u8]) -> Result<Reply, Fault>
    ensures { Choosing request.now page.old (replied result page.new) }
{
    let data = request::decode(request, 0)?;
    Ok(putting::put(pewgull::choose(data.plant, data.readings), page))
}

// Writes the figures of a works on the page: zeros where it is refused.
fn put_works(answer: Result<Works, Refusal>, page: &mut [u8]) -> Reply
    ensures { replied (Ok result) page.new ≡ works_put answer page.old }
{
    let mut figures = [0; works::WORKS_FIGURES];
    if let Ok(works) = answer {
        works::figures(works, &mut figures);
    }
    putting::put_figures(answer, &figures, page)
}

// Chooses for every line of the works of a request.
pub fn works(request: &[u8], page: &mut [u8]) -> Result<Reply, Fault>
    ensures { WorksAsked request.now page.old (replied result page.new) }
{
    let data = request::decode(request, request::WORKS_WORDS)?;
    let split = request::split(request);
    Ok(put_works(pewgull::works(data.plant, data.readings, split), page))
}

// Gives one line's own answer for the works of a request.
pub fn line(request: &[u8], page: &mut [u8]) -> Result<Reply, Fault>
    ensures { LineAsked request.now page.old (replied result page.new) }
{
    let data = request::decode(request, request::LINE_WORDS)?;
    let split = request::split(request);
    let number = request::line_number(request);
    let answer = pewgull::line(data.plant, data.readings, split, number);
    Ok(putting::put(answer, page))
}

// The figures of an explanation in their order, which fields do not have.
fn explained_figures(explained: &Explained) -> [u64; EXPLAINED_FIGURES]
    ensures { result ≡ explained_figures explained.now }
{
    let mut figures = [0; EXPLAINED_FIGURES];
    let first = [
        explained.denitrified,
        explained.removed_by_bod,
        explained.removed_by_dose,
        explained.removable,
        explained.solids,
        explained.sludge_volume,
        explained.surface,
        explained.depth,
        listing::answer_number(explained.verdict),
    ];
    words::store(&mut figures, 0, &first);
    for (i, term) in explained.terms.iter().enumerate() {
        let row = [
            term.aerobic_share,
            term.fraction,
            term.denitrified,
            term.removed_by_bod,
            term.removable,
        ];
        words::store(&mut figures, 9 + 5 * i, &row);
    }
    figures
}

// Writes the figures of an explanation on the page: zeros where it is refused.
fn put_explanation(answer: Result<Explained, Refusal>, page: &mut [u8]) -> Reply
    ensures { replied (Ok result) page.new ≡ figured answer page.old }
{
    let figures = match answer {
        Ok(explained) => explained_figures(&explained),
        Err(_) => [0; EXPLAINED_FIGURES],
    };
    putting::put_figures(answer, &figures, page)
}

// Explains the candidate of a request.
#[tactic(auto, unfolding(crate::specs::Calls::explained, putting::specs::Outcomes::on_data))]
pub fn explain(request: &[u8], page: &mut [u8]) -> Result<Reply, Fault>
    ensures { replied result page.new ≡ explained request.now page.old }
{
    let data = request::decode(request, request::CANDIDATE_WORDS)?;
    let candidate = request::candidate(request);
    let answer = pewgull::explain(data.plant, data.readings, candidate);
    Ok(put_explanation(answer, page))
}

// Writes the counts of a census on the page: zeros where it is refused.
fn put_census(answer: Result<[u64; ANSWER_NUMBERS], Refusal>, page: &mut [u8]) -> Reply
    ensures { replied (Ok result) page.new ≡ counts_put answer page.old }
{
    let counts = answer.unwrap_or([0; ANSWER_NUMBERS]);
    putting::put_figures(answer, &counts, page)
}

// The census of the grid for the data of a request.
#[tactic(auto, unfolding(crate::specs::Calls::censused, putting::specs::Outcomes::on_data))]
pub fn census(request: &[u8], page: &mut [u8]) -> Result<Reply, Fault>
    ensures { replied result page.new ≡ censused request.now page.old }
{
    let data = request::decode(request, 0)?;
    Ok(put_census(pewgull::census(data.plant, data.readings), page))
}

// The lowest target in force for the terms and the date of a request, or 0.
#[tactic(auto, unfolding(crate::specs::Calls::targeted))]
pub fn target(request: &[u8], page: &mut [u8]) -> Result<Reply, Fault>
    ensures { replied result page.new ≡ targeted request.now page.old }
{
    let inquiry = request::decode_inquiry(request)?;
    let answer = pewgull::target_on(inquiry.consent, inquiry.date);
    Ok(putting::put_value(answer, page))
}

// The highest two-week load of a day log: its sum and its day on the page, in eight bytes each; zeros where the log is refused.
#[tactic(auto, unfolding(crate::specs::Calls::loaded, rules::specs::DayLog::load_of))]
pub fn load(log: &[u8], page: &mut [u8]) -> Reply
    ensures { replied (Ok result) page.new ≡ loaded log.now page.old }
{
    let answer = pewgull::load(log);
    let load = answer.unwrap_or_default();
    putting::put_figures(answer, &[load.sum, load.day], page)
}
