// The calls on a sweep whose state is bytes that the caller keeps: a start, an advance, and an examination. Any bytes are answered. The
// layout is C's: each figure is read by the number of its word.
#![tactic(auto)]

ghost use Rattle.std.specs.Prelude.{◌≡◌, ◌∷◌, ◌*◌, ◌≤◌, length, Ok, Err};
ghost use Rattle.std.proofs.lemmas.List.Edits.{sets};
ghost use Rattle.words.specs.Bytes.{word_bytes};
ghost use Rattle.request.specs.Frames.{data_words, request_length};
ghost use Rattle.rules.specs.declared.Progress.{Progress};
ghost use Rattle.putting.specs.Outcomes.{put_on};
ghost use Rattle.putting.specs.Replies.{replied};
ghost use Rattle.resuming.specs.States.{sweep_words, best_of, best_words, sweep_of, state_bytes, start_put, started_on, beside, advance_put, AdvancedOn, looked_on};

use putting::Reply;
use request::{Data, Fault};
use rules::{Answer, Candidate, Progress, Refusal};
use sweeping::Sweep;

// Own words of a state: the number asked for, and three of the best.
const SWEEP_WORDS: usize = 4;

// The bytes of a state's data, and of a state.
const DATA_LENGTH: usize = 4 * request::DATA_WORDS;

const STATE_LENGTH: usize = DATA_LENGTH + 4 * SWEEP_WORDS;

// The number of an unfinished sweep: C is given numbers alone.
const UNFINISHED: u32 = 100;

// A best by its three words: zeros are none yet.
#[tactic(auto, unfolding(crate::specs::States::best_of))]
fn best_of(fraction: u32, return_ratio: u32, thickening: u32) -> Option<Candidate>
    ensures { result ≡ best_of fraction return_ratio thickening }
{
    if fraction == 0 && return_ratio == 0 && thickening == 0 {
        return None;
    }
    Some(Candidate {
        fraction,
        return_ratio,
        thickening,
    })
}

// The own words of a sweep's state, in the layout's order: the number asked for, and three of the best.
#[tactic(auto, unfolding(crate::specs::States::best_words))]
fn own_words(sweep: Sweep) -> [u32; SWEEP_WORDS]
    ensures { result ≡ sweep.asked ∷ best_words sweep.best }
{
    match sweep.best {
        None => [sweep.asked, 0, 0, 0],
        Some(candidate) => [
            sweep.asked,
            candidate.fraction,
            candidate.return_ratio,
            candidate.thickening,
        ],
    }
}

// The sweep that a state with these data holds.
fn sweep_of(state: &[u8], data: Data) -> Sweep
    requires { request_length sweep_words ≤ length state.now }
    ensures { result ≡ sweep_of state.now «data» }
{
    Sweep {
        plant: data.plant,
        readings: data.readings,
        asked: words::word(state, request::DATA_WORDS),
        best: best_of(
            words::word(state, request::DATA_WORDS + 1),
            words::word(state, request::DATA_WORDS + 2),
            words::word(state, request::DATA_WORDS + 3),
        ),
    }
}

// Writes the number asked for and the best of a sweep after the data of a state.
fn put_sweep(sweep: Sweep, state: &mut [u8])
    requires { request_length sweep_words ≤ length state.old }
    ensures { state.new ≡ sets state.old (4 * data_words) (word_bytes (sweep.asked ∷ best_words sweep.best)) }
{
    words::put_words(state, DATA_LENGTH, &own_words(sweep));
}

// Writes the state of a sweep at its start on the page, with the data of the request.
#[tactic(auto, using(crate::proofs::Bytes::state_length, putting::proofs::Outcomes::short_page))]
fn put_state(request: &[u8], sweep: Sweep, state: &mut [u8]) -> Reply
    requires { length request.now ≡ request_length 0 }
    ensures { replied (Ok result) state.new ≡ put_on 0 (state_bytes request.now sweep) state.old }
{
    if state.len() < STATE_LENGTH {
        return putting::refused(Refusal::ShortPage);
    }
    words::put_bytes(state, request);
    put_sweep(sweep, state);
    Reply {
        number: 0,
        written: STATE_LENGTH as u64,
    }
}

// What a start gives: the state, or the data's refusal and nothing written.
#[tactic(auto, unfolding(crate::specs::States::start_put))]
fn put_start(request: &[u8], started: Result<Sweep, Refusal>, state: &mut [u8]) -> Reply
    requires { length request.now ≡ request_length 0 }
    ensures { replied (Ok result) state.new ≡ start_put request.now state.old started }
{
    match started {
        Ok(sweep) => put_state(request, sweep, state),
        Err(refusal) => putting::refused(refusal),
    }
}

// Starts a sweep on the data of a request, or says what is wrong with a malformed request.
#[tactic(auto, unfolding(crate::specs::States::started_on, putting::specs::Outcomes::on_data))]
pub fn start(request: &[u8], state: &mut [u8]) -> Result<Reply, Fault>
    ensures { replied result state.new ≡ started_on request.now state.old }
{
    let data = request::decode(request, 0)?;
    let started = Sweep::new(data.plant, data.readings);
    Ok(put_start(request, started, state))
}

// What an advance gives, on the state and on the page: the state moves unless the advance is refused, or finished with an answer that the
// page is too short for.
#[tactic(auto, using(crate::proofs::Bytes::state_stored), unfolding(crate::specs::States::advance_put, rules::specs::Answers::progress_number))]
fn put_progress(
    sweep: Sweep,
    progress: Result<Progress, Refusal>,
    state: &mut [u8],
    page: &mut [u8],
) -> Reply
    requires { length state.old ≡ request_length sweep_words }
    ensures { beside state.new (replied (Ok result) page.new) ≡ advance_put state.old page.old sweep progress }
{
    match progress {
        Ok(Progress::Unfinished(_)) => {
            put_sweep(sweep, state);
            Reply {
                number: UNFINISHED,
                written: 0,
            }
        }
        Ok(Progress::Finished(answer)) => {
            if listing::length(answer) <= page.len() {
                put_sweep(sweep, state);
            }
            putting::put(answer, page)
        }
        Err(refusal) => putting::put(Err(refusal), page),
    }
}

// Advances the sweep of a state by n candidates, or says what is wrong with a malformed state, which is not changed.
#[tactic(auto, unfolding(putting::specs::Outcomes::malformed))]
pub fn advance(state: &mut [u8], n: u32, page: &mut [u8]) -> Result<Reply, Fault>
    ensures { AdvancedOn state.old n page.old (beside state.new (replied result page.new)) }
{
    let data = request::decode(state, SWEEP_WORDS)?;
    let advanced = sweep_of(state, data).advance(n);
    Ok(put_progress(advanced.sweep, advanced.progress, state, page))
}

// Examines a candidate for the data of a state, which is only read, or says what is wrong with a malformed state.
#[tactic(auto, unfolding(crate::specs::States::looked_on, putting::specs::Outcomes::on_data))]
pub fn examine(state: &[u8], candidate: Candidate, page: &mut [u8]) -> Result<Reply, Fault>
    ensures { replied result page.new ≡ looked_on state.now candidate page.old }
{
    let data = request::decode(state, SWEEP_WORDS)?;
    let sweep = sweep_of(state, data);
    Ok(putting::put(sweep.examine(candidate), page))
}
