// The calls for C: a request's bytes in; out the answer's number, its listing or its figures on a page that the caller lends, and the
// number of bytes written there; or, with no page, the length of its listing. C asks for a function of its own for each call, and for a
// number beside a count.
#![tactic(auto)]

ghost use Rattle.std.specs.Prelude.{◌≡◌, ◌≤◌, []};
ghost use Rattle.rules.specs.Listing.{longest_listing};
ghost use Rattle.putting.specs.Outcomes.{outcome};
ghost use Rattle.resuming.specs.States.{started_on, resumed, AdvancedOn, looked_on};
ghost use Rattle.standing.specs.Tanks.{BuiltOn};
ghost use Rattle.quoting.specs.Quotes.{ChosenAndPriced, examined_and_priced};
ghost use Rattle.measuring.specs.Lengths.{examined_length, ChoosingLength, LineLength};
ghost use Rattle.interface.specs.Calls.{examined, Choosing, WorksAsked, LineAsked, explained, censused, targeted, loaded};

use rules::Candidate;

// Examines the candidate of a request. A malformed request is answered by 101 to 103, and nothing is written.
#[unsafe(no_mangle)]
pub extern "C" fn pewgull_examine(request: &[u8], page: &mut [u8], written: &mut u64) -> u32
    ensures { outcome result page.new written.new ≡ examined request.now page.old }
{
    putting::finish(interface::examine(request, page), written)
}

// Chooses for the data of a request. A malformed request is answered by 101 to 103, and nothing is written.
#[unsafe(no_mangle)]
pub extern "C" fn pewgull_choose(request: &[u8], page: &mut [u8], written: &mut u64) -> u32
    ensures { Choosing request.now page.old (outcome result page.new written.new) }
{
    putting::finish(interface::choose(request, page), written)
}

// Chooses for every line of the works of a request. A malformed request is answered by 101 to 103, and nothing is written.
#[unsafe(no_mangle)]
pub extern "C" fn pewgull_works(request: &[u8], page: &mut [u8], written: &mut u64) -> u32
    ensures { WorksAsked request.now page.old (outcome result page.new written.new) }
{
    putting::finish(interface::works(request, page), written)
}

// Gives one line's own answer for the works of a request. A malformed request is answered by 101 to 103, and nothing is written.
#[unsafe(no_mangle)]
pub extern "C" fn pewgull_line(request: &[u8], page: &mut [u8], written: &mut u64) -> u32
    ensures { LineAsked request.now page.old (outcome result page.new written.new) }
{
    putting::finish(interface::line(request, page), written)
}

// Explains the candidate of a request. A malformed request is answered by 101 to 103, and nothing is written.
#[unsafe(no_mangle)]
pub extern "C" fn pewgull_explain(request: &[u8], page: &mut [u8], written: &mut u64) -> u32
    ensures { outcome result page.new written.new ≡ explained request.now page.old }
{
    putting::finish(interface::explain(request, page), written)
}

// The census of the grid for the data of a request. A malformed request is answered by 101 to 103, and nothing is written.
#[unsafe(no_mangle)]
pub extern "C" fn pewgull_census(request: &[u8], page: &mut [u8], written: &mut u64) -> u32
    ensures { outcome result page.new written.new ≡ censused request.now page.old }
{
    putting::finish(interface::census(request, page), written)
}

// The lowest target in force for the terms and the date of a request. A malformed request is answered by 101 or 102, and
// nothing is written.
#[unsafe(no_mangle)]
pub extern "C" fn pewgull_target(request: &[u8], page: &mut [u8], written: &mut u64) -> u32
    ensures { outcome result page.new written.new ≡ targeted request.now page.old }
{
    putting::finish(interface::target(request, page), written)
}

// The highest two-week load of a day log: its sum and its day on the page, in eight bytes each.
#[unsafe(no_mangle)]
pub extern "C" fn pewgull_load(log: &[u8], page: &mut [u8], written: &mut u64) -> u32
    ensures { outcome result page.new written.new ≡ loaded log.now page.old }
{
    putting::finish(Ok(interface::load(log, page)), written)
}

// Starts a sweep on the data of a request, and writes its state. A malformed request is answered by 101 to 103, refused data by their
// usual number, and nothing is written.
#[unsafe(no_mangle)]
pub extern "C" fn pewgull_sweep_start(request: &[u8], state: &mut [u8], written: &mut u64) -> u32
    ensures { outcome result state.new written.new ≡ started_on request.now state.old }
{
    putting::finish(resuming::start(request, state), written)
}

// Advances the sweep of a state by so many candidates. A malformed state is answered by 101 to 103, and nothing is changed.
#[unsafe(no_mangle)]
pub extern "C" fn pewgull_sweep_advance(
    state: &mut [u8],
    candidates: u32,
    page: &mut [u8],
    written: &mut u64,
) -> u32
    ensures { AdvancedOn state.old candidates page.old (resumed result state.new page.new written.new) }
{
    putting::finish(resuming::advance(state, candidates, page), written)
}

// Examines a candidate for the data of a state, which is only read. A malformed state is answered by 101 to 103, and nothing is written.
#[unsafe(no_mangle)]
pub extern "C" fn pewgull_sweep_examine(
    state: &[u8],
    fraction: u32,
    return_ratio: u32,
    thickening: u32,
    page: &mut [u8],
    written: &mut u64,
) -> u32
    ensures { outcome result page.new written.new
        ≡ looked_on state.now (record { fraction = fraction; return_ratio = return_ratio; thickening = thickening }) page.old }
{
    let candidate = Candidate {
        fraction,
        return_ratio,
        thickening,
    };
    putting::finish(resuming::examine(state, candidate, page), written)
}

// Whether the existing tanks of a request hold at each sludge volume index of a span: 0 on the page, or the smallest index lost. A
// malformed request is answered by 101 to 103, and nothing is written.
#[unsafe(no_mangle)]
pub extern "C" fn pewgull_built(request: &[u8], page: &mut [u8], written: &mut u64) -> u32
    ensures { BuiltOn request.now page.old (outcome result page.new written.new) }
{
    putting::finish(standing::built(request, page), written)
}

// The design chosen for the data of a request, and its price by the request's tariff. A malformed request is answered by 101 to 103, and
// nothing is written.
#[unsafe(no_mangle)]
pub extern "C" fn pewgull_price_choose(request: &[u8], page: &mut [u8], written: &mut u64) -> u32
    ensures { ChosenAndPriced request.now page.old (outcome result page.new written.new) }
{
    putting::finish(quoting::choose(request, page), written)
}

// The sheet of the candidate of a request, and its price by the request's tariff. A malformed request is answered by 101 to 103, and
// nothing is written.
#[unsafe(no_mangle)]
pub extern "C" fn pewgull_price_examine(request: &[u8], page: &mut [u8], written: &mut u64) -> u32
    ensures { outcome result page.new written.new ≡ examined_and_priced request.now page.old }
{
    putting::finish(quoting::examine(request, page), written)
}

// The length of the listing of what `pewgull_examine` answers, and the number that it gives. A malformed request is answered by 101 to 103,
// with the length 0.
#[unsafe(no_mangle)]
pub extern "C" fn pewgull_length_examine(request: &[u8], length: &mut u64) -> u32
    ensures value { outcome result [] length.new ≡ examined_length request.now }
    ensures most { length.new ≤ longest_listing }
{
    putting::finish(measuring::examine(request), length)
}

// The length of the listing of what `pewgull_choose` answers, and the number that it gives. A malformed request is answered by 101 to 103,
// with the length 0.
#[unsafe(no_mangle)]
pub extern "C" fn pewgull_length_choose(request: &[u8], length: &mut u64) -> u32
    ensures value { ChoosingLength request.now (outcome result [] length.new) }
    ensures most { length.new ≤ longest_listing }
{
    putting::finish(measuring::choose(request), length)
}

// The length of the listing of what `pewgull_line` answers, and the number that it gives. A malformed request is answered by 101 to 103,
// with the length 0.
#[unsafe(no_mangle)]
pub extern "C" fn pewgull_length_line(request: &[u8], length: &mut u64) -> u32
    ensures value { LineLength request.now (outcome result [] length.new) }
    ensures most { length.new ≤ longest_listing }
{
    putting::finish(measuring::line(request), length)
}
