// The listing of an answer on a page that the caller lends. A listing is a form filled in: a text with a mark in each place
// where a figure goes. Figures are written by hand: of `write!` the library says what comes out for a `String` alone, and the calls for
// C have no heap.
#![tactic(auto)]

ghost use Rattle.std.specs.Prelude.{◌≡◌, ◌+◌, ◌≤◌, length};
ghost use Rattle.std.proofs.lemmas.List.Edits.{sets};
ghost use Rattle.rules.specs.Answers.{refusal_number, answer_number, sheet_figures};
ghost use Rattle.rules.specs.Listing.{listing, listing_length, longest_listing, numeral};
ghost use Rattle.listing.specs.Pages.{Writes, SheetFits};
ghost use Rattle.listing.specs.Forms.{filled};

use rules::{Answer, Refusal, Sheet};

// The paper's number of a refusal: the number of its variant, under the name of the definition.
pub fn refusal_number(refusal: Refusal) -> u64
    ensures { result ≡ refusal_number refusal }
{
    refusal as u64
}

// The number of an answer, whatever it carries: 0, or that of its refusal. A number, since C and a listing are given one.
#[tactic(auto, using(rules::proofs::RuleOrder::refusal_number_most), unfolding(rules::specs::Answers::answer_number))]
pub fn answer_number<T: Copy>(answer: Result<T, Refusal>) -> u64
    ensures value { result ≡ answer_number answer }
    ensures most { result ≤ 22 }
{
    match answer {
        Ok(_) => 0,
        Err(refusal) => refusal_number(refusal),
    }
}

// The fifteen figures of a sheet, in the listing's order: fields have none. Each has 64 bits.
#[tactic(auto, unfolding(rules::specs::Answers::sheet_figures))]
pub fn figures(sheet: Sheet) -> [u64; 15]
    ensures value { result ≡ sheet_figures sheet }
    ensures fits { SheetFits sheet }
{
    [
        sheet.fraction,
        sheet.return_ratio,
        sheet.thickening,
        sheet.age,
        sheet.sludge,
        sheet.mass,
        sheet.solids,
        sheet.reactor,
        sheet.surface,
        sheet.depth,
        sheet.settling,
        sheet.total,
        sheet.recirculation,
        sheet.oxygen,
        sheet.transfer,
    ]
}

// The number of decimal digits of n.
fn digit_count(n: u64) -> usize
    ensures { (result ≡ length (numeral n)) × (result ≤ 20) }
{
    match n.checked_ilog10() {
        Some(power) => power as usize + 1,
        None => 1,
    }
}

// Writes n in decimal at an index of the page, from the last digit to the first, and gives the index after it.
#[tactic(auto, using(crate::proofs::Digits::writing), unfolding(crate::proofs::Digits::last_digits))]
fn put_number(page: &mut [u8], at: usize, n: u64) -> usize
    requires { at + length (numeral n) ≤ length page.old }
    ensures { (result ≡ at + length (numeral n)) × (page.new ≡ sets page.old at (numeral n)) }
{
    let end = at + digit_count(n);
    let mut rest = n;
    for place in (at..end).rev() {
        page[place] = b'0' + (rest % 10) as u8;
        rest /= 10;
    }
    end
}

// Stands for a figure in a form.
const MARK: u8 = b'#';

// The form of a sheet, and of a refusal.
const SHEET_FORM: &[u8] = b"fraction #\n\
    return #\n\
    thickening #\n\
    age #\n\
    sludge #\n\
    mass #\n\
    solids #\n\
    reactor #\n\
    surface #\n\
    depth #\n\
    settling #\n\
    total #\n\
    recirculation #\n\
    oxygen #\n\
    transfer #\n";

const REFUSED_FORM: &[u8] = b"refused #\n";

// A listing before it is written: a form, and the figures that go into it.
#[derive(Clone, Copy)]
struct Listing {
    form: &'static [u8],
    figures: [u64; 15],
    ghost form_length: { length form.now ≤ 147 },
}

impl Listing {
    // An answer's listing. A refusal's form has a mark for the first figure alone.
    fn new(answer: Answer) -> Listing
        ensures value { filled result.form.now result.figures ≡ listing answer }
        ensures most { listing_length answer ≤ longest_listing }
    {
        match answer {
            Ok(sheet) => Listing {
                form: SHEET_FORM,
                figures: figures(sheet),
            },
            Err(refusal) => {
                let mut figures = [0; 15];
                figures[0] = refusal_number(refusal);
                Listing {
                    form: REFUSED_FORM,
                    figures,
                }
            }
        }
    }

    // The listing's length.
    #[tactic(auto, using(crate::proofs::Filling::filling))]
    fn length(&self) -> usize
        ensures { result ≡ length (filled self.now.form.now self.now.figures) }
    {
        let mut figures = self.figures.iter();
        let mut count = 0;
        for b in self.form {
            count += if *b == MARK {
                digit_count(figures.next().copied().unwrap_or(0))
            } else {
                1
            };
        }
        count
    }

    // Writes the listing from the page's start.
    #[tactic(auto, using(crate::proofs::Filling::filling))]
    fn fill(&self, page: &mut [u8])
        requires { length (filled self.now.form.now self.now.figures) ≤ length page.old }
        ensures { page.new ≡ sets page.old 0 (filled self.now.form.now self.now.figures) }
    {
        let mut figures = self.figures.iter();
        let mut at = 0;
        for b in self.form {
            if *b == MARK {
                at = put_number(page, at, figures.next().copied().unwrap_or(0));
            } else {
                page[at] = *b;
                at += 1;
            }
        }
    }
}

// How many bytes an answer's listing takes.
pub fn length(answer: Answer) -> usize
    ensures value { result ≡ listing_length answer }
    ensures most { result ≤ longest_listing }
{
    Listing::new(answer).length()
}

// Writes an answer's listing on a page, where it fits: gives the number of bytes, and leaves the page's later bytes as they
// were. Where it does not fit, refusal 11, and the page stays as it was.
pub fn write(answer: Answer, page: &mut [u8]) -> Result<usize, Refusal>
    ensures { Writes answer page.old page.new result }
{
    let listing = Listing::new(answer);
    let count = listing.length();
    if page.len() < count {
        return Err(Refusal::ShortPage);
    }
    listing.fill(page);
    Ok(count)
}
