// Answers records from standard input by the calls for C, at most 10,000 of them, and prints what each call gives. A record is
// a header of three words, an operation (0 to examine, 1 to choose, 2 for existing tanks, 3 and 4 for the price of the design chosen and of
// a candidate), a page's length and a request's, and then the request. A read or a write that fails ends the program with its error.
#![tactic(auto)]

ghost use Rattle.std.specs.Prelude.{◌≡◌, ◌≤◌, length, IfOk, IfSome};
ghost use Rattle.request.specs.Frames.{longest_request};
ghost use Rattle.putting.specs.Outcomes.{outcome};
ghost use Rattle.putting.specs.Replies.{replied};
ghost use Rattle.compare.specs.Records.{operation_of, header_of, Call, Answers};

use putting::Reply;
use request::{Fault, LONGEST_REQUEST};
use std::io;
use std::io::{Read, Write};

// What a record asks for.
#[derive(Clone, Copy)]
pub enum Operation {
    Examine,
    Choose,
    Built,
    PriceChoose,
    PriceExamine,
}

// A record's header: the operation, the request's length and the page's.
#[derive(Clone, Copy)]
pub struct Header {
    pub operation: Operation,
    pub length: usize,
    pub room: usize,
}

impl Operation {
    // The operation that a code stands for, if any. An `Option`: of a bad header no error is told, as a `TryFrom` would.
    #[tactic(auto, unfolding(crate::specs::Records::operation_of))]
    fn from_code(code: u32) -> Option<Operation>
        ensures { result ≡ operation_of code }
    {
        match code {
            0 => Some(Operation::Examine),
            1 => Some(Operation::Choose),
            2 => Some(Operation::Built),
            3 => Some(Operation::PriceChoose),
            4 => Some(Operation::PriceExamine),
            _ => None,
        }
    }
}

// What a header asks for, if it is one that a record has: a page is at most 512 bytes long, and a request no longer than the longest.
#[tactic(auto, unfolding(crate::specs::Records::header_of, crate::specs::Records::header_with))]
fn decode_header(bytes: &[u8; 12]) -> Option<Header>
    ensures header { result ≡ header_of bytes.now }
    ensures within { IfSome result (λ header. (header.length ≤ longest_request) × (header.room ≤ 512)) }
{
    let room = words::word(bytes, 1) as usize;
    let length = words::word(bytes, 2) as usize;
    if 512 < room || LONGEST_REQUEST < length {
        return None;
    }
    let operation = Operation::from_code(words::word(bytes, 0))?;
    Some(Header {
        operation,
        length,
        room,
    })
}

// The call for an operation, which comes out of a record: each arm is one call.
fn call(operation: Operation, request: &[u8], page: &mut [u8]) -> Result<Reply, Fault>
    ensures { Call operation request.now page.old (replied result page.new) }
{
    match operation {
        Operation::Examine => interface::examine(request, page),
        Operation::Choose => interface::choose(request, page),
        Operation::Built => standing::built(request, page),
        Operation::PriceChoose => quoting::choose(request, page),
        Operation::PriceExamine => quoting::examine(request, page),
    }
}

// Answers a request on the first `room` bytes of a page of at least 512, and leaves the others as they are, so that the whole page comes
// in.
fn answer(operation: Operation, request: &[u8], page: &mut [u8], room: usize) -> Reply
    requires { (room ≤ 512) × (512 ≤ length page.old) }
    ensures { Answers operation request.now room page.old page.new result.number result.written }
{
    let reply = call(operation, request, &mut page[..room]);
    let mut written = 0;
    let number = putting::finish(reply, &mut written);
    Reply { number, written }
}

// Fills the buffer from the input, and stops early where the input ends. Gives how many bytes were read: `read_exact` does not tell an
// input that ended before a record from one that ended in it.
fn read_full(input: &mut impl Read, buffer: &mut [u8]) -> io::Result<usize>
    ensures { IfOk result (λ count. count ≤ length buffer.new) }
{
    let mut count = 0;
    while count < buffer.len() {
        let got = input.read(&mut buffer[count..])?;
        if got == 0 {
            break;
        }
        count += got;
    }
    Ok(count)
}

// Reads the request that a header announces, answers it and prints the answer. Says whether the request was whole. Input and output are
// two handles that `main` lends.
fn respond(input: &mut impl Read, output: &mut impl Write, header: Header) -> io::Result<bool>
    requires { (header.length ≤ longest_request) × (header.room ≤ 512) }
{
    let mut request = [0u8; LONGEST_REQUEST];
    let request = &mut request[..header.length];
    if read_full(input, request)? != header.length {
        return Ok(false);
    }
    let mut page = [0u8; 512];
    let reply = answer(header.operation, request, &mut page, header.room);
    writeln!(output, "{} {}", reply.number, reply.written)?;
    output.write_all(&page[..reply.written as usize])?;
    Ok(true)
}

// Responds to a record by its header. Says whether it was a whole and good record.
fn take_record(
    input: &mut impl Read,
    output: &mut impl Write,
    bytes: &[u8; 12],
) -> io::Result<bool> {
    match decode_header(bytes) {
        Some(header) => respond(input, output, header),
        None => Ok(false),
    }
}

// Takes the next record, and says whether there may be another: not after the end of the input, nor after a bad record.
fn next_record(input: &mut impl Read, output: &mut impl Write) -> io::Result<bool> {
    let mut bytes = [0u8; 12];
    let got = read_full(input, &mut bytes)?;
    if got == 0 {
        return Ok(false);
    }
    if got == 12 {
        if take_record(input, output, &bytes)? {
            return Ok(true);
        }
    }
    output.write_all(b"bad record\n")?;
    Ok(false)
}

fn main(rt: HostRuntime) -> io::Result<()> {
    let mut input = rt.stdin();
    let mut output = rt.stdout();
    for _ in 0..10_000 {
        if !next_record(&mut input, &mut output)? {
            break;
        }
    }
    Ok(())
}
