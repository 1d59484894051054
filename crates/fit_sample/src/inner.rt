// The sample of a position, put into a lent buffer: total, and no door. It is made whole before it is put, so that with too little room nothing changes.
ghost use Rattle.std.specs.Prelude.{◌≡◌, ◌+◌, ◌*◌, ◌≤◌, length};
ghost use Rattle.refusal.specs.Answer.{given};
ghost use Rattle.text_out.specs.Text.{Adds};
ghost use Rattle.fit_sample.specs.Sample.{twos_complement, lowest_first, words_of, number_bytes, entry_bytes, sample_by};
ghost use Rattle.fit_sample.specs.Promises.{PutsSample};

use crate::SAMPLE;
use position::State;
use trace_counts::Trace;
use trace_list::BYTES;

// The largest number of 32 bits.
const MOST: u32 = 0xffff_ffff;

// The bytes of a number.
const WORD: usize = 4;

// The bits of a signed number: a cast keeps the number, so one below zero is counted down from the largest.
fn bits(n: i32) -> u32
    ensures { result ≡ twos_complement n }
{
    if n >= 0 {
        return n as u32;
    }
    MOST - (-1 - n) as u32
}

fn bytes_of(b: u32) -> [u8; WORD]
    ensures { result ≡ lowest_first b }
{
    [
        (b % 256) as u8,
        (b / 256 % 256) as u8,
        (b / 65536 % 256) as u8,
        (b / 16777216 % 256) as u8,
    ]
}

// Number after number.
fn put_words(out: &mut [u8], at: usize, numbers: &[i32]) -> usize
    requires { at + 4 * length numbers.now ≤ length out.old }
    ensures { Adds out.old at (words_of numbers.now) out.new result }
{
    let mut end = at;
    for number in numbers {
        let bytes = bytes_of(bits(*number));
        end = text_out::put(out, end, &bytes).unwrap_or(end);
    }
    end
}

// The counts, the mobility, the sign and the piece count.
fn put_numbers(trace: Trace, out: &mut [u8]) -> usize
    requires { (300 ≤ length out.old) × (length trace.mobility ≡ 12) }
    ensures { Adds out.old 0 (number_bytes trace) out.new result }
{
    let counts = abi_records::counts_of(trace);
    let mobility = trace.mobility;
    let others = [trace.side, trace.piece_count];
    let a = put_words(out, 0, &counts);
    let b = put_words(out, a, &mobility);
    put_words(out, b, &others)
}

// How many entries are used, the half points, the entries, and zeros to the end.
fn put_entries(used: u8, half: u8, list: &[u8], out: &mut [u8], at: usize) -> usize
    requires { at + 4 + length list.now ≤ length out.old }
    ensures { Adds out.old at (entry_bytes used half list.now) out.new result }
{
    let front = [used, half];
    let a = text_out::put(out, at, &front).unwrap_or(at);
    let b = text_out::put(out, a, list).unwrap_or(a);
    let zeros = [0u8; 2];
    text_out::put(out, b, &zeros).unwrap_or(b)
}

fn write(trace: Trace, used: u8, half: u8, list: &[u8], out: &mut [u8]) -> usize
    requires { (300 ≤ length out.old) × (length trace.mobility ≡ 12) × (length list.now ≡ 192) }
    ensures { Adds out.old 0 (sample_by (given trace) used half list.now) out.new result }
{
    let at = put_numbers(trace, out);
    put_entries(used, half, list, out, at)
}

// The sample of a position that a line gave; of one that is at odds with itself nothing is put.
pub fn put(
    bitboards: &[u64],
    board: &[u8],
    state: State,
    half: u8,
    out: &mut [u8],
    at: usize,
) -> Option<usize>
    ensures { PutsSample bitboards.now board.now state half out.old out.new at result }
{
    let mut list = [0u8; BYTES];
    let traced = trace_list_computed::compute_list(bitboards, board, state, &mut list);
    let mut sample = [0u8; SAMPLE];
    let checked = traced.checked;
    if let Err(_) = checked {
        return text_out::put(out, at, &sample[..0]);
    }
    let trace = traced.trace;
    let end = write(trace, traced.used, half, &list, &mut sample);
    text_out::put(out, at, &sample[..end])
}
