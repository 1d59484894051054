// What a read or a write came to, how much is left, and when a loop gives up: every decision of a program that reads and writes, on
// numbers alone.
//
// A program that takes a failed or a short read for the end stops in silence, and its totals look whole. So no program decides this
// itself: it makes the call, and asks here what came of it.
#![tactic(auto)]

ghost use Rattle.std.specs.Prelude.{◌≡◌, min};
ghost use Rattle.stream.specs.Calls.{is_broken_off, Fails, Leaves, MayGoOn, More, ReadMeans, WriteMeans};

// So many calls a loop makes at most, more than any run does: a proved loop has to end.
pub const TURNS: u64 = 0x4000_0000_0000_0000;

// The number that the system gives a call that a signal broke off.
const EINTR: i32 = 4;

// What a read came to: so many bytes at the start of the buffer; the end of the input; a signal broke it off, and it is made again; it
// failed, and the error number says why; or it was lent no room, and so says nothing of the input.
#[derive(Clone, Copy)]
pub enum Read {
    Bytes(usize),
    End,
    Again,
    Failed,
    NoRoom,
}

// What a write came to: so many bytes are written now; it failed, and the error number says why; or it took nothing, of which the error
// number says nothing.
#[derive(Clone, Copy)]
pub enum Write {
    To(usize),
    Failed,
    Nothing,
}

impl Read {
    // By the count that the call gave, the error number after it, and the room that it was lent.
    pub fn of(got: isize, error: i32, room: usize) -> Read
        ensures { ReadMeans got error room result }
    {
        if got < 0 {
            if broken_off(error) {
                return Read::Again;
            }
            return Read::Failed;
        }
        if room == 0 {
            return Read::NoRoom;
        }
        if got == 0 {
            return Read::End;
        }
        Read::Bytes(least(got as usize, room))
    }
}

impl Write {
    // By the count that the call gave, the error number after it, how many bytes there are and how many were written before it.
    pub fn of(put: isize, error: i32, size: usize, done: usize) -> Write
        ensures { WriteMeans put error size done result }
    {
        if put < 0 {
            if broken_off(error) {
                return Write::To(done);
            }
            return Write::Failed;
        }
        if put == 0 {
            return Write::Nothing;
        }
        let next = done + least(put as usize, left(size, done));
        Write::To(next)
    }
}

// Whether a signal broke the call off before it moved a byte.
fn broken_off(error: i32) -> bool
    ensures { result ≡ is_broken_off error }
{
    error == EINTR
}

// How many of so many bytes are left after those that are done.
pub fn left(size: usize, done: usize) -> usize
    ensures { Leaves size done result }
{
    if size < done {
        return 0;
    }
    size - done
}

// Whether a loop that made so many calls may make one more.
pub fn may_go_on(turns: u64) -> bool
    ensures { MayGoOn turns result }
{
    turns < TURNS
}

// Whether it makes one more to write what is left.
pub fn more(size: usize, done: usize, turns: u64) -> bool
    ensures { More size done turns result }
{
    if left(size, done) == 0 {
        return false;
    }
    may_go_on(turns)
}

// Whether a call that gives no count failed, as one that closes.
pub fn failed(answer: i32) -> bool
    ensures { Fails answer result }
{
    answer < 0
}

fn least(a: usize, b: usize) -> usize
    ensures { result ≡ min a b }
{
    if a < b { a } else { b }
}
