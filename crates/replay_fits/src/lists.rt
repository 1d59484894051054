// A list of the fit's memory: a double put in and read, all of it in one number, the shipped weights.
use places::weight::Weight;

// A double from its bits. No NaN is made from bits: one is as good as another.
pub(crate) fn of_bits(bits: u64) -> f64 {
    if bits % 0x8000000000000000 > 0x7FF0000000000000 {
        return 0.0 / 0.0;
    }
    f64::from_bits(bits)
}

// The bits of a double; of a NaN the first that is one.
fn bits(x: f64) -> u64 {
    if x != x {
        return 0x7FF8000000000000;
    }
    f64::to_bits(x)
}

pub(crate) fn put(list: &mut [f64], place: u64, x: f64) {
    let length = list.len();
    if place < length as u64 {
        list[place as usize] = x;
        return;
    }
    list.fill(x);
}

// The shipped weights: the eleven that have a name, then the squares'.
pub(crate) fn ship(weights: &mut [f64]) {
    let named = abi_records::named_of(trace_shipped::weights());
    name(&named, weights);
    if weights.len() >= Weight::NAMED {
        let _ = trace_shipped::square_weights(&mut weights[Weight::NAMED..]);
    }
}

fn name(named: &[f64; Weight::NAMED], weights: &mut [f64]) {
    for (i, x) in named.iter().enumerate() {
        put(weights, i as u64, *x);
    }
}

// A NaN past the end.
pub(crate) fn at(list: &[f64], place: u64) -> f64 {
    let length = list.len();
    if place < length as u64 {
        return list[place as usize];
    }
    0.0 / 0.0
}

// xorshift64, by which no two bits of all that went in are lost (oracle/README.md, "Seeds").
fn mixed(state: u64) -> u64 {
    let a = state ^ (state << 13);
    let b = a ^ (a >> 7);
    b ^ (b << 17)
}

// All of a list in one number: from 1 on, each double's bits xored in, and mixed.
pub(crate) fn all(list: &[f64]) -> u64 {
    let mut state: u64 = 1;
    for x in list {
        state = mixed(state ^ bits(*x));
    }
    state
}
