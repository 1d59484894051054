// Reads a collection on standard input and writes the record of each line that is loaded: the sifting program, for the form of a record.
#![tactic(auto)]

use sift_form::Form;

fn main(rt: HostRuntime) {
    sift_io::run(
        &rt,
        Form::Record,
        b"pack: standard input",
        b"pack: standard output",
        b"pack: standard error",
    );
}
