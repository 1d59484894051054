// Reads a collection on standard input and writes each line that is loaded back in the one form: the sifting program, for the form of a text.
#![tactic(auto)]

use sift_form::Form;

fn main(rt: HostRuntime) {
    sift_io::run(
        &rt,
        Form::Text,
        b"rewrite: standard input",
        b"rewrite: standard output",
        b"rewrite: standard error",
    );
}
