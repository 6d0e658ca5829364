// Takes roots: reads binary64 words, eight bytes each, and writes a line for each. What a line
// is, `line` says.
#![tactic(auto)]

use line::Question;

// One line, as that of each program of its kind: a program is a crate.
fn main(rt: HostRuntime) {
    records::list(&mut rt.stdin(), &mut rt.stdout(), Question::Root);
}
