// Takes roots by hand: reads binary64 words, eight bytes each, and writes for each the turns on paper
// and the root. What the lines are, `line` says.
#![tactic(auto)]

use line::Question;

// One line, as that of each program of its kind: a program is a crate.
fn main(rt: HostRuntime) {
    records::list(&mut rt.stdin(), &mut rt.stdout(), Question::Digits);
}
