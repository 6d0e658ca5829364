// Predicts the state through an angle: reads 64-byte problems, the rules' mu, r, v and a as
// words, and writes a line for each. What a line is, `line` says.
#![tactic(auto)]

use line::Question;

// One line, as that of each program of its kind: a program is a crate.
fn main(rt: HostRuntime) {
    records::list(&mut rt.stdin(), &mut rt.stdout(), Question::Theta);
}
