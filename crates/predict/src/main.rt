// Predicts the state after a time: reads 68-byte problems, the rules' mu, r, v, dt as words and
// the limit, and writes a line for each. What a line is, `line` says.
#![tactic(auto)]

use line::Question;

// One line, as that of each program of its kind: a program is a crate.
fn main(rt: HostRuntime) {
    records::list(&mut rt.stdin(), &mut rt.stdout(), Question::Kepler);
}
