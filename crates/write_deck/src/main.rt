// Writes a deck: reads a version and a form, and behind them problems: the rules' mu, r, v, dt as words and
// the limit, 68 bytes, in form 1 with object and epoch, 80. Writes the deck of their cards, or the line of
// its refusal. What is made, `maker` says.
#![tactic(auto)]

use maker::Asked;

// One line, as that of each program of its kind: a program is a crate.
fn main(rt: HostRuntime) {
    maker::make(&mut rt.stdin(), &mut rt.stdout(), Asked::Problems);
}
