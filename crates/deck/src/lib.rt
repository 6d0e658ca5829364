// The deck: its contents tested in the order of the rules, a verdict for each card, and the tally.
// docs/RULES.md, The deck.
//
// `check` is proved and total: its answer and the verdict list afterwards are definitions of the
// deck's bytes and the list before. A refused deck leaves the list as it was lent. The crate assumes
// nothing.
#![tactic(auto)]

ghost use Rattle.std.specs.Prelude.{◌≡◌, ◌≤◌, ◌<◌, length, set};
ghost use Rattle.card.specs.Fields.{size_of, parts_of};
ghost use Rattle.contents.specs.Contents.{entry_at, most_cards, cards_from, Passes};
ghost use Rattle.ruling.specs.Said as judge;
ghost use Rattle.verdict.specs.Verdict.{verdict_on};
ghost use Rattle.deck.specs.Said.{said};
ghost use Rattle.deck.specs.Check.{judged_from, tallied, answer_of, written, list_after};

use card::Kind;
use contents::{ENTRY, HEADER};
use ruling::{Reason, Verdict};
use tally::Running;
use version::Version;

mod tally;

// How many cards were accepted as solved, accepted as refused, and rejected.
#[derive(Clone, Copy)]
pub struct Totals {
    pub solved: u32,
    pub refused: u32,
    pub rejected: u32,
}

// Mean and worst of the solved cards' residuals, in seconds.
#[derive(Clone, Copy)]
pub struct Residuals {
    pub mean: f64,
    pub worst: f64,
}

// Checks a deck: the verdict on each card goes into the lent list; the places behind keep their
// values. Mean and worst are absent, and not zero, where no card is solved.
pub fn check(deck: &[u8], verdicts: &mut [u32]) -> Result<(Totals, Option<Residuals>), Reason>
    ensures result_value { said result ≡ answer_of deck.now (length verdicts.old) }
    ensures verdicts_after { verdicts.new ≡ list_after deck.now verdicts.old }
{
    let (version, count) = contents::tested(deck)?;
    if verdicts.len() < count as usize {
        return Err(Reason::ListTooShort);
    }
    judged(deck, version, count, verdicts)
}

// A verdict for each card of a deck whose contents passed, and the tally. No entry is refused here.
fn judged(
    deck: &[u8],
    version: Version,
    count: u32,
    verdicts: &mut [u32],
) -> Result<(Totals, Option<Residuals>), Reason>
    requires count_le_most_cards { (count ≤ most_cards) × (count ≤ length verdicts.old) }
    requires passes { Passes (cards_from version deck.now count 0 (entry_at count)) }
    ensures result_value { said result ≡ tallied (judged_from version deck.now count) }
    ensures verdicts_after { verdicts.new ≡ written (judged_from version deck.now count) verdicts.old }
{
    let mut at = HEADER + ENTRY * count as usize;
    let mut running = Running::none();
    for i in 0..count {
        let kind = contents::entry_at(deck, version, i, at)?;
        let end = at + kind.size(version);
        let verdict = judge_into(&mut verdicts[i as usize..], version, kind, &deck[at..end]);
        running = running.with(verdict);
        at = end;
    }
    Ok(running.closed())
}

// The verdict on a card, written into the first place of the list.
fn judge_into(verdicts: &mut [u32], version: Version, kind: Kind, body: &[u8]) -> Verdict
    requires { (0 < length verdicts.old) × (length body.now ≡ size_of version kind) }
    ensures result_value { judge.said result ≡ verdict_on kind (parts_of version kind body.now) }
    ensures verdicts_after { verdicts.new ≡ set verdicts.old 0 (judge.number_in (judge.said result)) }
{
    let first = kind.answer_at(version);
    let last = first + kind.answer();
    let verdict = verdict::judge(kind, &body[..card::QUESTION], &body[first..last]);
    verdicts[0] = verdict.number();
    verdict
}
