// How an unknown is searched for, apart from what is searched for: docs/RULES.md, The search.
//
// A search narrows a bracket: two points, each with its time, between which the wanted time lies.
// What the time of a guess is and what is found there is the caller's, who says it as a `Sought`.
// Every function is proved and total, NaN and infinities included, and the crate assumes nothing.
#![tactic(auto)]

ghost use Rattle.std.specs.Prelude.{◌≡◌, ℕ, Float};
ghost use Rattle.rows.specs.Rows.{Checked, checked};
ghost use Rattle.search.specs.Search.{limit_allowed, within, first_guess, narrowed_by, line_through, inside, middle_of, choose, next_guess, search_of};
ghost use Rattle.search.specs.Said.{said, ended};
ghost use Rattle.search.specs.Answers.{with_found, answer_of, answer_from, answered, refused_with};

// A guess or an end, with its time.
#[derive(Clone, Copy)]
pub struct Point {
    pub x: f64,
    pub time: f64,
}

#[derive(Clone, Copy)]
pub struct Bracket {
    pub lo: Point,
    pub hi: Point,
}

// How a search ends, with its count of guesses: near the wanted time; a bracket with nothing left
// inside; the limit reached; a time that is not finite.
#[derive(Clone, Copy)]
pub enum Found {
    Solved(f64, u32),
    Closed(Bracket, u32),
    Spent(Bracket, u32),
    Lost(u32),
}

// What was found: at x, by this many guesses.
#[derive(Clone, Copy)]
pub struct Solution<A> {
    pub x: f64,
    pub count: u32,
    pub found: A,
}

// A refusal, with the count of guesses; the bracket's ends come with reasons 9 and 10.
#[derive(Clone, Copy)]
pub struct Refusal<W> {
    pub why: W,
    pub count: u32,
    pub ends: Option<(f64, f64)>,
}

pub type Outcome<A, W> = Result<Solution<A>, Refusal<W>>;

// Why something is refused, with the number that the rules give it, and the three reasons of a
// search's own.
pub trait Why: Copy {
    ghost number: { Self → ℕ };

    // 6: a time that is not finite.
    fn lost() -> Self
        ensures { number result ≡ 6 };

    // 9: a bracket with nothing left inside.
    fn closed() -> Self
        ensures { number result ≡ 9 };

    // 10: the limit of guesses.
    fn spent() -> Self
        ensures { number result ≡ 10 };
}

// What is searched for: the x whose time is the wanted one, and what is found there.
pub trait Sought: Copy {
    type Found: Copy;

    type Reason: Why;

    ghost time_at: { Self → Float → Float };

    ghost wanted_time: { Self → Float };

    ghost found_at: { Self → Float → Checked Self.Found };

    fn time_at(self, x: f64) -> f64
        ensures { result ≡ time_at self x };

    fn wanted_time(self) -> f64
        ensures { result ≡ wanted_time self };

    fn found_at(self, x: f64) -> Result<Self::Found, Self::Reason>
        ensures { checked Self.Reason.number result ≡ found_at self x };
}

// The answer of a search: from what the tests before the first guess let pass, or their refusal.
pub fn answer<S: Sought>(
    entry: Result<(S, Bracket), S::Reason>,
    limit: u32,
) -> Outcome<S::Found, S::Reason>
    ensures { answered S.Reason.number result ≡ answer_from S.time_at S.wanted_time S.found_at limit (checked S.Reason.number entry) }
{
    match entry {
        Ok((o, start)) => settled(o, searched(o, o.wanted_time(), start, limit)),
        Err(why) => refused(why, 0, None),
    }
}

// The search: each guess is counted, and the bracket as it stood before the guess is kept for the
// extrapolation. One loop with a label, left by break: docs/RULES.md, The shape of each place 3.
fn searched<S: Sought>(o: S, t: f64, start: Bracket, limit: u32) -> Found
    ensures { ended result ≡ search_of (S.time_at o) t limit start }
{
    let mut bracket = start;
    let mut x = first(start, t);
    let mut count = 0u32;
    'search: loop {
        count += 1;
        let time = o.time_at(x);
        if !exact::finite(time) {
            break 'search Found::Lost(count);
        }
        if exact::near(time, t) {
            break 'search Found::Solved(x, count);
        }
        let guess = Point { x, time };
        let before = bracket;
        bracket = narrowed(before, guess, t);
        if limit <= count {
            break 'search Found::Spent(bracket, count);
        }
        let Some(onward) = next(before, guess, t) else {
            break 'search Found::Closed(bracket, count);
        };
        x = onward;
    }
}

// What the search's end comes to.
fn settled<S: Sought>(o: S, found: Found) -> Outcome<S::Found, S::Reason>
    ensures { answered S.Reason.number result ≡ answer_of (S.found_at o) (ended found) }
{
    match found {
        Found::Solved(x, count) => with_found(o.found_at(x), x, count),
        Found::Closed(b, count) => refused(S::Reason::closed(), count, Some((b.lo.x, b.hi.x))),
        Found::Spent(b, count) => refused(S::Reason::spent(), count, Some((b.lo.x, b.hi.x))),
        Found::Lost(count) => refused(S::Reason::lost(), count, None),
    }
}

// What is found at x after this many guesses, or its refusal.
pub fn with_found<A: Copy, W: Why>(found: Result<A, W>, x: f64, count: u32) -> Outcome<A, W>
    ensures { answered W.number result ≡ with_found x count (checked W.number found) }
{
    match found {
        Ok(found) => Ok(Solution { x, count, found }),
        Err(why) => refused(why, count, None),
    }
}

fn refused<A: Copy, W: Why>(why: W, count: u32, ends: Option<(f64, f64)>) -> Outcome<A, W>
    ensures { answered W.number result ≡ refused_with (W.number why) count ends }
{
    Err(Refusal { why, count, ends })
}

// Whether a search may be given this limit of guesses: 1 to 100.
pub fn allows(limit: u32) -> bool
    ensures { result ≡ limit_allowed limit }
{
    (1 <= limit) & (limit <= 100)
}

// Whether x lies in the bracket, ends included; a NaN does not.
pub fn contains(b: Bracket, x: f64) -> bool
    ensures { result ≡ within b x }
{
    (b.lo.x <= x) & (x <= b.hi.x)
}

// The first guess: t where the bracket contains it, else the middle.
#[tactic(auto, unfolding(crate::specs::Search::first_guess))]
pub fn first(b: Bracket, t: f64) -> f64
    ensures { result ≡ first_guess b t }
{
    if contains(b, t) { t } else { middle(b) }
}

// Step 3: the bracket in which the guess has taken the place of one end.
#[tactic(auto, unfolding(crate::specs::Search::narrowed_by))]
pub fn narrowed(b: Bracket, guess: Point, t: f64) -> Bracket
    ensures { result ≡ narrowed_by b guess t }
{
    let lo = b.lo;
    let hi = b.hi;
    if guess.time < t {
        Bracket { lo: guess, hi }
    } else {
        Bracket { lo, hi: guess }
    }
}

// Step 5, from the bracket as it stood before step 3: the end that the guess replaced is the one
// that the extrapolation goes by.
#[tactic(auto, unfolding(crate::specs::Search::next_guess))]
pub fn next(b: Bracket, guess: Point, t: f64) -> Option<f64>
    ensures { said result ≡ next_guess b guess t }
{
    let new = narrowed(b, guess, t);
    let lo = line(guess, b.lo, t);
    let hi = line(guess, b.hi, t);
    if guess.time < t {
        chosen(new, lo, hi)
    } else {
        chosen(new, hi, lo)
    }
}

// The first of the extrapolation, the interpolation and the middle that lies strictly inside.
fn chosen(new: Bracket, extrapolated: f64, interpolated: f64) -> Option<f64>
    ensures { said result ≡ choose new extrapolated interpolated (middle_of new) }
{
    if strictly(new, extrapolated) {
        return Some(extrapolated);
    }
    if strictly(new, interpolated) {
        return Some(interpolated);
    }
    let between = middle(new);
    if strictly(new, between) {
        return Some(between);
    }
    None
}

// Where the line through the guess and an end of a bracket reaches the time t.
fn line(guess: Point, end: Point, t: f64) -> f64
    ensures { result ≡ line_through guess end t }
{
    guess.x + ((t - guess.time) / (guess.time - end.time)) * (guess.x - end.x)
}

fn middle(b: Bracket) -> f64
    ensures { result ≡ middle_of b }
{
    b.lo.x + (b.hi.x - b.lo.x) / 2.0
}

// Whether x lies strictly inside the bracket; a NaN does not.
fn strictly(b: Bracket, x: f64) -> bool
    ensures { result ≡ inside b x }
{
    (b.lo.x < x) & (x < b.hi.x)
}
