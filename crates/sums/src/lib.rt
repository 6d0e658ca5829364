// The line of C2 and C3 at z, as `series` writes it. docs/RULES.md, Lines 7.
//
// The function here is proved and total, and the crate assumes nothing.
#![tactic(auto)]

ghost use Rattle.std.specs.Prelude.{◌≡◌};
ghost use Rattle.rows.specs.Rows.{stated};
ghost use Rattle.pieces.specs.Page.{written};
ghost use Rattle.universal.specs.Series.{out_of_range};
ghost use Rattle.sums.specs.Sums.{sums_at, sums_line};

use pieces::Page;

// `series C2 C3` or `refused NUMBER`, in a page, as far as it goes.
#[tactic(auto, using(pieces::proofs::Pages::pages))]
pub fn put(z: f64, page: &mut Page)
    ensures { page.new ≡ written page.old (sums_line (sums_at z)) }
{
    let Some((c2, c3)) = both(z) else {
        return sheets::put_refusal(universal::series::refusal(), page);
    };
    pieces::put(page, b"series");
    text::number(page, c2);
    text::number(page, c3);
    pieces::put(page, b"\n");
}

// Both sums; none where one is refused.
#[tactic(auto, unfolding(crate::specs::Sums::sums_at, rows::specs::Rows::onward))]
fn both(z: f64) -> Option<(f64, f64)>
    ensures { stated out_of_range result ≡ sums_at z }
{
    let c2 = universal::series::c2(z)?;
    let c3 = universal::series::c3(z)?;
    Some((c2, c3))
}
