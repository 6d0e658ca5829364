// C2 and C3: docs/RULES.md, The universal functions 1 to 4 and 9. One loop works both, from k = 11 down.
ghost use Rattle.std.specs.Prelude.{◌≡◌};
ghost use Rattle.rows.specs.Rows.{stated};
ghost use Rattle.universal.specs.Series.{worked, in_range, out_of_range, series_by, series_of, sum_or_nan, sums_or_nans};

// The largest |z| for which twelve terms are good.
const RANGE: f64 = 4.0;

// The number of the refusal beyond it.
const OUT_OF_RANGE: u32 = 60;

// The binary64 numbers nearest 1/2!, 1/4!, .. 1/24!. Two tables, here and below: docs/RULES.md, The shape of each
// place 6.
const EVEN: [f64; 12] = [
    0.5,
    0.041666666666666664,
    0.001388888888888889,
    2.48015873015873e-05,
    2.755731922398589e-07,
    2.08767569878681e-09,
    1.1470745597729725e-11,
    4.779477332387385e-14,
    1.5619206968586225e-16,
    4.110317623312165e-19,
    8.896791392450574e-22,
    1.6117375710961184e-24,
];

// The binary64 numbers nearest 1/3!, 1/5!, .. 1/25!.
const ODD: [f64; 12] = [
    0.16666666666666666,
    0.008333333333333333,
    0.0001984126984126984,
    2.7557319223985893e-06,
    2.505210838544172e-08,
    1.6059043836821613e-10,
    7.647163731819816e-13,
    2.8114572543455206e-15,
    8.22063524662433e-18,
    1.9572941063391263e-20,
    3.868170170630684e-23,
    6.446950284384474e-26,
];

// Both sums.
#[derive(Clone, Copy)]
pub struct Pair {
    pub c2: f64,
    pub c3: f64,
}

// The refusal's number. A number, and no error of one value: the line of the series alone tells it, and an
// Option says that there is no sum.
pub fn refusal() -> u32
    ensures { result ≡ out_of_range }
{
    OUT_OF_RANGE
}

// C2, worked at z; none where z is not in the range. It and C3 are `ranged` with a table each.
pub fn c2(z: f64) -> Option<f64>
    ensures { stated out_of_range result ≡ series_of 2 z }
{
    ranged(EVEN, z)
}

pub fn c3(z: f64) -> Option<f64>
    ensures { stated out_of_range result ≡ series_of 3 z }
{
    ranged(ODD, z)
}

// Both at once for a time, in which a sum that is refused stands as NaN.
pub fn both_or_nan(z: f64) -> Pair
    ensures { result ≡ sums_or_nans z }
{
    Pair {
        c2: or_nan(EVEN, z),
        c3: or_nan(ODD, z),
    }
}

// The sum is worked in either case: a choice at the end keeps the steps in one line, and a time quick.
#[tactic(auto, unfolding(rows::specs::Rows::must))]
fn ranged(table: [f64; 12], z: f64) -> Option<f64>
    ensures { stated out_of_range result ≡ series_by table z }
{
    in_range(z).then_some(horner(table, z))
}

// A sum that is refused is NaN.
fn or_nan(table: [f64; 12], z: f64) -> f64
    ensures { result ≡ sum_or_nan (series_by table z) }
{
    ranged(table, z).unwrap_or(0.0 / 0.0)
}

// |z| ≤ 4, which is false of NaN.
fn in_range(z: f64) -> bool
    ensures { result ≡ in_range z }
{
    exact::absolute(z) <= RANGE
}

// The last coefficient, then again and again times -z and the next one added.
fn horner(table: [f64; 12], z: f64) -> f64
    ensures { result ≡ worked table z }
{
    let mut sum = table[11];
    for c in table[..11].iter().rev() {
        sum = sum * -z + *c;
    }
    sum
}
