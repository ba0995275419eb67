// The figures of a fleet: how many numbers there are, the least, the median, the greatest, and their mean with what is left of the sum. Nothing is
// rounded, and no sum of all the numbers is made, since it may not fit.
#![tactic(auto)]

ghost use Rattle.std.specs.Prelude.{◌≡◌, cond, ◌+◌, ◌*◌, ◌^◌, ◌/◌, ◌%◌, ◌≤◌, ◌<◌, min, max, leb, length};
ghost use Rattle.fleet.specs.Figures.{least_of, greatest_of, total_of, within, half_within, median_of, summary_of};

// What is said of the numbers; all of it is 0 where there are none.
#[derive(Clone, Copy, PartialEq, Eq)]
pub struct Summary {
    pub count: usize,
    pub least: u64,
    pub median: u64,
    pub greatest: u64,
    pub mean: u64,
    pub remainder: u64,
}

// Stays: by places, as the wrong build `second_skipped` plants another place from which the walk goes on, and in `iter().copied().min()` no place stands.
fn least(figures: &[u64]) -> u64
    ensures { result ≡ least_of figures.now }
{
    if figures.len() == 0 {
        return 0;
    }
    let mut low = figures[0];
    for next in 1..figures.len() {
        low = low.min(figures[next]);
    }
    low
}

fn greatest(figures: &[u64]) -> u64
    ensures { result ≡ greatest_of figures.now }
{
    figures.iter().copied().max().unwrap_or(0)
}

// How many don't exceed `most`. Each number is added as 0 or 1: `filter` and `count` would be a branch on every number, and `median` counts once for each.
fn count_within(figures: &[u64], most: u64) -> usize
    ensures { (result ≡ within most figures.now) × (result ≤ length figures.now) }
{
    let mut count = 0;
    for x in figures {
        count += basics::one_if(*x <= most) as usize;
    }
    count
}

// Whether so many are at least half of all; without twice as many, which may not fit.
fn is_half(count: usize, all: usize) -> bool
    requires { count ≤ all }
    ensures { result ≡ leb all (2 * count) }
{
    all - count <= count
}

// At least half of the numbers don't exceed x.
fn is_half_within(figures: &[u64], x: u64) -> bool
    ensures { result ≡ half_within figures.now x }
{
    is_half(count_within(figures, x), figures.len())
}

// The least of the numbers that at least half of them don't exceed.
fn median(figures: &[u64]) -> u64
    ensures { result ≡ median_of figures.now }
{
    figures
        .iter()
        .copied()
        .filter(|x| is_half_within(figures, *x))
        .min()
        .unwrap_or(0)
}

// The sum of some of n numbers as n times the mean, and what is left.
#[derive(Clone, Copy)]
struct Share {
    mean: u64,
    remainder: u64,
}

// The share with one number more; what is left is carried where it comes to n, and never added up beyond it.
fn with_figure(share: Share, n: u64, x: u64) -> Share
    requires { (share.remainder < n) × ((share.mean * n + share.remainder + x) / n < 2 ^ 64) }
    ensures { (result.remainder < n) × (result.mean * n + result.remainder ≡ share.mean * n + share.remainder + x) }
{
    let lacking = n - x % n;
    if share.remainder < lacking {
        return Share {
            mean: share.mean + x / n,
            remainder: share.remainder + x % n,
        };
    }
    Share {
        mean: share.mean + x / n + 1,
        remainder: share.remainder - lacking,
    }
}

// The mean, rounded down, and what is left of the sum.
fn share_of(figures: &[u64]) -> Share
    ensures { (result.mean ≡ total_of figures.now / length figures.now) × (result.remainder ≡ total_of figures.now % length figures.now) }
{
    let mut share = Share {
        mean: 0,
        remainder: 0,
    };
    for &x in figures {
        share = with_figure(share, figures.len() as u64, x);
    }
    share
}

// What is said of the numbers that are lent.
pub fn summarize(figures: &[u64]) -> Summary
    ensures { result ≡ summary_of figures.now }
{
    let share = share_of(figures);
    Summary {
        count: figures.len(),
        least: least(figures),
        median: median(figures),
        greatest: greatest(figures),
        mean: share.mean,
        remainder: share.remainder,
    }
}
