// The bits that a page's timing can tell at most.
ghost use Rattle.std.specs.Prelude.{◌≡◌, ℕ, ◌+◌, ◌*◌, ◌<◌, ◌≤◌, length};
ghost use Rattle.promise.specs.Leaks.{Most, share, most_of, exponent};
ghost use Rattle.tally.specs.Bits.{row_bits, occurs_in, count};

use pace::Pace;

// The most misses that a class with this quantum can have in so many ticks: the largest n with
// quantum × (2^n − 1) at most the span.
fn most_misses(quantum: u32, span: u32) -> u32
    requires some { 1 ≤ quantum }
    requires within { span ≤ 1000000000 }
    ensures most { Most quantum span result }
    ensures few { result ≤ 29 }
{
    (span / quantum + 1).ilog2()
}

// The least b with 2^b at least rows + 1.
pub(crate) fn row_bits(rows: u32) -> u32
    requires { rows ≤ 50000 }
    ensures value { result ≡ row_bits rows }
    ensures few { result ≤ 16 }
{
    u32::BITS - rows.leading_zeros()
}

// What a class adds to the exponent: its most misses in the span if it occurs. The class is a place of a table, and the
// span lies within the horizon, as the account's facts say.
fn share<P: Pace>(quanta: &P, class: u8, occurs: bool, span: u32) -> u32
    requires known { «class» ≤ 7 }
    requires within { span ≤ 1000000000 }
    ensures value { result ≡ share (most_of (P.Pace.quanta quanta.now «class») span) occurs }
    ensures few { result ≤ 29 }
{
    if !occurs {
        return 0;
    }
    let Ok(quantum) = quanta.quantum(class) else {
        unreachable()
    };
    most_misses(quantum, span)
}

// One more than the sum of the most misses over the classes that occur.
pub(crate) fn exponent<P: Pace>(quanta: &P, occurs: &[bool; 8], span: u32) -> u32
    requires { span ≤ 1000000000 }
    ensures value { result ≡ exponent (P.Pace.quanta quanta.now) span (occurs_in occurs.now) }
    ensures few { result ≤ 233 }
{
    // Added in a `for`: of a sum whose items are answers of calls no bound is found.
    let mut e = 1;
    for (class, mark) in occurs.iter().enumerate() {
        e += share(quanta, class as u8, *mark, span);
    }
    e
}

// How many classes are marked.
pub(crate) fn marked(occurs: &[bool; 8]) -> u32
    ensures value { result ≡ count occurs.now }
    ensures few { result ≤ 8 }
{
    occurs.iter().filter(|mark| **mark).count() as u32
}
