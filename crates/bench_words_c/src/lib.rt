// The exports of bench_words for a program in C: the bench.
#![tactic(auto)]

ghost use Rattle.std.specs.Prelude.{◌≡◌};
ghost use Rattle.bench_words.specs.InnerSums.{words_sum};

// The words of a list, each a place and a table's number, by a scan: the sum of their entries and of the places after them.
#[unsafe(no_mangle)]
pub extern "C" fn oarcradler_bench_scan(bytes: &[u8], end: u32, words: &[u32]) -> u32
    ensures { result ≡ words_sum bytes.now end words.now }
{
    bench_words::oarcradler_bench_scan(bytes, end, words)
}

// The words of a list, each a place and a table's number, by lookup: the sum of their entries and of the places after them.
#[unsafe(no_mangle)]
pub extern "C" fn oarcradler_bench_lookup(bytes: &[u8], end: u32, words: &[u32]) -> u32
    ensures { result ≡ words_sum bytes.now end words.now }
{
    bench_words::oarcradler_bench_lookup(bytes, end, words)
}
