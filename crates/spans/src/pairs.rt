// Pairs of letters, and the error count of a span.
ghost use Rattle.std.specs.Prelude.{◌≡◌, ◌+◌, ◌≤◌, ◌<◌, length};
ghost use Rattle.texts.specs.Work.{Sized};
ghost use Rattle.spans.specs.Palindromes.{one, differs, error_count};

use texts::Text;

// 1 where the letter at i is not the partner of the letter at j, else 0.
pub(crate) fn differ(text: Text, i: usize, j: usize) -> usize
    requires { (length text.map.now ≡ 256) × (i < length text.letters.now) × (j < length text.letters.now) }
    ensures { result ≡ one (differs text.entry.letters.now text.entry.map.now i j) }
{
    usize::from(text.letters[i] != text.map[usize::from(text.letters[j])])
}

// The error count of the span of len letters from a, from its outermost pair inward.
pub fn count_errors(text: Text, a: usize, len: usize) -> usize
    requires { Sized text × (a + len ≤ length text.letters.now) }
    ensures { result ≡ error_count text.entry.letters.now text.entry.map.now a len }
{
    let mut e = 0;
    for k in 0..len / 2 {
        e += differ(text, a + k, a + len - 1 - k);
    }
    let odd = len % 2 == 1;
    if odd {
        e += differ(text, a + len / 2, a + len / 2);
    }
    e
}
