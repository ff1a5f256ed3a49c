// 16-bit numbers in bytes, low byte first; entries of tables; the twin of a dart.
#![tactic(auto)]

ghost use Rattle.std.specs.Prelude.{◌≡◌, ◌+◌, ◌<◌, ◌≤◌, length, set};
ghost use Rattle.rules.specs.Words.{u16 as word_at};
ghost use Rattle.drawing.specs.Drawing.{twin as other_dart};
ghost use Rattle.words.specs.Tables.{nth, with_word};

// The number in the bytes i and i + 1 of s.
pub fn word(s: &[u8], i: usize) -> usize
    requires { i + 1 < length s.now }
    ensures { result ≡ word_at s.now i }
{
    usize::from(u16::from_le_bytes([s[i], s[i + 1]]))
}

// Stores the number v in the bytes i and i + 1 of s.
pub fn put_word(s: &mut [u8], i: usize, v: usize)
    requires { (i + 1 < length s.old) × (v < 65536) }
    ensures { s.new ≡ with_word s.old i v }
{
    s[i] = (v % 256) as u8;
    s[i + 1] = (v / 256) as u8;
}

// Entries of tables, as numbers of the size that code counts in: said here once, `usize::from(t[i])` and `t[i] = x as u16` are no plainer in ninety places.

// Entry i of the table t.
pub fn get(t: &[u16], i: usize) -> usize
    requires { i < length t.now }
    ensures { result ≡ nth t.now i }
{
    usize::from(t[i])
}

// Stores x as entry i of the table t.
pub fn put(t: &mut [u16], i: usize, x: usize)
    requires { (i < length t.old) × (x < 65536) }
    ensures { t.new ≡ set t.old i x }
{
    t[i] = x as u16;
}

// 1 where a is below b, else 0: a count that goes on without a branch.
pub fn below(a: usize, b: usize) -> usize
    ensures { (a < b → result ≡ 1) × (b ≤ a → result ≡ 0) × (result < 2) }
{
    usize::from(a < b)
}

// The other dart of the arrow of d: the lowest bit turned over, without a branch on it.
pub fn twin(d: usize) -> usize
    requires { d < 65536 }
    ensures { result ≡ other_dart d }
{
    d / 2 * 2 + 1 - d % 2
}
