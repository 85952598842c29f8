// Signed 32-bit words at the edge: here they become natural numbers, with which all that judges or plans works.
// Each takes the slice and the place, and a place outside the slice reads as 0, as `word_at` has it, so that any call is allowed.
#![tactic(auto)]

ghost use Rattle.std.specs.Prelude.{◌≡◌, pos};
ghost use Rattle.std.specs.Int.Signed.{lt_z};
ghost use Rattle.words.specs.Words.{word_at, natural as natural_of, is_minus_one};

// The word at a place; outside the table, 0.
fn word_at(table: &[i32], at: usize) -> i32
    ensures { result ≡ word_at table.now at }
{
    table.get(at).copied().unwrap_or(0)
}

// The word as a natural number; a negative one stands as 4,294,967,295, which is above every limit. An option would be turned
// into that number again at each limit: the definitions of rows, touches and uses go by it. It is a test and a cast, since with
// `u32::try_from(..).unwrap_or(..)` each word costs three instructions more, and the inspector's scan of pairs a fifth.
pub fn natural(table: &[i32], at: usize) -> u32
    ensures { result ≡ natural_of (word_at table.now at) }
{
    let word = word_at(table, at);
    if word < 0 {
        return u32::MAX;
    }
    word as u32
}

// Whether the word is -1.
pub fn is_minus_one(table: &[i32], at: usize) -> bool
    ensures { result ≡ is_minus_one (word_at table.now at) }
{
    word_at(table, at) == -1
}

// Whether the word is below 0.
pub fn is_negative(table: &[i32], at: usize) -> bool
    ensures { result ≡ lt_z (word_at table.now at) (pos 0) }
{
    word_at(table, at) < 0
}
