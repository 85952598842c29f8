// Tables of signed words in bytes, four little-endian bytes a word, from the first byte on. Every call is allowed: past the end of the bytes a word
// reads as 0, and a byte that is not there is not set.
#![tactic(auto)]

ghost use Rattle.std.specs.Prelude.{◌≡◌, ◌*◌, length};
ghost use Rattle.word_bytes.specs.Bytes.{word_of, with_word};
ghost use Rattle.word_lists.specs.WordLists.{words_from, with_words};

// So many bytes are a word.
pub const WORD_BYTES: usize = 4;

// The word of that number. The number is compared with the words that there are, since four times it may not fit, and so that a word past them costs no more
// than that.
fn word_of(bytes: &[u8], number: usize) -> i32
    ensures { result ≡ word_of bytes.now (number * 4) }
{
    if bytes.len() / WORD_BYTES < number {
        return 0;
    }
    word_bytes::word(bytes, number * WORD_BYTES)
}

// Sets the word of that number.
fn put_word_of(bytes: &mut [u8], number: usize, word: i32)
    ensures { bytes.new ≡ with_word bytes.old (number * 4) word }
{
    if bytes.len() / WORD_BYTES < number {
        return;
    }
    stored_words::put_word(bytes, number * WORD_BYTES, word);
}

// Fills a table with the words of the bytes.
pub fn read_words(bytes: &[u8], table: &mut [i32])
    ensures { table.new ≡ words_from bytes.now 0 (length table.old) }
{
    for (number, entry) in table.iter_mut().enumerate() {
        *entry = word_of(bytes, number);
    }
}

// Puts the words of a table into the bytes.
pub fn write_words(table: &[i32], bytes: &mut [u8])
    ensures { bytes.new ≡ with_words bytes.old 0 table.now }
{
    for (number, word) in table.iter().enumerate() {
        put_word_of(bytes, number, *word);
    }
}
