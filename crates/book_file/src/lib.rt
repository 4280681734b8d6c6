// The words of book.dat (document 01, section The program claimrun), read from its bytes.
#![tactic(auto)]

ghost use Rattle.std.specs.Prelude.{◌≡◌, ◌+◌, ◌*◌, ◌≤◌, length, drop};
ghost use Rattle.book_file.specs.BookFile.{words_in, calendar_in, tables_in, day_in};

// Fills words with those that stand in bytes from a place on.
fn take_words(bytes: &[u8], at: usize, words: &mut [u32])
    requires { at + 4 * length words.old ≤ length bytes.now }
    ensures { words.new ≡ words_in (length words.old) (drop at bytes.now) }
{
    for i in 0..words.len() {
        words[i] = reading::u32_at(bytes, at + 4 * i);
    }
}

// Fills the calendar and the tables from the bytes of book.dat, and answers the opening's day.
pub fn load(bytes: &[u8], calendar: &mut [u32], tables: &mut [u32]) -> u32
    requires { (9220 ≤ length bytes.now) × (length calendar.old ≡ 480) × (length tables.old ≡ 1824) }
    ensures { (calendar.new ≡ calendar_in bytes.now) × (tables.new ≡ tables_in bytes.now)
        × (result ≡ day_in bytes.now) }
{
    take_words(bytes, 0, calendar);
    take_words(bytes, 1920, tables);
    reading::u32_at(bytes, 9216)
}
