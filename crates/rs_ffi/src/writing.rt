//! Functions that write texts of words and decimal numbers into a buffer, as far as they fit. They allocate nothing.
ghost use Rattle.std.specs.Prelude.{◌≡◌, ℕ, ◌+◌, ◌≤◌, List, ◌++◌, length, decimal};
ghost use Rattle.rs_ffi.specs.Texts.{text_over, WritesText};

// Writes a piece of a text into the buffer `room`, after the first `at` bytes of the text, as much of the piece as
// fits. Returns the place in the text where the piece ends.
fn put_bytes(room: &mut [u8], at: usize, piece: &[u8]) -> usize
    requires { at + length piece.now ≤ 65536 }
    ensures end { result ≡ at + length piece.now }
    ensures written { (text old : List ℕ) → length text ≡ at → room.old ≡ text_over text old
        → room.new ≡ text_over (text ++ piece.now) old }
{
    if at < room.len() {
        let fits = piece.len().min(room.len() - at);
        room[at..at + fits].copy_from_slice(&piece[..fits]);
    }
    at + piece.len()
}

// Writes words into the buffer `room`, after the first `at` bytes of a text, as much as fits. Returns the place in the
// text where the words end.
fn put(room: &mut [u8], at: usize, words: &str) -> usize
    requires { at + length words.now ≤ 65536 }
    ensures end { result ≡ at + length words.now }
    ensures written { (text old : List ℕ) → length text ≡ at → room.old ≡ text_over text old
        → room.new ≡ text_over (text ++ words.now) old }
{
    put_bytes(room, at, words.as_bytes())
}

// Writes the decimal digits of a number into the buffer `room`, after the first `at` bytes of a text, as many as fit.
// Returns the place in the text where the digits end. The function calls itself to write all digits but the last one.
fn put_number(room: &mut [u8], at: usize, number: usize) -> usize
    requires { at ≤ 65000 }
    ensures end { (result ≡ at + length (decimal number)) × (result ≤ at + 20) }
    ensures written { (text old : List ℕ) → length text ≡ at → room.old ≡ text_over text old
        → room.new ≡ text_over (text ++ decimal number) old }
{
    let digit = b'0' + (number % 10) as u8;
    if number < 10 {
        return put_bytes(room, at, &[digit]);
    }
    let end = put_number(room, at, number / 10);
    put_bytes(room, end, &[digit])
}

/// Writes words into the buffer `room`, as much as fits, and returns the length of the words.
pub fn write_words(room: &mut [u8], words: &str) -> usize
    requires { length words.now ≤ 100 }
    ensures { WritesText words.now room.old room.new result }
{
    put(room, 0, words)
}

/// Writes words, a number and words into the buffer `room`, as much as fits, and returns the length of the whole text.
pub fn write_one(room: &mut [u8], first: (&str, usize), end: &str) -> usize
    requires first { length first.0.now ≤ 100 }
    requires end { length end.now ≤ 100 }
    ensures { WritesText (first.entry.0.now ++ decimal first.entry.1 ++ end.now)
        room.old room.new result }
{
    let at = put(room, 0, first.0);
    let at = put_number(room, at, first.1);
    put(room, at, end)
}

/// Writes words with two numbers into the buffer `room`, as much as fits, and returns the length of the whole text.
pub fn write_two(room: &mut [u8], first: (&str, usize), second: (&str, usize), end: &str) -> usize
    requires first { length first.0.now ≤ 100 }
    requires second { length second.0.now ≤ 100 }
    requires end { length end.now ≤ 100 }
    ensures { WritesText
        (first.entry.0.now ++ decimal first.entry.1 ++ second.entry.0.now ++ decimal second.entry.1
        ++ end.now)
        room.old room.new result }
{
    let at = put(room, 0, first.0);
    let at = put_number(room, at, first.1);
    let at = put(room, at, second.0);
    let at = put_number(room, at, second.1);
    put(room, at, end)
}

/// Writes words with three numbers into the buffer `room`, as much as fits, and returns the length of the whole text.
pub fn write_three(
    room: &mut [u8],
    first: (&str, usize),
    second: (&str, usize),
    third: (&str, usize),
    end: &str,
) -> usize
    requires first { length first.0.now ≤ 100 }
    requires second { length second.0.now ≤ 100 }
    requires third { length third.0.now ≤ 100 }
    requires end { length end.now ≤ 100 }
    ensures { WritesText
        (first.entry.0.now ++ decimal first.entry.1 ++ second.entry.0.now ++ decimal second.entry.1
        ++ third.entry.0.now ++ decimal third.entry.1 ++ end.now)
        room.old room.new result }
{
    let at = put(room, 0, first.0);
    let at = put_number(room, at, first.1);
    let at = put(room, at, second.0);
    let at = put_number(room, at, second.1);
    let at = put(room, at, third.0);
    let at = put_number(room, at, third.1);
    put(room, at, end)
}
