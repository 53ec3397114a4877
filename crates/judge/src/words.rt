//! What the words of the command line ask for.
ghost use Rattle.std.specs.Prelude.{[], ◌∷◌, ◌↔◌, map, string_bytes, IsTrue};
ghost use Rattle.judge.specs.inner.Requests.{IsAsked, IsBare, IsCount};

/// A command of the program.
#[derive(Clone, Copy)]
pub(crate) enum Request {
    /// Judge the pair of each line.
    Check,
    /// Judge the pair of each line by draft 4.
    Check4,
    /// Encode the JSON text of each line.
    Encode,
    /// Judge this many pairs of the program's own, and count them.
    Make(u32),
}

const MOST_PAIRS: u32 = 100_000;

// What the words ask for, if anything.
pub(crate) fn read_words(words: &[String]) -> Option<Request>
    ensures { IsAsked (map string_bytes words.now) result }
{
    match words {
        [] => Some(Request::Check),
        [word] => read_word(word.as_str()),
        [word, count] => read_make(word.as_str(), count.as_str()),
        _ => None,
    }
}

// What one word asks for.
fn read_word(word: &str) -> Option<Request>
    ensures { IsAsked (word.now ∷ []) result }
{
    match word {
        "check" => Some(Request::Check),
        "check4" => Some(Request::Check4),
        "encode" => Some(Request::Encode),
        _ => None,
    }
}

// What two words ask for.
fn read_make(word: &str, count: &str) -> Option<Request>
    ensures { IsAsked (word.now ∷ count.now ∷ []) result }
{
    if word != "make" {
        return None;
    }
    let count = read_count(count)?;
    Some(Request::Make(count))
}

// The number from 1 to 100000 that a word of decimal digits writes, if the first is not 0.
fn read_count(word: &str) -> Option<u32>
    ensures { IsCount word.now result }
{
    if is_bare(word) {
        match word.parse::<u32>() {
            Ok(count) if count <= MOST_PAIRS => Some(count),
            _ => None,
        }
    } else {
        None
    }
}

// Whether a word begins neither with 0 nor with a sign.
fn is_bare(word: &str) -> bool
    ensures { IsTrue result ↔ IsBare word.now }
{
    !word.starts_with('0') && !word.starts_with('+')
}
