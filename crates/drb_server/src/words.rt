//! The words of the command `stdio`.

ghost use Rattle.std.specs.Prelude.{◌≡◌, ◌↔◌, ◌<◌, ◌≤◌, ◌^◌, ℕ, [], map, length, codes, string_bytes, Some, None, IsTrue, IfSome, option_map, option_copied, option_to_list};
ghost use Rattle.std.specs.Char.{is_ascii_digit};
ghost use Rattle.std.specs.List.{AllPass};
ghost use Rattle.std.specs.Str.Parse.{AllDigits, digits_value};
ghost use Rattle.drb_server.specs.Words.{IsNumber, IsPlace, IsOnly, Options, Means, options as set, default_uri};
ghost use Rattle.drb_server.specs.Named.{named, Sets, Takes};

use drb_ref::parse_uri;

/// What the words of `drbts stdio` set.
#[derive(Clone, Copy)]
pub struct Setup<'a> {
    /// The server's own uri.
    pub uri: &'a str,
    /// How many turns the history may have.
    pub max_turns: u64,
    /// The load limit, in bytes.
    pub load_limit: u32,
}

/// The options that were named so far.
#[derive(Clone, Copy)]
struct Named<'a> {
    uri: Option<&'a str>,
    turns: Option<u64>,
    load: Option<u32>,
}

/// What the words set; None exactly where they are not words of the command.
///
/// They are `stdio` and then, in any order and each at most once, `--uri U`, `--max-turns N` and `--load-limit N`. No
/// memory is taken. Source: docs/SESSIONS.md, The command.
pub fn read_words(words: &[String]) -> Option<Setup<'_>>
    ensures { (o : Options) → Means (map (λ w. string_bytes w) words.now) o
        ↔ option_map (λ x. set x.uri.now x.max_turns x.load_limit) result ≡ Some o }
{
    let (first, rest) = words.split_first()?;
    if !is_word(first.as_str(), "stdio") {
        return None;
    }
    read_options(rest)
}

/// The options that these words name, and the defaults of all others.
fn read_options(words: &[String]) -> Option<Setup<'_>>
    ensures { (o : Options) → Sets (map (λ w. string_bytes w) words.now) (named None None None) o
        ↔ option_map (λ x. set x.uri.now x.max_turns x.load_limit) result ≡ Some o }
{
    let mut named = Named {
        uri: None,
        turns: None,
        load: None,
    };
    let mut rest = words;
    while let Some((name, behind)) = rest.split_first() {
        let (word, after) = behind.split_first()?;
        if !named.take(name.as_str(), word.as_str()) {
            return None;
        }
        rest = after;
    }
    Some(named.setup())
}

impl<'a> Named<'a> {
    /// Takes an option by its two words, where it is one, and wasn't named before.
    fn take(&mut self, name: &str, word: &'a str) -> bool
        ensures { Takes name.now word.now
            (named (option_copied self.old.uri) self.old.turns self.old.load)
            (named (option_copied self.new.uri) self.new.turns self.new.load) result }
    {
        if is_word(name, "--uri") {
            self.take_uri(word)
        } else if is_word(name, "--max-turns") {
            self.take_turns(word)
        } else if is_word(name, "--load-limit") {
            self.take_load(word)
        } else {
            false
        }
    }

    fn take_uri(&mut self, word: &'a str) -> bool
        ensures { Takes (codes "--uri") word.now
            (named (option_copied self.old.uri) self.old.turns self.old.load)
            (named (option_copied self.new.uri) self.new.turns self.new.load) result }
    {
        if self.uri.is_some() {
            return false;
        }
        if !is_place(word) {
            return false;
        }
        self.uri = Some(word);
        true
    }

    fn take_turns(&mut self, word: &str) -> bool
        ensures { Takes (codes "--max-turns") word.now
            (named (option_copied self.old.uri) self.old.turns self.old.load)
            (named (option_copied self.new.uri) self.new.turns self.new.load) result }
    {
        if self.turns.is_some() {
            return false;
        }
        self.turns = number_in(word, 1, 4_000_000);
        self.turns.is_some()
    }

    fn take_load(&mut self, word: &str) -> bool
        ensures { Takes (codes "--load-limit") word.now
            (named (option_copied self.old.uri) self.old.turns self.old.load)
            (named (option_copied self.new.uri) self.new.turns self.new.load) result }
    {
        if self.load.is_some() {
            return false;
        }
        self.load = load_in(word);
        self.load.is_some()
    }

    /// All that is set, where nothing more is named.
    fn setup(self) -> Setup<'a>
        ensures { (o : Options) →
            Sets [] (named (option_copied self.entry.uri) self.entry.turns self.entry.load) o
            ↔ set result.uri.now result.max_turns result.load_limit ≡ o }
    {
        Setup {
            uri: uri_of(self.uri),
            max_turns: self.turns.unwrap_or(4_000_000),
            load_limit: self.load.unwrap_or(26_214_400),
        }
    }
}

/// The server's own uri: the one that was named, or the default.
fn uri_of(given: Option<&str>) -> &str
    ensures { IsOnly default_uri (option_to_list (option_copied given.entry)) result.now }
{
    match given {
        Some(uri) => uri,
        None => "druby://127.0.0.1:8787",
    }
}

fn is_word(word: &str, other: &str) -> bool
    ensures { IsTrue result ↔ word.now ≡ other.now }
{
    word == other
}

/// Whether a word is a uri.
pub(crate) fn is_place(word: &str) -> bool
    ensures { IsTrue result ↔ IsPlace word.now }
{
    match parse_uri(word.as_bytes()) {
        Ok(_) => true,
        Err(_) => false,
    }
}

/// A load limit: a number from 64 to 1,073,741,823.
pub(crate) fn load_in(word: &str) -> Option<u32>
    ensures number { IfSome result (λ n. IsNumber 64 1073741823 word.now n) }
    ensures every { (n : ℕ) → IsNumber 64 1073741823 word.now n → result ≡ Some n }
{
    match number_in(word, 64, 1_073_741_823) {
        Some(number) => Some(number as u32),
        None => None,
    }
}

/// The number from the least to the greatest that 1 to 10 digits write.
pub(crate) fn number_in(word: &str, least: u64, greatest: u64) -> Option<u64>
    ensures number { IfSome result (λ n. IsNumber least greatest word.now n) }
    ensures every { (n : ℕ) → IsNumber least greatest word.now n → result ≡ Some n }
{
    if word.len() > 10 {
        return None;
    }
    if !are_digits(word) {
        return None;
    }
    within(value_of(word), least, greatest)
}

fn are_digits(digits: &str) -> bool
    ensures { IsTrue result ↔ AllPass is_ascii_digit digits.now }
{
    digits.as_bytes().iter().all(|b| b.is_ascii_digit())
}

/// The number that these digits write, where there are some and it has 64 bits.
fn value_of(digits: &str) -> Option<u64>
    requires { AllDigits 10 digits.now }
    ensures value { IfSome result (λ number. (0 < length digits.now)
        × (number ≡ digits_value 10 digits.now)) }
    ensures every { 0 < length digits.now → digits_value 10 digits.now < 2 ^ 64
        → result ≡ Some (digits_value 10 digits.now) }
{
    match digits.parse::<u64>() {
        Ok(number) => Some(number),
        Err(_) => None,
    }
}

fn within(number: Option<u64>, least: u64, greatest: u64) -> Option<u64>
    ensures within { IfSome result (λ n. (number ≡ Some n) × (least ≤ n) × (n ≤ greatest)) }
    ensures every { (n : ℕ) → number ≡ Some n → least ≤ n → n ≤ greatest → result ≡ Some n }
{
    match number {
        Some(n) => {
            if least <= n && n <= greatest {
                Some(n)
            } else {
                None
            }
        }
        None => None,
    }
}
