use std::str::{FromStr, SplitWhitespace};

// The words of a line, one after the other.
#[derive(Drop)]
pub struct Tokens<'a> {
    words: SplitWhitespace<'a>,
}

impl<'a> From<&'a str> for Tokens<'a> {
    fn from(line: &'a str) -> Tokens<'a> {
        Tokens {
            words: line.split_whitespace(),
        }
    }
}

impl<'a> Tokens<'a> {
    pub(crate) fn next(&mut self) -> Option<&'a str> {
        self.words.next()
    }

    // The next word, where it is this one.
    pub(crate) fn word(&mut self, expected: &str) -> Option<()> {
        (self.next()? == expected).then_some(())
    }

    // The next word as a number, which has digits alone.
    pub(crate) fn number<T: FromStr>(&mut self) -> Option<T>
    where
        T::Err: Drop,
    {
        number_of(self.next()?)
    }

    // The number after this word.
    pub(crate) fn after<T: FromStr>(&mut self, name: &str) -> Option<T>
    where
        T::Err: Drop,
    {
        self.word(name)?;
        self.number()
    }

    // Whether no word is left. A word that is left is taken.
    pub(crate) fn at_end(&mut self) -> bool {
        self.next().is_none()
    }
}

// A word as a number, which has digits alone.
pub(crate) fn number_of<T: FromStr>(word: &str) -> Option<T>
where
    T::Err: Drop,
{
    if begins_with_digit(word) {
        word.parse::<T>().ok()
    } else {
        None
    }
}

pub(crate) fn begins_with_digit(text: &str) -> bool {
    text.as_bytes()
        .first()
        .is_some_and(|byte| byte.is_ascii_digit())
}

// A mask of participants: hexadecimal digits, after 0x or alone.
pub fn mask_of(word: &str) -> Option<u64> {
    let digits = word.strip_prefix("0x").unwrap_or(word);
    if digits.starts_with("+") {
        return None;
    }
    u64::from_str_radix(digits, 16).ok()
}
