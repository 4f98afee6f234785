// Names, strings, runs, and the next token of a place where the grammar is read.
ghost use Rattle.std.specs.Prelude.{◌≡◌};
ghost use Rattle.text.specs.Answer.{reached, told};
ghost use Rattle.text.specs.Token.{name_end, name_at, string_end, string_at, run_end, number_at, is_begin, is_end, mark_at, token_at, next_token};

use crate::blank::token_ends;
use crate::bytes::{in_name, is_allowed, is_inner, pair_at, same_part, starts_name, starts_number};
use crate::cursor::{Cursor, Refusal, Token};

// The most bytes that a name has.
pub const NAME_BYTES: usize = 128;

// The end of a name's bytes.
pub fn name_end(s: &[u8], at: usize) -> usize
    ensures { result ≡ name_end s.now at }
{
    for i in at..s.len() {
        if !in_name(s[i]) {
            return i;
        }
    }
    at.max(s.len())
}

// Whether the bytes from k up to e are `/begin`.
#[tactic(auto, unfolding(crate::specs::Token::is_begin))]
pub fn is_begin(s: &[u8], k: usize, e: usize) -> bool
    ensures { result ≡ is_begin s.now k e }
{
    same_part(s, k, e, b"/begin", 0, 6)
}

// Whether the bytes from k up to e are `/end`.
#[tactic(auto, unfolding(crate::specs::Token::is_end))]
pub fn is_end(s: &[u8], k: usize, e: usize) -> bool
    ensures { result ≡ is_end s.now k e }
{
    same_part(s, k, e, b"/end", 0, 4)
}

impl Cursor {
    // The name at the cursor.
    pub fn name(self, s: &[u8]) -> Result<Token, Refusal>
        ensures { told result ≡ name_at s.now self.at }
    {
        let at = self.at;
        let e = name_end(s, at);
        if e - at <= NAME_BYTES && token_ends(s, e) {
            return Ok(Token::Name {
                start: at,
                next: Cursor { at: e },
            });
        }
        Err(Refusal { no: 1, place: at })
    }

    // Past the string whose first quote stands at the cursor.
    pub fn past_string(self, s: &[u8]) -> Result<Cursor, Refusal>
        ensures { reached result ≡ string_end s.now self.at }
    {
        let at = self.at;
        if s.len() <= at {
            return Err(Refusal { no: 1, place: at });
        }
        let mut i = at + 1;
        // A pair of bytes is passed at once, which a range can't say.
        while i < s.len() {
            if pair_at(s, i, b'\\', b'"') || pair_at(s, i, b'"', b'"') {
                i += 2;
            } else if s[i] == b'"' {
                return Ok(Cursor { at: i + 1 });
            } else {
                i += 1;
            }
        }
        Err(Refusal { no: 1, place: at })
    }

    // The string at the cursor.
    #[tactic(auto, unfolding(crate::specs::Token::string_at))]
    pub fn string(self, s: &[u8]) -> Result<Token, Refusal>
        ensures { told result ≡ string_at s.now self.at }
    {
        let next = self.past_string(s)?;
        Ok(Token::Text {
            start: self.at,
            next,
        })
    }

    // Past the run at the cursor.
    pub fn past_run(self, s: &[u8]) -> Result<Cursor, Refusal>
        ensures { reached result ≡ run_end s.now self.at }
    {
        let at = self.at;
        for i in at..s.len() {
            if is_inner(s[i]) {
                continue;
            }
            if token_ends(s, i) {
                return Ok(Cursor { at: i });
            }
            if !is_allowed(s[i]) {
                return Err(Refusal { no: 1, place: at });
            }
        }
        Ok(Cursor {
            at: at.max(s.len()),
        })
    }

    // The run at the cursor, which starts as a number does.
    #[tactic(auto, unfolding(crate::specs::Token::number_at))]
    pub fn number(self, s: &[u8]) -> Result<Token, Refusal>
        ensures { told result ≡ number_at s.now self.at }
    {
        let next = self.past_run(s)?;
        Ok(Token::Number {
            start: self.at,
            next,
        })
    }

    // `/begin` or `/end` at the cursor.
    #[tactic(auto, unfolding(crate::specs::Token::mark_at))]
    pub fn mark(self, s: &[u8]) -> Result<Token, Refusal>
        ensures { told result ≡ mark_at s.now self.at }
    {
        let at = self.at;
        let next = self.past_run(s)?;
        let e = next.at;
        if is_begin(s, at, e) {
            return Ok(Token::Begin { start: at, next });
        }
        if is_end(s, at, e) {
            return Ok(Token::End { start: at, next });
        }
        Err(Refusal { no: 1, place: at })
    }

    // The token that starts at the cursor, by its first byte.
    #[tactic(auto, unfolding(crate::specs::Token::token_at))]
    pub fn token_here(self, s: &[u8]) -> Result<Token, Refusal>
        ensures { told result ≡ token_at s.now self.at }
    {
        let at = self.at;
        if s.len() <= at {
            return Ok(Token::Finish { place: s.len() });
        }
        let b = s[at];
        if b == b'"' {
            return self.string(s);
        }
        if starts_name(b) {
            return self.name(s);
        }
        if starts_number(b) {
            return self.number(s);
        }
        self.mark(s)
    }

    // The next token.
    #[tactic(auto, unfolding(crate::specs::Token::next_token))]
    pub fn token(self, s: &[u8]) -> Result<Token, Refusal>
        ensures { told result ≡ next_token s.now self.at }
    {
        self.blanks(s)?.token_here(s)
    }
}
