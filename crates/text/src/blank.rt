// Blanks and comments.
ghost use Rattle.std.specs.Prelude.{◌≡◌};
ghost use Rattle.text.specs.Answer.{reached, gap_step};
ghost use Rattle.text.specs.Blank.{line_end, comment_end, blank_step, blank_at, token_ends};

use crate::bytes::{is_blank, is_inner, pair_at};
use crate::cursor::{Cursor, Refusal};

// The end of the line.
pub fn line_end(s: &[u8], at: usize) -> usize
    ensures { result ≡ line_end s.now at }
{
    for i in at..s.len() {
        if s[i] == b'\n' {
            return i;
        }
    }
    at.max(s.len())
}

// Whether a token may end at a place: a blank, a comment, a quote or the end stands there.
#[tactic(auto, unfolding(crate::specs::Blank::token_ends))]
pub fn token_ends(s: &[u8], at: usize) -> bool
    ensures { result ≡ token_ends s.now at }
{
    if s.len() <= at {
        return true;
    }
    let b = s[at];
    if is_inner(b) {
        return false;
    }
    is_blank(b) || b == b'"' || pair_at(s, at, b'/', b'/') || pair_at(s, at, b'/', b'*')
}

impl Cursor {
    // Past the comment whose `/*` stands at the cursor.
    pub fn comment(self, s: &[u8]) -> Result<Cursor, Refusal>
        ensures { reached result ≡ comment_end s.now self.at }
    {
        let at = self.at;
        if s.len() <= at {
            return Err(Refusal { no: 1, place: at });
        }
        for i in at + 2..s.len() {
            if pair_at(s, i, b'*', b'/') {
                return Ok(Cursor { at: i + 2 });
            }
        }
        Err(Refusal { no: 1, place: at })
    }

    // Past the blank or comment at the cursor.
    pub fn gap(self, s: &[u8]) -> Result<Option<Cursor>, Refusal>
        ensures { gap_step self.at result ≡ blank_step s.now self.at }
    {
        let at = self.at;
        if s.len() <= at || is_inner(s[at]) {
            return Ok(None);
        }
        if is_blank(s[at]) {
            return Ok(Some(Cursor { at: at + 1 }));
        }
        if pair_at(s, at, b'/', b'/') {
            return Ok(Some(Cursor {
                at: line_end(s, at + 2),
            }));
        }
        if pair_at(s, at, b'/', b'*') {
            return Ok(Some(self.comment(s)?));
        }
        Ok(None)
    }

    // Past blanks and comments.
    pub fn blanks(self, s: &[u8]) -> Result<Cursor, Refusal>
        ensures { reached result ≡ blank_at s.now self.at }
    {
        let mut c = self;
        while let Some(past) = c.gap(s)? {
            c = past;
        }
        Ok(c)
    }
}
