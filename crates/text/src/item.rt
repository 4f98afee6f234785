// The next item of a skipped block.
ghost use Rattle.std.specs.Prelude.{◌≡◌};
ghost use Rattle.text.specs.Answer.{told_item};
ghost use Rattle.text.specs.Token.{string_at};
ghost use Rattle.text.specs.Item.{run_item, item_at, next_item};

use crate::cursor::{Cursor, Item, Refusal};
use crate::token::{is_begin, is_end};

impl Cursor {
    // The string at the cursor as an item.
    #[tactic(auto, unfolding(crate::specs::Token::string_at))]
    pub fn text_item(self, s: &[u8]) -> Result<Item, Refusal>
        ensures { told_item result ≡ string_at s.now self.at }
    {
        let next = self.past_string(s)?;
        Ok(Item::Text {
            start: self.at,
            next,
        })
    }

    // The run at the cursor as an item.
    #[tactic(auto, unfolding(crate::specs::Item::run_item))]
    pub fn run_item(self, s: &[u8]) -> Result<Item, Refusal>
        ensures { told_item result ≡ run_item s.now self.at }
    {
        let at = self.at;
        let next = self.past_run(s)?;
        let e = next.at;
        if is_begin(s, at, e) {
            return Ok(Item::Begin { start: at, next });
        }
        if is_end(s, at, e) {
            return Ok(Item::End { start: at, next });
        }
        Ok(Item::Run { start: at, next })
    }

    // The item that starts at the cursor.
    #[tactic(auto, unfolding(crate::specs::Item::item_at))]
    pub fn item_here(self, s: &[u8]) -> Result<Item, Refusal>
        ensures { told_item result ≡ item_at s.now self.at }
    {
        let at = self.at;
        if s.len() <= at {
            return Ok(Item::Finish { place: s.len() });
        }
        if s[at] == b'"' {
            return self.text_item(s);
        }
        self.run_item(s)
    }

    // The next item.
    #[tactic(auto, unfolding(crate::specs::Item::next_item))]
    pub fn item(self, s: &[u8]) -> Result<Item, Refusal>
        ensures { told_item result ≡ next_item s.now self.at }
    {
        self.blanks(s)?.item_here(s)
    }
}
