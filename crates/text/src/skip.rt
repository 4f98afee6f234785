// Skipping a block whole: blocks hold items and items hold blocks.
ghost use Rattle.std.specs.Prelude.{◌≡◌};
ghost use Rattle.text.specs.Answer.{reached, tagged, skipped};
ghost use Rattle.text.specs.Item.{next_item};
ghost use Rattle.text.specs.Skip.{tag_at, closing, is_a2ml, after_end, a2ml_item, a2ml_end, skip_block, skip_item};

use crate::bytes::same_part;
use crate::cursor::{Cursor, Item, Passed, Refusal, Tag};

// Whether the bytes from k up to e are `A2ML`.
#[tactic(auto, unfolding(crate::specs::Skip::is_a2ml))]
pub fn is_a2ml(s: &[u8], k: usize, e: usize) -> bool
    ensures { result ≡ is_a2ml s.now k e }
{
    same_part(s, k, e, b"A2ML", 0, 4)
}

impl Cursor {
    // The tag that comes next; another piece in its place is refusal no.
    #[tactic(auto, unfolding(crate::specs::Skip::tag_at))]
    pub fn tag(self, s: &[u8], no: u8) -> Result<Tag, Refusal>
        ensures { tagged result ≡ tag_at «no» s.now self.at }
    {
        match self.item(s)? {
            Item::Run { start, next } => Ok(Tag { start, next }),
            Item::Text { start, .. } | Item::Begin { start, .. } | Item::End { start, .. } => {
                Err(Refusal { no, place: start })
            }
            Item::Finish { place } => Err(Refusal { no: 3, place }),
        }
    }

    // Past the tag after an `/end`, which is that of the block, from `from` up to `to`.
    #[tactic(auto, unfolding(crate::specs::Skip::closing))]
    pub fn closing(self, s: &[u8], from: usize, to: usize) -> Result<Cursor, Refusal>
        ensures { reached result ≡ closing s.now from to self.at }
    {
        let tag = self.tag(s, 3)?;
        if same_part(s, tag.start, tag.next.at, s, from, to) {
            return Ok(tag.next);
        }
        Err(Refusal {
            no: 3,
            place: tag.start,
        })
    }

    // Past the `A2ML` that closes the block where it stands after an `/end`; else the `/end` alone is passed.
    // It is never refused; its clause cites `skipped`, which is said of a Result.
    pub fn after_end(self, s: &[u8]) -> Result<Passed, Refusal>
        ensures { skipped result ≡ after_end s.now self.at (next_item s.now self.at) }
    {
        match self.item(s) {
            Ok(Item::Run { start, next }) if is_a2ml(s, start, next.at) => Ok(Passed::Closes(next)),
            _ => Ok(Passed::Past(self)),
        }
    }

    // Past the next item of an A2ML block.
    #[tactic(auto, unfolding(crate::specs::Skip::a2ml_item))]
    pub fn a2ml_item(self, s: &[u8]) -> Result<Passed, Refusal>
        ensures { skipped result ≡ a2ml_item s.now self.at }
    {
        match self.item(s)? {
            Item::End { next, .. } => next.after_end(s),
            Item::Text { next, .. } | Item::Run { next, .. } | Item::Begin { next, .. } => {
                Ok(Passed::Past(next))
            }
            Item::Finish { place } => Err(Refusal { no: 3, place }),
        }
    }

    // Past the A2ML block whose items start at the cursor.
    pub fn past_a2ml(self, s: &[u8]) -> Result<Cursor, Refusal>
        ensures { reached result ≡ a2ml_end s.now self.at }
    {
        let mut c = self;
        // An item is passed at once, however long, which a range can't say.
        while c.at < s.len() {
            match c.a2ml_item(s)? {
                Passed::Past(past) => c = past,
                Passed::Closes(past) => return Ok(past),
            }
        }
        Err(Refusal {
            no: 3,
            place: s.len(),
        })
    }

    // Past the next item of a block, with depth levels left below the block.
    #[cycle(skip_block_skip_item)]
    #[tactic(auto, unfolding(crate::specs::Skip::skip_item, crate::specs::Skip::block_item))]
    pub fn skip_item(self, s: &[u8], depth: u8) -> Result<Passed, Refusal>
        ensures { skipped result ≡ skip_item depth s.now self.at }
    {
        match self.item(s)? {
            Item::Begin { start, next } => {
                if depth == 0 {
                    return Err(Refusal {
                        no: 3,
                        place: start,
                    });
                }
                let tag = next.tag(s, 5)?;
                let past = tag.next.skip_block(s, tag.start, depth - 1)?;
                Ok(Passed::Past(past))
            }
            Item::End { next, .. } => Ok(Passed::Closes(next)),
            Item::Text { next, .. } | Item::Run { next, .. } => Ok(Passed::Past(next)),
            Item::Finish { place } => Err(Refusal { no: 3, place }),
        }
    }

    // Past the block whose tag stands from `from` up to the cursor, with depth levels left below it.
    #[cycle(skip_block_skip_item)]
    pub fn skip_block(self, s: &[u8], from: usize, depth: u8) -> Result<Cursor, Refusal>
        ensures { reached result ≡ skip_block depth s.now from self.at }
    {
        if is_a2ml(s, from, self.at) {
            return self.past_a2ml(s);
        }
        let mut c = self;
        // As in `past_a2ml`: an item is passed at once.
        while c.at < s.len() {
            match c.skip_item(s, depth)? {
                Passed::Past(past) => c = past,
                Passed::Closes(past) => return past.closing(s, from, self.at),
            }
        }
        Err(Refusal {
            no: 3,
            place: s.len(),
        })
    }
}
