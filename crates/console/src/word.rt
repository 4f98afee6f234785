// A word or a path of the system, as far as there is room for it. The room is fixed, as all of the program's: no word is lost for want of memory.
ghost use Rattle.std.specs.Prelude.{◌≤◌};

use crate::sizes::WORD_ROOM;
use std::rt::Env;

#[derive(Clone, Copy)]
pub struct Word {
    bytes: [u8; WORD_ROOM],
    len: usize,
    ghost fits: { len ≤ 4096 },
}

impl Word {
    // The bytes of all parts, one after another.
    pub fn of(parts: &[&[u8]]) -> Word {
        let mut word = Word {
            bytes: [0; WORD_ROOM],
            len: 0,
        };
        for part in parts {
            word.push(part);
        }
        word
    }

    // The word at a place, all words counted; none where it is missing or longer than there is room.
    pub fn arg(rt: &impl Env, i: usize) -> Word {
        let mut bytes = [0u8; WORD_ROOM];
        let len = rt.arg(i, &mut bytes).unwrap_or(0);
        Word { bytes, len }
    }

    // Puts bytes after those that it has, as far as there is room.
    fn push(&mut self, s: &[u8]) {
        let n = s.len().min(WORD_ROOM - self.len);
        self.bytes[self.len..self.len + n].copy_from_slice(&s[..n]);
        self.len += n;
    }

    // Its bytes.
    pub fn bytes(&self) -> &[u8] {
        &self.bytes[..self.len]
    }

    // Whether there is no room for another byte.
    pub fn is_full(&self) -> bool {
        self.len == WORD_ROOM
    }
}
