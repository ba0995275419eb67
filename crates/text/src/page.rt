// A page: fixed memory on which a text is made piece by piece, to be put into a lent buffer at once.
#![tactic(auto)]

ghost use Rattle.std.specs.Prelude.{◌≡◌, ◌++◌, ◌≤◌, Some, [], List, ℕ, Option, length};
ghost use Rattle.text.specs.Decimal.{decimal_of};
ghost use Rattle.text.specs.Pages.{text_on, grown, moved_text, put_text};

use crate::{Place, put_named, put_word};
use std::marker::Model;

#[derive(Drop)]
pub struct Page<const N: usize> {
    bytes: [u8; N],
    place: Place,
}

// Clauses see the text so far, or none once something had no room.
impl<const N: usize> Model for Page<N> {
    ghost Value = { Option (List ℕ) };

    ghost view = { λ p. text_on p.place p.bytes };

    ghost invariant = { λ p. p.place.at ≤ N };
}

impl<const N: usize> Page<N> {
    // A page with nothing on it.
    pub fn new() -> Self
        ensures { result ≡ Some [] }
    {
        Page {
            bytes: [0; N],
            place: Place::front(),
        }
    }

    // Puts a word behind what stands there.
    pub fn put(&mut self, word: &[u8])
        ensures { self.new ≡ grown N self.old word.now }
    {
        self.place = put_word(&mut self.bytes, self.place, word);
    }

    // Puts a name and a number behind it, in decimal.
    pub fn put_named(&mut self, name: &[u8], n: u64)
        ensures { self.new ≡ grown N self.old (name.now ++ decimal_of n) }
    {
        self.place = put_named(&mut self.bytes, self.place, name, n);
    }

    // Puts the whole text at a place of a buffer, or nothing where it does not fit or something had no room on the page.
    pub fn put_into(&self, buffer: &mut [u8], place: Place) -> Place
        ensures { (result ≡ moved_text (length buffer.old) place self.now) × (buffer.new ≡ put_text buffer.old place self.now) }
    {
        if self.place.room {
            put_word(buffer, place, &self.bytes[..self.place.at])
        } else {
            Place { at: 0, room: false }
        }
    }
}
