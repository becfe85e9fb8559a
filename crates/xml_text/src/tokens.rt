//! The reader of an XML text: it takes tags and texts from the front.
ghost use Rattle.std.specs.Prelude.{◌≡◌, ◌≤◌, ◌<◌, ◌==◌, ℕ, length, not, IfSome, None};
ghost use Rattle.std.specs.List.{prefix_len};
ghost use Rattle.xml_text.specs.Markup as markup;
ghost use Rattle.xml_text.specs.Reading as reading;

use crate::bytes::{
    has_good_references, is_delimiter, is_name, is_text, len_before, name_len, white_len,
};

/// What a tag does.
#[derive(Clone, Copy, PartialEq, Eq)]
pub enum Kind {
    /// It begins an element.
    Opening,
    /// It is a whole element.
    Empty,
    /// It ends an element.
    Closing,
}

/// A tag without its attributes.
#[derive(Clone, Copy, Drop)]
pub struct Tag<'a> {
    pub kind: Kind,
    pub name: &'a [u8],
}

/// What is left of an XML text. A method that answers `None` did not find what it takes; what is left then is not said.
///
/// Extensible Markup Language 1.0, sections 2.3, 2.4 and 3.1.
#[derive(Drop)]
pub struct Tokens<'a> {
    pub left: &'a [u8],
}

impl<'a> Tokens<'a> {
    /// Takes the white space at the front, and answers whether there was any.
    pub fn skip_white(&mut self) -> bool
        ensures rest { self.new.left.now ≡ reading.after_white self.old.left.now }
        ensures some { result ≡ not (prefix_len markup.is_white self.old.left.now == 0) }
        ensures within { length self.new.left.now ≤ length self.old.left.now }
    {
        let len = white_len(self.left);
        self.left = &self.left[len..];
        len != 0
    }

    // Takes this byte.
    fn byte(&mut self, wanted: u8) -> Option<()>
        ensures value { reading.Gives reading.taken result self.new.left.now
            (reading.after_byte wanted self.old.left.now) }
        ensures shorter { IfSome result (λ _. length self.new.left.now < length self.old.left.now) }
    {
        match self.left {
            [first, rest @ ..] if *first == wanted => {
                self.left = rest;
                Some(())
            }
            _ => None,
        }
    }

    // Takes a name.
    #[tactic(auto, unfolding(crate::specs::Reading::name_at))]
    fn name(&mut self) -> Option<&'a [u8]>
        ensures value { reading.Gives (λ n. n.now) result self.new.left.now
            (reading.name_at self.old.left.now) }
        ensures within { IfSome result (λ _. length self.new.left.now ≤ length self.old.left.now) }
    {
        let (name, rest) = self.left.split_at(name_len(self.left));
        if !is_name(name) {
            return None;
        }
        self.left = rest;
        Some(name)
    }

    // Takes the value of an attribute after its first delimiter, and the second delimiter.
    #[tactic(auto, unfolding(crate::specs::Reading::value_up_to))]
    fn value_up_to(&mut self, delimiter: u8) -> Option<()>
        ensures value { reading.Gives reading.taken result self.new.left.now
            (reading.value_up_to delimiter self.old.left.now) }
        ensures shorter { IfSome result (λ _. length self.new.left.now < length self.old.left.now) }
    {
        let (value, rest) = self.left.split_at(len_before(delimiter, self.left));
        if !is_text(value) {
            return None;
        }
        self.left = rest;
        self.byte(delimiter)
    }

    // Takes the value of an attribute with both its delimiters.
    #[tactic(auto, unfolding(crate::specs::Reading::value_at))]
    fn value(&mut self) -> Option<()>
        ensures value { reading.Gives reading.taken result self.new.left.now
            (reading.value_at self.old.left.now) }
        ensures shorter { IfSome result (λ _. length self.new.left.now < length self.old.left.now) }
    {
        match self.left {
            [delimiter, rest @ ..] if is_delimiter(*delimiter) => {
                self.left = rest;
                self.value_up_to(*delimiter)
            }
            _ => None,
        }
    }

    // Takes an attribute, from its name on.
    #[tactic(auto, unfolding(crate::specs::Reading::attribute_at))]
    fn attribute(&mut self) -> Option<()>
        ensures value { reading.Gives reading.taken result self.new.left.now
            (reading.attribute_at self.old.left.now) }
        ensures shorter { IfSome result (λ _. length self.new.left.now < length self.old.left.now) }
    {
        self.name()?;
        self.skip_white();
        self.byte(b'=')?;
        self.skip_white();
        self.value()
    }

    // Takes the end of a tag, and answers whether the tag is empty. If there is no end, nothing is taken.
    #[tactic(auto, unfolding(crate::specs::Reading::end_at))]
    fn end(&mut self) -> Option<bool>
        ensures value { reading.Gives reading.itself result self.new.left.now
            (reading.end_at self.old.left.now) }
        ensures kept { result ≡ None → self.new.left.now ≡ self.old.left.now }
        ensures shorter { IfSome result (λ _. length self.new.left.now < length self.old.left.now) }
    {
        match self.left {
            [b'>', rest @ ..] => {
                self.left = rest;
                Some(false)
            }
            [b'/', b'>', rest @ ..] => {
                self.left = rest;
                Some(true)
            }
            _ => None,
        }
    }

    // Takes one attribute, or the end of the tag: then the answer is whether the tag is empty.
    #[tactic(auto, unfolding(crate::specs::Reading::next_attribute_at))]
    fn next_attribute(&mut self) -> Option<Option<bool>>
        ensures value { reading.Gives reading.itself result self.new.left.now
            (reading.next_attribute_at self.old.left.now) }
        ensures shorter { IfSome result (λ _. length self.new.left.now < length self.old.left.now) }
    {
        let apart = self.skip_white();
        if let Some(empty) = self.end() {
            return Some(Some(empty));
        }
        if !apart {
            return None;
        }
        self.attribute()?;
        Some(None)
    }

    // Takes the rest of a tag after its name, and answers whether the tag is empty.
    fn attributes(&mut self) -> Option<bool>
        ensures value { (n : ℕ) → length self.old.left.now < n
            → reading.Gives reading.itself result self.new.left.now
            (reading.attributes_at n self.old.left.now) }
        ensures shorter { IfSome result (λ _. length self.new.left.now < length self.old.left.now) }
    {
        'attributes: loop {
            match self.next_attribute() {
                None => return None,
                Some(None) => {}
                Some(Some(empty)) => return Some(empty),
            }
        }
    }

    // Takes a tag after `</`.
    #[tactic(auto, unfolding(crate::specs::Reading::closing_at))]
    fn closing(&mut self) -> Option<Tag<'a>>
        ensures value { reading.Gives reading.tag_of result self.new.left.now
            (reading.closing_at self.old.left.now) }
        ensures shorter { IfSome result (λ _. length self.new.left.now < length self.old.left.now) }
    {
        let name = self.name()?;
        self.skip_white();
        self.byte(b'>')?;
        Some(Tag {
            kind: Kind::Closing,
            name,
        })
    }

    // Takes a tag after `<` that is not a closing tag.
    #[tactic(auto, unfolding(crate::specs::Reading::opening_at))]
    fn opening(&mut self) -> Option<Tag<'a>>
        ensures value { reading.Gives reading.tag_of result self.new.left.now
            (reading.opening_at self.old.left.now) }
        ensures shorter { IfSome result (λ _. length self.new.left.now < length self.old.left.now) }
    {
        let name = self.name()?;
        let kind = if self.attributes()? {
            Kind::Empty
        } else {
            Kind::Opening
        };
        Some(Tag { kind, name })
    }

    /// Takes a tag. Its attributes are read, and are not kept.
    ///
    /// `None` if no tag of the grammar is at the front.
    #[tactic(auto, unfolding(crate::specs::Reading::tag_at))]
    pub fn tag(&mut self) -> Option<Tag<'a>>
        ensures value { reading.Gives reading.tag_of result self.new.left.now
            (reading.tag_at self.old.left.now) }
        ensures shorter { IfSome result (λ _. length self.new.left.now < length self.old.left.now) }
    {
        self.byte(b'<')?;
        match self.left {
            [b'/', rest @ ..] => {
                self.left = rest;
                self.closing()
            }
            _ => self.opening(),
        }
    }

    /// Takes a text up to the next tag or the end, and gives it as it is written.
    ///
    /// `None` if an `&` begins no reference.
    #[tactic(auto, unfolding(crate::specs::Reading::text_at))]
    pub fn text(&mut self) -> Option<&'a [u8]>
        ensures value { reading.Gives (λ t. t.now) result self.new.left.now
            (reading.text_at self.old.left.now) }
        ensures within { IfSome result (λ _. length self.new.left.now ≤ length self.old.left.now) }
    {
        let (text, rest) = self.left.split_at(len_before(b'<', self.left));
        if !has_good_references(text) {
            return None;
        }
        self.left = rest;
        Some(text)
    }
}
